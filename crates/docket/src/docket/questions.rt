//! A new docket, and what a docket tells of itself.
ghost use Rattle.std.specs.Prelude.{◌≡◌, ◌*◌, ◌≤◌, length, if◌then◌else◌, Some, None, OnOk};
ghost use Rattle.systems.specs.Refused.{unless};
ghost use Rattle.arena.specs.Table.{pairs};
ghost use Rattle.docket.specs.Position.{WithinBounds, closed, position};
ghost use Rattle.docket.specs.Refusals.{use_refusal};
ghost use Rattle.docket.specs.Seen.{ledger_view};
ghost use Rattle.docket.specs.Use.{InUse};

use super::{Docket, Ledger};
use crate::fit::check_fit;
use crate::refusal::Refusal;
use arena::{Arena, Board};

impl Docket {
    /// A closed docket.
    pub fn new() -> Docket
        ensures { result ≡ closed }
    {
        Docket { ledger: None }
    }

    /// For how many old and new states the docket was opened, at most 256 of each; none if it is closed.
    pub fn sizes(&self) -> Option<(u16, u16)>
        ensures answer { result ≡ (if self.now.is_open then Some (self.now.old_states, self.now.new_states) else None) }
        ensures bounds { WithinBounds self.now }
    {
        self.ledger.map(|ledger| (ledger.rows, ledger.columns))
    }

    /// How many strikes it has granted since it was opened, at most as many as there are pairs.
    // 0 of a closed docket and no `Option`: a result that was left open, and is settled in docs/DECISIONS.md
    pub fn count(&self) -> u32
        ensures answer { result ≡ self.now.count }
        ensures bounds { WithinBounds self.now }
    {
        self.ledger.map_or(0, |ledger| ledger.count)
    }
}

impl Ledger {
    /// How many pairs there are.
    pub(super) fn pairs(&self) -> u32
        ensures { result ≡ self.now.rows * self.now.columns }
    {
        u32::from(self.rows) * u32::from(self.columns)
    }

    /// Checks that a call other than an opening may look further: that the systems are of these sizes, and the table serves.
    pub(super) fn check_use<A: Arena>(&self, board: &Board<'_, A>) -> Result<(), Refusal>
        ensures answer { result ≡ unless (use_refusal (A.Arena.view board.now.arena.now) (position (ledger_view self.now) board.now.table.now)) tt }
        ensures used { OnOk result (InUse (A.Arena.view board.now.arena.now) (position (ledger_view self.now) board.now.table.now)) }
    {
        let arena = board.arena;
        if !(self.rows == arena.old_states() && self.columns == arena.new_states()) {
            return Err(Refusal::OtherSizes);
        }
        check_fit(arena, board.table.len())
    }
}
