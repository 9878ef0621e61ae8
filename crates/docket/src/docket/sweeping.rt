//! Sweeping the pairs.
ghost use Rattle.std.specs.Prelude.{◌≡◌, ◌<◌, ◌≤◌, length};
ghost use Rattle.arena.specs.Table.{pairs};
ghost use Rattle.docket.specs.Position.{position};
ghost use Rattle.docket.specs.Seen.{ledger_view};
ghost use Rattle.docket.specs.Use.{InUse};
ghost use Rattle.docket.specs.Sweep.{sweep_does, sweep_pair, sweep_says, sweeping, swept};

use super::{Docket, Ledger};
use crate::refusal::Refusal;
use arena::{Arena, Board};

// That the docket is in use is asked of each call: a struct of ledger, arena and table, two of them lent to be written, would have to say of each call instead which references it keeps.
impl Ledger {
    /// Strikes the pair if it is loose now, while the budget lasts and the count is below the number of pairs; tells how many strikes the sweep has then made.
    fn sweep_pair<A: Arena>(
        &mut self,
        arena: &A,
        table: &mut [u32],
        pair: (u16, u16),
        budget: u32,
        made: u32,
    ) -> u32
        requires { InUse (A.Arena.view arena.now) (position (ledger_view self.old) table.old) }
        ensures after { sweeping (ledger_view self.new) table.new result ≡ sweep_pair (A.Arena.view arena.now) budget pair.0 pair.1 (sweeping (ledger_view self.old) table.old made) }
        ensures rows { self.new.rows ≡ self.old.rows }
        ensures columns { self.new.columns ≡ self.old.columns }
    {
        if made < budget && !self.is_full() && (Board { arena, table }).is_loose(pair) {
            self.mark(arena, table, pair);
            made + 1
        } else {
            made
        }
    }

    /// Sweeps the pairs, in the order of their places.
    pub(super) fn sweep<A: Arena>(&mut self, arena: &A, table: &mut [u32], budget: u32) -> u32
        requires used { InUse (A.Arena.view arena.now) (position (ledger_view self.old) table.old) }
        ensures after { sweeping (ledger_view self.new) table.new result ≡ swept (A.Arena.view arena.now) (position (ledger_view self.old) table.old) budget }
    {
        let mut made = 0;
        for row in 0..arena.old_states() {
            for column in 0..arena.new_states() {
                made = self.sweep_pair(arena, table, (row, column), budget, made);
            }
        }
        made
    }
}

impl Docket {
    /// Visits the pairs in the order of their places, and strikes each that is loose when its turn comes, so that earlier strikes count. Answers how many strikes it made.
    ///
    /// It makes no more than the budget, and none once as many were granted as there are pairs. A refused call changes nothing.
    pub fn sweep<A: Arena>(
        &mut self,
        arena: &A,
        table: &mut [u32],
        budget: u32,
    ) -> Result<u32, Refusal>
        ensures answer { result ≡ sweep_says (A.Arena.view arena.now) (position self.old table.old) budget }
        ensures after { position self.new table.new ≡ sweep_does (A.Arena.view arena.now) (position self.old table.old) budget }
    {
        let ledger = self.ledger.as_mut().ok_or(Refusal::Closed)?;
        ledger.check_use(&Board { arena, table })?;
        Ok(ledger.sweep(arena, table, budget))
    }
}
