//! Opening a docket.
ghost use Rattle.std.specs.Prelude.{◌≡◌, ◌≤◌};
ghost use Rattle.systems.specs.Limits.{max_states};
ghost use Rattle.arena.specs.Table.{pairs};
ghost use Rattle.docket.specs.Position.{opened, position};
ghost use Rattle.docket.specs.Strikes.{open_does, open_says};

use super::{Docket, Ledger};
use crate::fit::check_opening;
use crate::refusal::Refusal;
use arena::{Arena, BoardMut};

impl Docket {
    /// Opens the docket for systems that serve. Answers how many pairs there are.
    pub(super) fn open_fitting<A: Arena>(&mut self, arena: &A, table: &mut [u32]) -> u32
        requires old { (A.Arena.view arena.now).old_states ≤ max_states }
        requires new { (A.Arena.view arena.now).new_states ≤ max_states }
        ensures number { result ≡ pairs (A.Arena.view arena.now) }
        ensures after { position self.new table.new ≡ opened (A.Arena.view arena.now) (position self.old table.old) }
    {
        let ledger = Ledger {
            rows: arena.old_states(),
            columns: arena.new_states(),
            count: 0,
        };
        BoardMut { arena, table }.clear();
        self.ledger = Some(ledger);
        ledger.pairs()
    }

    /// Opens the docket for the systems: every pair stands, and no strike is counted. Answers how many pairs there are.
    ///
    /// A refused call changes nothing, and entries behind those of the pairs are never touched.
    pub fn open<A: Arena>(&mut self, arena: &A, table: &mut [u32]) -> Result<u32, Refusal>
        ensures answer { result ≡ open_says (A.Arena.view arena.now) (position self.old table.old) }
        ensures after { position self.new table.new ≡ open_does (A.Arena.view arena.now) (position self.old table.old) }
    {
        check_opening(arena, table.len())?;
        Ok(self.open_fitting(arena, table))
    }
}
