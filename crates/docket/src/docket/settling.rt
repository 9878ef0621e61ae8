//! Checking whether a table is settled.
ghost use Rattle.std.specs.Prelude.{◌≡◌};
ghost use Rattle.docket.specs.Position.{position};
ghost use Rattle.docket.specs.Settle.{first_loose, first_loose_in, loose_strike, settle_says};

use super::Docket;
use crate::refusal::Refusal;
use crate::strike::{Settlement, Strike};
use arena::{Arena, Board};

/// The strike that the pair can get, if it is loose.
fn loose_strike<A: Arena>(board: &Board<'_, A>, pair: (u16, u16)) -> Option<Strike>
    ensures { result ≡ loose_strike (A.Arena.view board.now.arena.now) board.now.table.now pair.0 pair.1 }
{
    if !board.stands(pair) {
        return None;
    }
    board.cause(pair).map(|cause| Strike { pair, cause })
}

/// The strike that the first loose pair of an old state can get.
fn first_loose_in<A: Arena>(board: &Board<'_, A>, row: u16) -> Option<Strike>
    ensures { result ≡ first_loose_in (A.Arena.view board.now.arena.now) board.now.table.now row (A.Arena.view board.now.arena.now).new_states }
{
    (0..board.arena.new_states()).find_map(|column| loose_strike(board, (row, column)))
}

/// The strike that the first loose pair by place can get.
fn first_loose<A: Arena>(board: &Board<'_, A>) -> Option<Strike>
    ensures { result ≡ first_loose (A.Arena.view board.now.arena.now) board.now.table.now }
{
    (0..board.arena.old_states()).find_map(|row| first_loose_in(board, row))
}

impl Docket {
    /// Tells how many pairs stand if none of them is loose; else names the first that is, and what a sweep would strike it for.
    pub fn settle<A: Arena>(&self, arena: &A, table: &[u32]) -> Result<Settlement, Refusal>
        ensures { result ≡ settle_says (A.Arena.view arena.now) (position self.now table.now) }
    {
        let ledger = self.ledger.ok_or(Refusal::Closed)?;
        let board = Board { arena, table };
        ledger.check_use(&board)?;
        Ok(match first_loose(&board) {
            Some(strike) => Settlement::Loose(strike),
            None => Settlement::Settled(board.number_standing()),
        })
    }
}
