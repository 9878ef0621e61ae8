//! Striking a pair.
ghost use Rattle.std.specs.Prelude.{◌≡◌, ◌+◌, ◌*◌, ◌<◌, None, OnOk, nat_le};
ghost use Rattle.systems.specs.Refused.{unless};
ghost use Rattle.arena.specs.Pairs.{refutes};
ghost use Rattle.arena.specs.Table.{pairs, struck};
ghost use Rattle.arena.specs.Written.{with_struck};
ghost use Rattle.docket.specs.Position.{one_more, position};
ghost use Rattle.docket.specs.Refusals.{cause_refusal, pair_refusal, use_refusal};
ghost use Rattle.docket.specs.Seen.{ledger_view};
ghost use Rattle.docket.specs.Use.{InUse};
ghost use Rattle.docket.specs.Strikes.{strike_does, strike_says};

use super::{Docket, Ledger};
use crate::refusal::Refusal;
use crate::strike::Strike;
use arena::{Arena, Board, BoardMut, Cause};

/// Whether the move refutes the pair.
fn does_refute<A: Arena>(board: &Board<'_, A>, pair: (u16, u16), controller: u16) -> bool
    requires { controller < u16.MAX }
    ensures { result ≡ refutes (A.Arena.view board.now.arena.now) (struck (A.Arena.view board.now.arena.now) board.now.table.now None) pair.0 pair.1 controller }
{
    board
        .least_refuting_move(None, pair, controller..controller + 1)
        .is_some()
}

/// Checks that there is the cause to strike the pair for.
fn check_cause<A: Arena>(board: &Board<'_, A>, strike: Strike) -> Result<(), Refusal>
    ensures { result ≡ unless (cause_refusal (A.Arena.view board.now.arena.now) board.now.table.now strike.pair.0 strike.pair.1 strike.cause) tt }
{
    match strike.cause {
        Cause::Sight => {
            if board.arena.alike(strike.pair) {
                return Err(Refusal::Alike);
            }
        }
        Cause::Move(controller) => {
            if controller >= board.arena.old_controller_moves(strike.pair.0) {
                return Err(Refusal::NoSuchMove);
            }
            if !does_refute(board, strike.pair, controller) {
                return Err(Refusal::NotRefuted);
            }
        }
    }
    Ok(())
}

impl Ledger {
    /// Whether as many strikes were granted as there are pairs.
    pub(super) fn is_full(&self) -> bool
        ensures { result ≡ nat_le (self.now.rows * self.now.columns) self.now.count }
    {
        self.pairs() <= self.count
    }

    /// Checks that a docket in use can grant the strike.
    fn check_strike<A: Arena>(&self, board: &Board<'_, A>, strike: Strike) -> Result<(), Refusal>
        requires used { InUse (A.Arena.view board.now.arena.now) (position (ledger_view self.now) board.now.table.now) }
        ensures answer { result ≡ unless (pair_refusal (A.Arena.view board.now.arena.now) (position (ledger_view self.now) board.now.table.now) strike.pair.0 strike.pair.1 strike.cause) tt }
        ensures room { OnOk result (self.now.count < pairs (A.Arena.view board.now.arena.now)) }
    {
        let arena = board.arena;
        let (old_state, new_state) = strike.pair;
        if !(old_state < arena.old_states() && new_state < arena.new_states()) {
            return Err(Refusal::NoSuchState);
        }
        if !board.stands(strike.pair) {
            return Err(Refusal::AlreadyStruck);
        }
        check_cause(board, strike)?;
        if self.is_full() {
            return Err(Refusal::Full);
        }
        Ok(())
    }

    /// Counts one more strike, and strikes the pair as that number.
    pub(super) fn mark<A: Arena>(&mut self, arena: &A, table: &mut [u32], pair: (u16, u16)) -> u32
        requires { self.old.count < self.old.rows * self.old.columns }
        ensures number { result ≡ self.old.count + 1 }
        ensures docket { ledger_view self.new ≡ one_more (ledger_view self.old) }
        ensures written { table.new
            ≡ with_struck (A.Arena.view arena.now) table.old pair.0 pair.1 (self.old.count + 1) }
    {
        self.count += 1;
        BoardMut { arena, table }.strike(pair, self.count);
        self.count
    }

    /// Strikes the pair for the cause, where the docket's use is not refused.
    pub(super) fn strike<A: Arena>(
        &mut self,
        arena: &A,
        table: &mut [u32],
        strike: Strike,
    ) -> Result<u32, Refusal>
        requires { use_refusal (A.Arena.view arena.now) (position (ledger_view self.old) table.old)
            ≡ None }
        ensures answer { result
            ≡ strike_says (A.Arena.view arena.now)
            (position (ledger_view self.old) table.old) strike }
        ensures after { position (ledger_view self.new) table.new
            ≡ strike_does (A.Arena.view arena.now)
            (position (ledger_view self.old) table.old) strike }
    {
        self.check_strike(&Board { arena, table }, strike)?;
        Ok(self.mark(arena, table, strike.pair))
    }
}

impl Docket {
    /// Strikes the pair for the cause. The strike's number is what the docket then counts; the pair is struck as that number, which is the answer.
    ///
    /// A refused call changes nothing, and no other entry is ever touched.
    pub fn strike<A: Arena>(
        &mut self,
        arena: &A,
        table: &mut [u32],
        strike: Strike,
    ) -> Result<u32, Refusal>
        ensures answer { result ≡ strike_says (A.Arena.view arena.now) (position self.old table.old) strike }
        ensures after { position self.new table.new ≡ strike_does (A.Arena.view arena.now) (position self.old table.old) strike }
    {
        let ledger = self.ledger.as_mut().ok_or(Refusal::Closed)?;
        ledger.check_use(&Board { arena, table })?;
        ledger.strike(arena, table, strike)
    }
}
