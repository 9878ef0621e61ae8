//! Deciding an exchange.
ghost use Rattle.std.specs.Prelude.{◌≡◌, ◌+◌, ◌≤◌, ◌++◌, length, vec_len, vec_capacity, ◌≢◌, OnErr};
ghost use Rattle.arena.specs.Table.{pairs, start_stands};
ghost use Rattle.docket.specs.Decide.{Decided, full_budget, proposals_answered, swept_out};
ghost use Rattle.docket.specs.Judge.{Judges, judge_does, judge_says, outcome_of};
ghost use Rattle.docket.specs.Position.{position};
ghost use Rattle.docket.specs.Seen.{ledger_view};
ghost use Rattle.docket.specs.Sweep.{swept};
ghost use Rattle.docket.specs.Use.{InUse, UnderWay};
ghost use Rattle.docket.specs.declared.decision.DecideError.TheVariants.{NoMemory};

use super::{Docket, Ledger};
use crate::call::Grant;
use crate::decision::DecideError;
use crate::fit::check_opening;
use crate::outcome::Outcome;
use crate::refusal::Refusal;
use crate::strike::{Settlement, Strike};
use arena::{Arena, Board, Gathered, pays_to_gather};

/// The budget of each sweep of a decision.
const FULL_BUDGET: u32 = 65_535;

/// Whether the new system replaces the old, by a table that is settled.
fn verdict<A: Arena>(board: &Board<'_, A>) -> bool
    ensures { result ≡ start_stands (A.Arena.view board.now.arena.now) board.now.table.now }
{
    board.start_stands()
}

impl Ledger {
    /// Sweeps with the full budget, and tells how many strikes that made.
    #[tactic(auto, using(crate::proofs::Decided::swept_counts, crate::proofs::Decided::swept_old_states, crate::proofs::Decided::swept_new_states))]
    fn sweep_fully<A: Arena>(&mut self, arena: &A, table: &mut [u32]) -> u32
        requires used { InUse (A.Arena.view arena.now) (position (ledger_view self.old) table.old) }
        ensures made { result ≡ (swept (A.Arena.view arena.now) (position (ledger_view self.old) table.old) full_budget).made }
        ensures after { position (ledger_view self.new) table.new ≡ (swept (A.Arena.view arena.now) (position (ledger_view self.old) table.old) full_budget).position }
        ensures count { self.new.count ≡ self.old.count + result }
        ensures rows { self.new.rows ≡ self.old.rows }
        ensures columns { self.new.columns ≡ self.old.columns }
    {
        self.sweep(arena, table, FULL_BUDGET)
    }

    /// Sweeps with the full budget until a sweep makes no strike, and tells how many strikes they made.
    #[tactic(auto, using(crate::proofs::Decided::pairs_most, crate::proofs::Decided::swept_out_next, crate::proofs::Decided::swept_out_last, crate::proofs::Decided::none_made_same))]
    fn sweep_out<A: Arena>(&mut self, arena: &A, table: &mut [u32]) -> u32
        requires used { InUse (A.Arena.view arena.now) (position (ledger_view self.old) table.old) }
        ensures made { result ≡ (swept_out (A.Arena.view arena.now) (pairs (A.Arena.view arena.now)) (position (ledger_view self.old) table.old)).made }
        ensures after { position (ledger_view self.new) table.new ≡ (swept_out (A.Arena.view arena.now) (pairs (A.Arena.view arena.now)) (position (ledger_view self.old) table.old)).position }
    {
        let mut total = 0;
        // no range and no chain: how many sweeps it takes shows only at the last
        loop {
            let made = self.sweep_fully(arena, table);
            if made == 0 {
                return total;
            }
            total += made;
        }
    }
}

impl Docket {
    /// Sweeps over the arena until a sweep makes no strike, and settles.
    fn conclude_on<A: Arena>(&mut self, arena: &A, table: &mut [u32]) -> Outcome
        requires { UnderWay (A.Arena.view arena.now) (position self.old table.old) }
        ensures outcome { result ≡ outcome_of (A.Arena.view arena.now) (swept_out (A.Arena.view arena.now) (pairs (A.Arena.view arena.now)) (position self.old table.old)) }
        ensures after { position self.new table.new ≡ (swept_out (A.Arena.view arena.now) (pairs (A.Arena.view arena.now)) (position self.old table.old)).position }
    {
        let Some(ledger) = &mut self.ledger else {
            unreachable()
        };
        let swept = ledger.sweep_out(arena, table);
        let Ok(Settlement::Settled(standing)) = self.settle(arena, table) else {
            unreachable()
        };
        Outcome {
            swept,
            standing,
            replaces: verdict(&Board { arena, table }),
        }
    }

    /// Sweeps until a sweep makes no strike, and settles, over the gathered arena.
    // By itself, since only a call that gathers needs the stack for it.
    #[inline(never)]
    fn conclude_gathered<A: Arena>(&mut self, arena: &A, table: &mut [u32]) -> Outcome
        requires { UnderWay (A.Arena.view arena.now) (position self.old table.old) }
        ensures outcome { result ≡ outcome_of (A.Arena.view arena.now) (swept_out (A.Arena.view arena.now) (pairs (A.Arena.view arena.now)) (position self.old table.old)) }
        ensures after { position self.new table.new ≡ (swept_out (A.Arena.view arena.now) (pairs (A.Arena.view arena.now)) (position self.old table.old)).position }
    {
        self.conclude_on(&Gathered::new(arena), table)
    }

    /// Sweeps until a sweep makes no strike, and settles.
    fn conclude<A: Arena>(&mut self, arena: &A, table: &mut [u32]) -> Outcome
        requires { UnderWay (A.Arena.view arena.now) (position self.old table.old) }
        ensures outcome { result ≡ outcome_of (A.Arena.view arena.now) (swept_out (A.Arena.view arena.now) (pairs (A.Arena.view arena.now)) (position self.old table.old)) }
        ensures after { position self.new table.new ≡ (swept_out (A.Arena.view arena.now) (pairs (A.Arena.view arena.now)) (position self.old table.old)).position }
    {
        if pays_to_gather(arena) {
            self.conclude_gathered(arena, table)
        } else {
            self.conclude_on(arena, table)
        }
    }

    /// Opens the docket, sweeps until a sweep makes no strike, and settles.
    ///
    /// It tells what `decide` does where no strike is proposed, and takes no memory. A refused call changes nothing.
    pub fn judge<A: Arena>(&mut self, arena: &A, table: &mut [u32]) -> Result<Outcome, Refusal>
        ensures answer { result ≡ judge_says (A.Arena.view arena.now) (position self.old table.old) }
        ensures after { position self.new table.new ≡ judge_does (A.Arena.view arena.now) (position self.old table.old) }
        ensures law { Judges (A.Arena.view arena.now) table.new result }
    {
        self.open(arena, table)?;
        Ok(self.conclude(arena, table))
    }

    /// Decides whether the new system replaces the old: opens the docket, makes the strikes that are proposed, each granted or refused, sweeps until a sweep makes no strike, and settles.
    ///
    /// The verdict is whether the pair of the start states is in the largest simulation, whatever was proposed. The answers to the proposals are appended to the lent list. Where the opening is refused, or the list has no room for the answers and there is no memory to make it, nothing has changed.
    pub fn decide<A: Arena>(
        &mut self,
        arena: &A,
        table: &mut [u32],
        strikes: &[Strike],
        answers: &mut Vec<Result<Grant, Refusal>>,
    ) -> Result<Outcome, DecideError>
        ensures decided { Decided (A.Arena.view arena.now) (position self.old table.old) strikes.now result (position self.new table.new) }
        ensures answered { answers.new.items ≡ answers.old.items ++ proposals_answered (A.Arena.view arena.now) (position self.old table.old) strikes.now result }
        ensures room { vec_len answers.old + length strikes.now ≤ vec_capacity answers.old → result ≢ Err NoMemory }
        ensures capacity { vec_capacity answers.old ≤ vec_capacity answers.new }
        ensures spared { OnErr result (vec_capacity answers.new ≡ vec_capacity answers.old) }
    {
        check_opening(arena, table.len())?;
        answers.reserve(strikes.len())?;
        self.open_fitting(arena, table);
        self.propose(arena, table, strikes, answers);
        Ok(self.conclude(arena, table))
    }
}
