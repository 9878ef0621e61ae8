//! Making calls in a row.
ghost use Rattle.std.specs.Prelude.{◌≡◌, ◌+◌, ◌≤◌, true, ◌++◌, length, None, is_ok, vec_len, vec_capacity, MatchResult, OnErr};
ghost use Rattle.docket.specs.Decide.{proposals};
ghost use Rattle.docket.specs.Law.{CertificateLaw, RunLaw};
ghost use Rattle.docket.specs.Position.{position};
ghost use Rattle.docket.specs.Refusals.{use_refusal};
ghost use Rattle.docket.specs.Run.{after, answers as answers_of, does, says};

use super::Docket;
use crate::call::{Call, Grant};
use crate::refusal::Refusal;
use crate::strike::Strike;
use arena::Arena;
use std::alloc::AllocError;

impl Docket {
    /// Makes one call.
    fn perform<A: Arena>(
        &mut self,
        arena: &A,
        table: &mut [u32],
        call: Call,
    ) -> Result<Grant, Refusal>
        ensures answer { result ≡ says (A.Arena.view arena.now) (position self.old table.old) call }
        ensures after { position self.new table.new ≡ does (A.Arena.view arena.now) (position self.old table.old) call }
    {
        // calls are data that a caller lists beforehand, and so no closures
        match call {
            Call::Open => self.open(arena, table).map(Grant::Opened),
            Call::Strike(strike) => self.strike(arena, table, strike).map(Grant::Struck),
            Call::Sweep(budget) => self.sweep(arena, table, budget).map(Grant::Swept),
            Call::Settle => self.settle(arena, table).map(Grant::Checked),
        }
    }

    /// Makes the calls, and appends their answers where there is room for them.
    fn perform_all<A: Arena>(
        &mut self,
        arena: &A,
        table: &mut [u32],
        calls: &[Call],
        answers: &mut Vec<Result<Grant, Refusal>>,
    )
        requires { vec_len answers.old + length calls.now ≤ vec_capacity answers.old }
        ensures answered { answers.new.items ≡ answers.old.items ++ answers_of (A.Arena.view arena.now) (position self.old table.old) calls.now }
        ensures after { position self.new table.new ≡ after (A.Arena.view arena.now) (position self.old table.old) calls.now }
        ensures capacity { vec_capacity answers.new ≡ vec_capacity answers.old }
    {
        for call in calls {
            let answer = self.perform(arena, table, *call);
            answers.push_reserved(answer);
        }
    }

    /// Makes one strike that is proposed to a docket whose use is not refused: the moves at the states are not counted again.
    fn propose_one<A: Arena>(
        &mut self,
        arena: &A,
        table: &mut [u32],
        strike: Strike,
    ) -> Result<Grant, Refusal>
        requires { use_refusal (A.Arena.view arena.now) (position self.old table.old) ≡ None }
        ensures answer { result
            ≡ says (A.Arena.view arena.now) (position self.old table.old) (Call.Strike strike) }
        ensures after { position self.new table.new
            ≡ does (A.Arena.view arena.now) (position self.old table.old) (Call.Strike strike) }
    {
        let Some(ledger) = &mut self.ledger else {
            unreachable()
        };
        ledger.strike(arena, table, strike).map(Grant::Struck)
    }

    /// Makes the strikes that are proposed to a docket whose use is not refused, and appends their answers where there is room for them.
    // By itself, and no list of calls for `perform_all`, since a list takes memory, and the use of the docket is tested only once.
    pub(super) fn propose<A: Arena>(
        &mut self,
        arena: &A,
        table: &mut [u32],
        strikes: &[Strike],
        answers: &mut Vec<Result<Grant, Refusal>>,
    )
        requires used { use_refusal (A.Arena.view arena.now) (position self.old table.old) ≡ None }
        requires room { vec_len answers.old + length strikes.now ≤ vec_capacity answers.old }
        ensures answered { answers.new.items ≡ answers.old.items ++ answers_of (A.Arena.view arena.now) (position self.old table.old) (proposals strikes.now) }
        ensures after { position self.new table.new ≡ after (A.Arena.view arena.now) (position self.old table.old) (proposals strikes.now) }
        ensures capacity { vec_capacity answers.new ≡ vec_capacity answers.old }
    {
        for strike in strikes {
            let answer = self.propose_one(arena, table, *strike);
            answers.push_reserved(answer);
        }
    }

    // `made` stays one clause: two would each match on the result again
    /// Makes the calls one after the other, each starting where the one before it ended, and appends their answers.
    ///
    /// Where there is no memory for the answers, no call is made. The contract carries the law over runs, whatever the docket and the table were before: once an opening among the calls is granted, no struck pair is in any simulation, and a settle check tells the truth.
    pub fn run<A: Arena>(
        &mut self,
        arena: &A,
        table: &mut [u32],
        calls: &[Call],
        answers: &mut Vec<Result<Grant, Refusal>>,
    ) -> Result<(), AllocError>
        ensures made { MatchResult result (λ _. (answers.new.items ≡ answers.old.items ++ answers_of (A.Arena.view arena.now) (position self.old table.old) calls.now) × (position self.new table.new ≡ after (A.Arena.view arena.now) (position self.old table.old) calls.now)) (λ _. (answers.new.items ≡ answers.old.items) × (position self.new table.new ≡ position self.old table.old)) }
        ensures room { vec_len answers.old + length calls.now ≤ vec_capacity answers.old → is_ok result ≡ true }
        ensures capacity { vec_capacity answers.old ≤ vec_capacity answers.new }
        ensures spared { OnErr result (vec_capacity answers.new ≡ vec_capacity answers.old) }
        ensures law { RunLaw (A.Arena.view arena.now) (position self.old table.old) calls.now }
        ensures certificates { CertificateLaw (A.Arena.view arena.now) }
    {
        answers.reserve(calls.len())?;
        self.perform_all(arena, table, calls, answers);
        Ok(())
    }
}
