//! One trial: the docket's calls beside the second solution.
use crate::draw::{Generator, Shape};
use crate::pair_set::PairSet;
use crate::solve::solve;
use arena::{Board, BoardMut, Cause, Exchange, number_of_pairs};
use docket::{Docket, Grant, Refusal, Settlement, Strike, check_certificate};
use likeness::Likeness;
use ranking::rank;
use std::alloc::{AllocError, Global};
use systems::System;

/// What was compared so far.
#[derive(Clone, Copy, Default)]
pub(crate) struct Tally {
    pub(crate) compared: u32,
    pub(crate) agreed: u32,
    pub(crate) replaced: u32,
    pub(crate) damaged: u32,
}

impl Tally {
    /// Counts one comparison.
    fn count(&mut self, agrees: bool) {
        self.compared = self.compared.saturating_add(1);
        if agrees {
            self.agreed = self.agreed.saturating_add(1);
        }
    }
}

/// An exchange, the pairs of its largest simulation, and the table that the docket's calls work on.
#[derive(Drop)]
struct Case<'a, S, T, L> {
    exchange: Exchange<'a, S, T, L>,
    simulation: PairSet,
    table: Vec<u32>,
}

impl<'a, S: System, T: System, L: Likeness> Case<'a, S, T, L> {
    /// The exchange, solved the second way, with memory for its table.
    fn new(heap: Global, exchange: Exchange<'a, S, T, L>) -> Result<Case<'a, S, T, L>, AllocError> {
        let Exchange { old, new, likeness } = exchange;
        let simulation = solve(heap, old, new, likeness)?;
        let pairs = number_of_pairs(&exchange);
        Ok(Case {
            exchange,
            simulation,
            table: vec![in heap; 0u32; pairs]?,
        })
    }

    /// How many old states there are.
    fn rows(&self) -> u16 {
        self.exchange.old.states()
    }

    /// How many new states there are.
    fn columns(&self) -> u16 {
        self.exchange.new.states()
    }

    /// Whether the pair of start states is in the simulation.
    fn replaces(&self) -> bool {
        self.simulation.contains((0, 0))
    }

    /// Whether the simulation has so many pairs.
    fn has_size(&self, standing: u32) -> bool {
        // a cast, since there is no `From<u32>` for `usize`
        self.simulation.len() == standing as usize
    }

    /// Whether the pair stands in the table.
    fn stands(&self, pair: (u16, u16)) -> bool {
        let board = Board {
            arena: &self.exchange,
            table: &self.table,
        };
        board.stands(pair)
    }

    /// Whether just the pairs of the simulation stand in the table.
    fn stand_alike(&self) -> bool {
        (0..self.rows()).all(|old_state| {
            (0..self.columns()).all(|new_state| {
                let pair = (old_state, new_state);
                self.stands(pair) == self.simulation.contains(pair)
            })
        })
    }

    /// Whether the certificate check accepts the table, and tells what the simulation does.
    fn is_certified(&self) -> bool {
        check_certificate(&self.exchange, &self.table).is_ok_and(|certificate| {
            self.has_size(certificate.standing) && certificate.replaces == self.replaces()
        })
    }

    /// Whether the docket decides as the simulation does, with the strikes proposed and an empty list lent for their answers.
    fn is_decided(
        &mut self,
        docket: &mut Docket,
        strikes: &[Strike],
        answers: &mut Vec<Result<Grant, Refusal>>,
    ) -> bool {
        let decided = docket.decide(&self.exchange, &mut self.table, strikes, answers);
        decided.is_ok_and(|outcome| {
            answers.len() == strikes.len()
                && self.has_size(outcome.standing)
                && outcome.replaces == self.replaces()
        })
    }

    /// Whether the settle check says that the pairs of the simulation stand.
    fn is_settled(&self, docket: &Docket) -> bool {
        matches!(
            docket.settle(&self.exchange, &self.table),
            Ok(Settlement::Settled(standing)) if self.has_size(standing)
        )
    }

    /// Draws a strike, good or bad.
    fn draw_strike(&self, generator: &mut Generator) -> Strike {
        let pair = (
            generator.below(self.rows().saturating_add(1)),
            generator.below(self.columns().saturating_add(1)),
        );
        let cause = match generator.below(4) {
            0 => Cause::Sight,
            number => Cause::Move(number - 1),
        };
        Strike { pair, cause }
    }

    /// Changes one entry of the table.
    fn damage(&mut self, generator: &mut Generator) {
        let pair = (
            generator.below(self.rows()),
            generator.below(self.columns()),
        );
        let mut board = BoardMut {
            arena: &self.exchange,
            table: &mut self.table,
        };
        match generator.below(6) {
            0 => board.stand(pair),
            number => board.strike(pair, u32::from(number)),
        }
    }
}

/// A row of trials: the generator that they draw from, how many lists they lent, and what they compared so far.
#[derive(Drop)]
pub(crate) struct Trials {
    heap: Global,
    generator: Generator,
    lists: u32,
    pub(crate) tally: Tally,
}

impl Trials {
    /// No trial yet, and a generator that starts from the seed.
    pub(crate) fn new(heap: Global, seed: u32) -> Trials {
        Trials {
            heap,
            generator: Generator::new(seed),
            lists: 0,
            tally: Tally::default(),
        }
    }

    /// A list for so many answers to lend to a decision. Every second one has no room at first.
    fn list_for(&mut self, answers: usize) -> Result<Vec<Result<Grant, Refusal>>, AllocError> {
        self.lists = self.lists.saturating_add(1);
        match self.lists % 2 {
            0 => Ok(Vec::new(self.heap)),
            _ => Vec::with_capacity(self.heap, answers),
        }
    }

    /// The words of a stored system of the shape.
    pub(crate) fn draw(&mut self, shape: Shape) -> Result<Vec<u16>, AllocError> {
        self.generator.draw_system(self.heap, shape)
    }

    /// The words of a near copy of a stored system of the shape: at most one next state is another.
    pub(crate) fn near_copy(
        &mut self,
        words: &[u16],
        shape: Shape,
    ) -> Result<Vec<u16>, AllocError> {
        self.generator.draw_near_copy(self.heap, words, shape)
    }

    /// Decides with strikes drawn, and compares the verdict, the table, the settle check and the certificate check.
    fn compare_decision<S: System, T: System, L: Likeness>(
        &mut self,
        case: &mut Case<S, T, L>,
    ) -> Result<(), AllocError> {
        let strikes = [
            case.draw_strike(&mut self.generator),
            case.draw_strike(&mut self.generator),
        ];
        let mut docket = Docket::new();
        let mut answers = self.list_for(strikes.len())?;
        self.tally
            .count(case.is_decided(&mut docket, &strikes, &mut answers));
        self.tally.count(case.stand_alike());
        self.tally.count(case.is_settled(&docket));
        self.tally.count(case.is_certified());
        if case.replaces() {
            self.tally.replaced = self.tally.replaced.saturating_add(1);
        }
        Ok(())
    }

    /// Ranks the pairs, and compares the table and the certificate check.
    fn compare_ranks<S: System, T: System, L: Likeness>(&mut self, case: &mut Case<S, T, L>) {
        self.tally
            .count(rank(&case.exchange, &mut case.table).is_ok());
        self.tally.count(case.stand_alike());
        self.tally.count(case.is_certified());
    }

    /// Damages the table, and compares: it may be accepted only if just the pairs of the simulation stand.
    fn compare_damaged<S: System, T: System, L: Likeness>(&mut self, case: &mut Case<S, T, L>) {
        case.damage(&mut self.generator);
        let accepted = check_certificate(&case.exchange, &case.table).is_ok();
        self.tally.count(!accepted || case.stand_alike());
        if !accepted {
            self.tally.damaged = self.tally.damaged.saturating_add(1);
        }
    }

    /// Compares everything for one exchange.
    pub(crate) fn compare<S: System, T: System, L: Likeness>(
        &mut self,
        old: &S,
        new: &T,
        likeness: &L,
    ) -> anyhow::Result<()> {
        let mut case = Case::new(self.heap, Exchange { old, new, likeness })?;
        self.compare_decision(&mut case)?;
        self.compare_damaged(&mut case);
        self.compare_ranks(&mut case);
        self.compare_damaged(&mut case);
        Ok(())
    }
}
