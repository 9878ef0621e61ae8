//! The refutation test: which pairs the struck ones refute, and by which move.
ghost use Rattle.std.specs.Prelude.{◌≡◌, Some, None};
ghost use Rattle.arena.specs.Pairs.{refuted};
ghost use Rattle.arena.specs.Table.{struck, least_refuting, cause_of, faulty, in_order, loose};

use crate::arena::Arena;
use crate::board::Board;
use crate::cause::Cause;
use crate::entry::{counts, number_in, says_standing};
use std::ops::Range;

impl<A: Arena> Board<'_, A> {
    /// Whether the pair counts as struck.
    #[inline(always)]
    fn is_struck(&self, before: Option<u32>, pair: (u16, u16)) -> bool
        ensures { result ≡ struck (A.Arena.view self.now.arena.now) self.now.table.now before pair.0 pair.1 }
    {
        counts(before, self.entry(pair))
    }

    /// The least of the old controller's moves in the range that refutes the pair.
    ///
    /// A move refutes the pair if no reply of the new controller will do: its environment can spoil each, by a move after which only struck pairs are reached, whatever the old environment does.
    // Made part of what asks it, as are the questions below: there it is known which pairs count as struck, so that the innermost loop tests an entry once, and what a state's moves have in common need not be asked again. Each loop asks for its own number of moves, so that a next state within these needs no further test.
    #[inline(always)]
    pub fn least_refuting_move(
        &self,
        before: Option<u32>,
        pair: (u16, u16),
        moves: Range<u16>,
    ) -> Option<u16>
        ensures { result ≡ least_refuting (A.Arena.view self.now.arena.now) (struck (A.Arena.view self.now.arena.now) self.now.table.now before) pair.0 pair.1 moves.start moves.end }
    {
        let board = *self;
        let arena = board.arena;
        let (old_state, new_state) = pair;
        // by a rule of this project four nested loops, three with labels, left from inside where a reply is spoilt
        'moves: for controller in moves {
            'replies: for reply in 0..arena.new_controller_moves(new_state) {
                'answers: for answer in 0..arena.new_environment_moves(new_state) {
                    let to = arena.new_next(new_state, reply, answer);
                    for environment in 0..arena.old_environment_moves(old_state) {
                        let from = arena.old_next(old_state, controller, environment);
                        if !board.is_struck(before, (from, to)) {
                            continue 'answers;
                        }
                    }
                    continue 'replies;
                }
                continue 'moves;
            }
            return Some(controller);
        }
        None
    }

    /// What there is to strike the pair for: sight if it is unlike, else its least refuting move.
    #[inline(always)]
    pub fn cause(&self, pair: (u16, u16)) -> Option<Cause>
        ensures { result ≡ cause_of (A.Arena.view self.now.arena.now) self.now.table.now pair.0 pair.1 }
    {
        if !self.arena.alike(pair) {
            return Some(Cause::Sight);
        }
        let moves = self.arena.old_controller_moves(pair.0);
        self.least_refuting_move(None, pair, 0..moves)
            .map(Cause::Move)
    }

    /// Whether some move of the old controller refutes the pair.
    #[inline(always)]
    #[tactic(auto, using(crate::proofs::Refuting::some_refutes))]
    pub fn is_refuted(&self, before: Option<u32>, pair: (u16, u16)) -> bool
        ensures { result ≡ refuted (A.Arena.view self.now.arena.now) (struck (A.Arena.view self.now.arena.now) self.now.table.now before) pair.0 pair.1 }
    {
        let moves = self.arena.old_controller_moves(pair.0);
        self.least_refuting_move(before, pair, 0..moves).is_some()
    }

    /// Whether the pair is unlike, or some move refutes it.
    #[inline(always)]
    fn is_faulty(&self, before: Option<u32>, pair: (u16, u16)) -> bool
        ensures { result ≡ faulty (A.Arena.view self.now.arena.now) (struck (A.Arena.view self.now.arena.now) self.now.table.now before) pair.0 pair.1 }
    {
        !self.arena.alike(pair) || self.is_refuted(before, pair)
    }

    /// Whether the pair is loose: it stands, and is unlike or refuted.
    #[inline(always)]
    pub fn is_loose(&self, pair: (u16, u16)) -> bool
        ensures { result ≡ loose (A.Arena.view self.now.arena.now) self.now.table.now pair.0 pair.1 }
    {
        self.stands(pair) && self.is_faulty(None, pair)
    }

    /// Whether the pair is in order: a struck one is unlike, or refuted when only the pairs with smaller numbers are taken for struck; a standing one is not loose.
    #[inline(always)]
    pub fn is_in_order(&self, pair: (u16, u16)) -> bool
        ensures { result ≡ in_order (A.Arena.view self.now.arena.now) self.now.table.now pair.0 pair.1 }
    {
        let entry = self.entry(pair);
        if says_standing(entry) {
            !self.is_faulty(None, pair)
        } else {
            self.is_faulty(Some(number_in(entry)), pair)
        }
    }
}
