//! The largest simulation found a second way: a set of pairs that shrinks until none has to go.
use crate::pair_set::PairSet;
use likeness::Likeness;
use std::alloc::{AllocError, Global};
use systems::System;

/// Two systems, the likeness that compares them, and the pairs that have not had to go.
#[derive(Drop)]
struct Search<'a, S, T, L> {
    old: &'a S,
    new: &'a T,
    likeness: &'a L,
    pairs: PairSet,
}

impl<S: System, T: System, L: Likeness> Search<'_, S, T, L> {
    /// Whether the readings of the pair are alike on each channel.
    fn readings_alike(&self, pair: (u16, u16)) -> bool {
        (0..self.new.channels()).all(|channel| {
            self.likeness.alike(
                channel,
                self.old.reading(pair.0, channel),
                self.new.reading(pair.1, channel),
            )
        })
    }

    /// Whether the old environment can lead to a pair of the set that has the new state.
    fn can_meet(&self, state: u16, controller: u16, reached: u16) -> bool {
        (0..self.old.environment_moves(state)).any(|environment| {
            let next = self.old.next(state, controller, environment);
            self.pairs.contains((next, reached))
        })
    }

    /// Whether the reply leads into the set, whatever the new environment does.
    fn reply_holds(&self, pair: (u16, u16), controller: u16, reply: u16) -> bool {
        (0..self.new.environment_moves(pair.1)).all(|environment| {
            let reached = self.new.next(pair.1, reply, environment);
            self.can_meet(pair.0, controller, reached)
        })
    }

    /// Whether the new controller has a reply to the move.
    fn has_reply(&self, pair: (u16, u16), controller: u16) -> bool {
        (0..self.new.controller_moves(pair.1)).any(|reply| self.reply_holds(
            pair, controller, reply,
        ))
    }

    /// Whether the pair can stay: alike, and with a reply to every move.
    fn can_stay(&self, pair: (u16, u16)) -> bool {
        self.readings_alike(pair)
            && (0..self.old.controller_moves(pair.0)).all(|controller| self.has_reply(
                pair, controller,
            ))
    }

    /// Takes out of the set every pair that cannot stay; tells whether there was one.
    fn shrink(&mut self) -> bool {
        let mut shrunk = false;
        for old_state in 0..self.old.states() {
            for new_state in 0..self.new.states() {
                let pair = (old_state, new_state);
                if self.pairs.contains(pair) && !self.can_stay(pair) {
                    self.pairs.remove(pair);
                    shrunk = true;
                }
            }
        }
        shrunk
    }
}

/// The pairs of the largest simulation.
pub(crate) fn solve<S: System, T: System, L: Likeness>(
    heap: Global,
    old: &S,
    new: &T,
    likeness: &L,
) -> Result<PairSet, AllocError> {
    let pairs = PairSet::every(heap, old.states(), new.states())?;
    let most_turns = pairs.len();
    let mut search = Search {
        old,
        new,
        likeness,
        pairs,
    };
    // each turn but the last takes out a pair
    for _ in 0..most_turns {
        if !search.shrink() {
            break;
        }
    }
    Ok(search.pairs)
}
