//! An arena with a table laid over its pairs, to be read.
ghost use Rattle.std.specs.Prelude.{◌≡◌, take};
ghost use Rattle.arena.specs.Table.{entry, highest, number_of, number_standing, pairs, start_stands, stands};

use crate::arena::Arena;
use crate::entry::{number_in, says_standing};
use crate::table::{entry_at, number_of_pairs, place_of};

/// An arena, and a table of its pairs: which are struck, as which numbers, and which stand.
///
/// A pair whose place is past the end of the table stands.
#[derive_where(Clone, Copy)]
pub struct Board<'a, A> {
    pub arena: &'a A,
    pub table: &'a [u32],
}

/// The pair of the start states.
const START: (u16, u16) = (0, 0);

impl<A: Arena> Board<'_, A> {
    /// The entry of the pair.
    pub(crate) fn entry(&self, pair: (u16, u16)) -> u32
        ensures { result ≡ entry (A.Arena.view self.now.arena.now) self.now.table.now pair.0 pair.1 }
    {
        entry_at(self.table, place_of(self.arena.new_states(), pair))
    }

    /// Whether the pair stands.
    pub fn stands(&self, pair: (u16, u16)) -> bool
        ensures { result
            ≡ stands (A.Arena.view self.now.arena.now) self.now.table.now pair.0 pair.1 }
    {
        says_standing(self.entry(pair))
    }

    /// The number as which the pair was struck, 0 where it stands.
    pub fn number(&self, pair: (u16, u16)) -> u32
        ensures { result
            ≡ number_of (A.Arena.view self.now.arena.now) self.now.table.now pair.0 pair.1 }
    {
        number_in(self.entry(pair))
    }

    /// Whether the pair of the start states stands.
    pub fn start_stands(&self) -> bool
        ensures { result ≡ start_stands (A.Arena.view self.now.arena.now) self.now.table.now }
    {
        let (old_state, new_state) = START;
        old_state < self.arena.old_states()
            && new_state < self.arena.new_states()
            && self.stands(START)
    }

    /// The entries of the pairs, as far as the table reaches.
    fn entries_of_pairs(&self) -> &[u32]
        ensures { result.now ≡ take (pairs (A.Arena.view self.now.arena.now)) self.now.table.now }
    {
        &self.table[..number_of_pairs(self.arena).min(self.table.len())]
    }

    /// How many pairs stand.
    pub fn number_standing(&self) -> u32
        ensures { result ≡ number_standing (A.Arena.view self.now.arena.now) self.now.table.now }
    {
        let entries = self.entries_of_pairs();
        let past = number_of_pairs(self.arena) - entries.len();
        let mut standing = 0;
        for entry in entries {
            if says_standing(*entry) {
                standing += 1;
            }
        }
        // a pair past the end of the table stands; a cast, since there are fewer than 2 ^ 32 pairs
        standing + past as u32
    }

    /// The highest number as which a pair was struck, 0 where every pair stands.
    #[tactic(auto, using(crate::proofs::Entries::highest_in))]
    pub fn highest(&self) -> u32
        ensures { result ≡ highest (A.Arena.view self.now.arena.now) self.now.table.now }
    {
        let mut highest = 0;
        for entry in self.entries_of_pairs() {
            highest = number_in(*entry).max(highest);
        }
        highest
    }
}
