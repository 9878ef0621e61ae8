//! An arena with a table laid over its pairs, to be written.
ghost use Rattle.std.specs.Prelude.{◌≡◌};
ghost use Rattle.arena.specs.Held.{holding};
ghost use Rattle.arena.specs.Written.{cleared, with_entry, with_standing, with_struck};

use crate::arena::Arena;
use crate::board::Board;
use crate::entry::{STANDING, struck_entry};
use crate::table::{clear_first, number_of_pairs, place_of};

/// An arena, and a table of its pairs that may be written.
///
/// What lies behind the entries of the pairs is never touched, if the pairs that are named are in range.
#[derive(Drop)]
pub struct BoardMut<'a, A> {
    pub arena: &'a A,
    pub table: &'a mut [u32],
}

impl<A: Arena> BoardMut<'_, A> {
    /// The board as it is now, to be read.
    pub fn board(&self) -> Board<'_, A>
        ensures arena { result.arena ≡ self.now.arena }
        ensures table { result.table.now ≡ self.now.table.now }
    {
        Board {
            arena: self.arena,
            table: self.table,
        }
    }

    /// Makes every pair stand, as far as the table reaches.
    pub fn clear(&mut self)
        ensures arena { self.new.arena ≡ self.old.arena }
        ensures table { self.new.table
            ≡ holding self.old.table
            (cleared (A.Arena.view self.old.arena.now) self.old.table.now) }
    {
        let entries = number_of_pairs(self.arena).min(self.table.len());
        clear_first(self.table, entries);
    }

    /// Strikes the pair as the number, from 1 on; struck as 0 it stands. A pair whose place is past the end of the table is left as it is.
    pub fn strike(&mut self, pair: (u16, u16), number: u32)
        ensures arena { self.new.arena ≡ self.old.arena }
        ensures table { self.new.table
            ≡ holding self.old.table
            (with_struck (A.Arena.view self.old.arena.now) self.old.table.now
            pair.0 pair.1 number) }
    {
        self.write(pair, struck_entry(number));
    }

    /// Makes the pair stand.
    pub fn stand(&mut self, pair: (u16, u16))
        ensures arena { self.new.arena ≡ self.old.arena }
        ensures table { self.new.table
            ≡ holding self.old.table
            (with_standing (A.Arena.view self.old.arena.now) self.old.table.now pair.0 pair.1) }
    {
        self.write(pair, STANDING);
    }

    /// Writes the pair's entry, where the table has one.
    fn write(&mut self, pair: (u16, u16), entry: u32)
        ensures arena { self.new.arena ≡ self.old.arena }
        ensures table { self.new.table
            ≡ holding self.old.table
            (with_entry (A.Arena.view self.old.arena.now) self.old.table.now pair.0 pair.1 entry) }
    {
        let place = place_of(self.arena.new_states(), pair);
        if place < self.table.len() {
            self.table[place] = entry;
        }
    }
}
