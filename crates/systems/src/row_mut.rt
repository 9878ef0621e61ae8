//! Writing the row of a state.
ghost use Rattle.std.specs.Prelude.{◌≡◌, length, replicate, slice_set};
ghost use Rattle.systems.specs.Words.{rewritten, with_moves, with_next, with_reading};

use crate::layout::MAX_MOVES;
use crate::offsets::{controller_at, environment_at, next_at, reading_at};
use crate::reading::word_of_reading;

/// The row of a state, to be written: the part of a stored system's words that [`crate::row_range`] tells.
///
/// What is to be written to a place that the words do not reach, or that the row has not, is not written.
#[derive(Drop)]
pub struct RowMut<'a> {
    words: &'a mut [u16],
    channels: u16,
}

/// Writes the word at the place, where there is one.
pub(crate) fn set_word(words: &mut [u16], place: usize, word: u16)
    ensures { words.new ≡ slice_set words.old place word }
{
    // a test and an index: after a write through what `get_mut` gives, a proof knows no word any more
    if place < words.len() {
        words[place] = word;
    }
}

impl<'a> RowMut<'a> {
    /// A row in which every word is 0.
    pub fn new(words: &'a mut [u16], channels: u16) -> RowMut<'a>
        ensures same_words { result.words.ghost_name ≡ words.entry.ghost_name }
        ensures words { result.words.now ≡ replicate (length words.old) 0 }
        ensures channels { result.channels ≡ channels }
    {
        let row = RowMut { words, channels };
        row.words.fill(0);
        row
    }

    /// The row that lies in the words.
    pub fn of(words: &'a mut [u16], channels: u16) -> RowMut<'a>
        ensures same_words { result.words.ghost_name ≡ words.entry.ghost_name }
        ensures words { result.words.now ≡ words.old }
        ensures channels { result.channels ≡ channels }
    {
        RowMut { words, channels }
    }

    /// Writes what the channel shows.
    pub fn set_reading(&mut self, channel: u16, reading: i16)
        ensures { self.new ≡ rewritten self.old
            (with_reading self.old.channels self.old.words.now channel reading) }
    {
        if channel < self.channels {
            set_word(self.words, reading_at(channel), word_of_reading(reading));
        }
    }

    /// Writes how many moves the controller has, and the environment.
    pub fn set_moves(&mut self, controller: u16, environment: u16)
        ensures { self.new ≡ rewritten self.old
            (with_moves self.old.channels self.old.words.now controller environment) }
    {
        set_word(self.words, controller_at(self.channels), controller);
        set_word(self.words, environment_at(self.channels), environment);
    }

    /// Writes where a controller move and an environment move, each 0 to 15, lead.
    pub fn set_next(&mut self, controller: u16, environment: u16, next: u16)
        ensures { self.new ≡ rewritten self.old
            (with_next self.old.channels self.old.words.now controller environment next) }
    {
        if controller < MAX_MOVES && environment < MAX_MOVES {
            set_word(
                self.words,
                next_at(self.channels, controller, environment),
                next,
            );
        }
    }
}
