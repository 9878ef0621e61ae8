//! A system that lies in words held for reading.
ghost use Rattle.std.specs.Prelude.{◌≡◌, ◌<◌, ◌≤◌, Ok, Err, MatchOption, MatchResult, IfOk, IfSome};
ghost use Rattle.systems.specs.Layout.{LaidOut, layout, state_count, stored, stored_words, words_taken, channel_count};
ghost use Rattle.systems.specs.Laws.{stored_lawful};

use crate::layout::{CHANNELS_AT, HEADER_WORDS, LayoutFault, STATES_AT, check_layout};
use crate::offsets::{COUNT_WORDS, NEXT_WORDS};
use crate::reading::{ZERO_WORD, reading_of_word};
use crate::row::Row;
use crate::system::System;

/// How many words the resting system takes.
const RESTING_WORDS: usize = HEADER_WORDS + RESTING_CHANNELS + COUNT_WORDS + NEXT_WORDS;

/// How many channels it has.
const RESTING_CHANNELS: usize = 1;

/// The resting system: its only state shows 0 on its only channel, and the one move of either side leads back to it.
// Written out, since the value of a constant calls nothing.
#[rattlefmt::skip]
static RESTING: [u16; RESTING_WORDS] = [
    1, 1, ZERO_WORD, 1, 1,
    0, 0, 0, 0, 0, 0, 0, 0, 0, 0, 0, 0, 0, 0, 0, 0,
    0, 0, 0, 0, 0, 0, 0, 0, 0, 0, 0, 0, 0, 0, 0, 0,
    0, 0, 0, 0, 0, 0, 0, 0, 0, 0, 0, 0, 0, 0, 0, 0,
    0, 0, 0, 0, 0, 0, 0, 0, 0, 0, 0, 0, 0, 0, 0, 0,
    0, 0, 0, 0, 0, 0, 0, 0, 0, 0, 0, 0, 0, 0, 0, 0,
    0, 0, 0, 0, 0, 0, 0, 0, 0, 0, 0, 0, 0, 0, 0, 0,
    0, 0, 0, 0, 0, 0, 0, 0, 0, 0, 0, 0, 0, 0, 0, 0,
    0, 0, 0, 0, 0, 0, 0, 0, 0, 0, 0, 0, 0, 0, 0, 0,
    0, 0, 0, 0, 0, 0, 0, 0, 0, 0, 0, 0, 0, 0, 0, 0,
    0, 0, 0, 0, 0, 0, 0, 0, 0, 0, 0, 0, 0, 0, 0, 0,
    0, 0, 0, 0, 0, 0, 0, 0, 0, 0, 0, 0, 0, 0, 0, 0,
    0, 0, 0, 0, 0, 0, 0, 0, 0, 0, 0, 0, 0, 0, 0, 0,
    0, 0, 0, 0, 0, 0, 0, 0, 0, 0, 0, 0, 0, 0, 0, 0,
    0, 0, 0, 0, 0, 0, 0, 0, 0, 0, 0, 0, 0, 0, 0, 0,
    0, 0, 0, 0, 0, 0, 0, 0, 0, 0, 0, 0, 0, 0, 0, 0,
    0, 0, 0, 0, 0, 0, 0, 0, 0, 0, 0, 0, 0, 0, 0, 0,
];

/// A stored system. Every one that exists has the layout.
// The words are public, so that whoever has laid them out makes the system of them, and nobody checks them again.
#[derive(Clone, Copy)]
pub struct Stored<'a> {
    pub words: &'a [u16],
    ghost ok: { LaidOut words.now },
}

/// The words, or those of the resting system where these have not the layout.
fn words_or_resting(words: &[u16]) -> &[u16]
    ensures { result.now ≡ stored_words words.now }
{
    if check_layout(words).is_ok() {
        words
    } else {
        &RESTING
    }
}

impl<'a> Stored<'a> {
    /// The system that the words hold, or what is wrong with their layout.
    pub fn test(words: &'a [u16]) -> Result<Stored<'a>, LayoutFault>
        ensures answer { MatchResult result
            (λ _. layout words.now
            ≡ Ok (words_taken (state_count words.now) (channel_count words.now)))
            (λ fault. layout words.now ≡ Err fault) }
        ensures words { IfOk result (λ stored. stored.words.now ≡ words.now) }
    {
        check_layout(words)?;
        Ok(Stored { words })
    }

    /// The system that the words hold, or the resting system where they have not the layout.
    pub fn new(words: &'a [u16]) -> Stored<'a>
        ensures { result.words.now ≡ stored_words words.now }
    {
        Stored {
            words: words_or_resting(words),
        }
    }

    /// The row of a state, if there is such a state.
    fn row(&self, state: u16) -> Option<Row<'a>>
        ensures range { MatchOption result (state_count self.now.words.now ≤ state) (λ _. state < state_count self.now.words.now) }
        ensures words { IfSome result (λ row. row.words.now ≡ self.now.words.now) }
        ensures state { IfSome result (λ row. row.state ≡ state) }
    {
        // an `if` and no `then`: the invariant of the row rests on the test
        if state < self.states() {
            Some(Row {
                words: self.words,
                state,
            })
        } else {
            None
        }
    }
}

impl<'a> System for Stored<'a> {
    ghost meaning = { λ s. stored s.words.now };

    ghost lawful = { λ s. stored_lawful s.words.now s.ok };

    fn states(&self) -> u16 {
        self.words[STATES_AT]
    }

    fn channels(&self) -> u8 {
        // a cast of what is at most 8: a `TryFrom` would bring an error that never comes
        self.words[CHANNELS_AT] as u8
    }

    fn reading(&self, state: u16, channel: u8) -> i16 {
        match self.row(state) {
            Some(row) if channel < self.channels() => reading_of_word(row.reading(channel)),
            _ => 0,
        }
    }

    fn controller_moves(&self, state: u16) -> u16 {
        self.row(state).map_or(0, |row| row.controller_moves())
    }

    fn environment_moves(&self, state: u16) -> u16 {
        self.row(state).map_or(0, |row| row.environment_moves())
    }

    fn next(&self, state: u16, controller: u16, environment: u16) -> u16 {
        match self.row(state) {
            Some(row)
                if controller < row.controller_moves() && environment < row.environment_moves() => {
                row.next(controller, environment)
            }
            _ => 0,
        }
    }
}
