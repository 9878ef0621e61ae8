//! The row of a state in the words of a stored system.
ghost use Rattle.std.specs.Prelude.{◌≡◌, ℕ, ◌<◌, ◌≤◌, All, Some, None, Decides, MatchResult, length, slice_index};
ghost use Rattle.systems.specs.Bounded.{between};
ghost use Rattle.systems.specs.Limits.{max_moves};
ghost use Rattle.systems.specs.Layout.{RowHeld, channel_count, controller_word, environment_word, move_fits, next_states_fit, next_word, reading_word, row_fault, row_word, row_words};

use crate::layout::{CHANNELS_AT, LayoutFault, MAX_MOVES, STATES_AT, row_place};
use crate::offsets::{controller_at, environment_at, next_at, reading_at};

/// The row of a state, and the words that hold it.
#[derive(Clone, Copy)]
pub(crate) struct Row<'a> {
    pub(crate) words: &'a [u16],
    pub(crate) state: u16,
    ghost held: { RowHeld words.now state },
}

/// Whether a side can have so many moves.
fn is_move_count(count: u16) -> bool
    ensures { result ≡ between 1 max_moves count }
{
    (1..=MAX_MOVES).contains(&count)
}

/// Whether every number is below the bound.
fn are_below(numbers: &[u16], bound: u16) -> bool
    ensures { Decides result (All (λ number. number < bound) numbers.now) }
{
    for number in numbers {
        if *number >= bound {
            return false;
        }
    }
    true
}

impl Row<'_> {
    /// The word at an offset in the row.
    fn word(&self, offset: usize) -> u16
        requires { offset < row_words (channel_count self.now.words.now) }
        ensures { result ≡ row_word self.now.words.now self.now.state offset }
    {
        self.words[row_place(self.channels(), self.state) + offset]
    }

    /// How many channels there are.
    fn channels(&self) -> u16
        ensures { result ≡ channel_count self.now.words.now }
    {
        self.words[CHANNELS_AT]
    }

    /// The word of a reading.
    pub(crate) fn reading(&self, channel: u8) -> u16
        requires { channel < channel_count self.now.words.now }
        ensures { result ≡ reading_word self.now.words.now self.now.state channel }
    {
        self.word(reading_at(u16::from(channel)))
    }

    /// How many moves the controller has.
    pub(crate) fn controller_moves(&self) -> u16
        ensures { result ≡ controller_word self.now.words.now self.now.state }
    {
        self.word(controller_at(self.channels()))
    }

    /// How many moves the environment has.
    pub(crate) fn environment_moves(&self) -> u16
        ensures { result ≡ environment_word self.now.words.now self.now.state }
    {
        self.word(environment_at(self.channels()))
    }

    /// The next state of a pair of moves.
    // That moves are below 16 is asked of each call: they are plain numbers, as in `System`.
    pub(crate) fn next(&self, controller: u16, environment: u16) -> u16
        requires controller { controller < max_moves }
        requires environment { environment < max_moves }
        ensures { result ≡ next_word self.now.words.now self.now.state controller environment }
    {
        self.word(next_at(self.channels(), controller, environment))
    }

    /// The next states that are used with the controller's move.
    fn next_states(&self, controller: u16) -> &[u16]
        requires controller { controller < max_moves }
        requires environment { environment_word self.now.words.now self.now.state ≤ max_moves }
        ensures long { length result.now ≡ environment_word self.now.words.now self.now.state }
        ensures states { (b : ℕ) → b < environment_word self.now.words.now self.now.state
            → slice_index result.now b ≡ next_word self.now.words.now self.now.state controller b }
    {
        let start = row_place(self.channels(), self.state)
            + next_at(self.channels(), controller, 0);
        &self.words[start..start + usize::from(self.environment_moves())]
    }

    /// Whether every next state that is used with the controller's move is a state.
    fn move_fits(&self, controller: u16) -> bool
        requires controller { controller < max_moves }
        requires environment { environment_word self.now.words.now self.now.state ≤ max_moves }
        ensures { result ≡ move_fits self.now.words.now self.now.state controller }
    {
        are_below(self.next_states(controller), self.words[STATES_AT])
    }

    /// Whether every next state that is used is a state.
    fn next_states_fit(&self) -> bool
        requires controller { controller_word self.now.words.now self.now.state ≤ max_moves }
        requires environment { environment_word self.now.words.now self.now.state ≤ max_moves }
        ensures { result ≡ next_states_fit self.now.words.now self.now.state }
    {
        (0..self.controller_moves()).all(|controller| self.move_fits(controller))
    }

    /// Checks the row: its numbers of moves, and then the next states that are used.
    pub(crate) fn check(&self) -> Result<(), LayoutFault>
        ensures { MatchResult result (λ _. row_fault self.now.words.now self.now.state ≡ None) (λ fault. row_fault self.now.words.now self.now.state ≡ Some fault) }
    {
        if !is_move_count(self.controller_moves()) || !is_move_count(self.environment_moves()) {
            return Err(LayoutFault::Moves);
        }
        if !self.next_states_fit() {
            return Err(LayoutFault::NextState);
        }
        Ok(())
    }
}
