//! The layout of a stored system in 16-bit words, and its check.
ghost use Rattle.std.specs.Prelude.{◌≡◌, is_ok, Decides};
ghost use Rattle.systems.specs.Layout.{layout, layout_refusal, LaidOut, row_place, row_range, words_taken};
ghost use Rattle.systems.specs.Words.{with_header};

use crate::offsets::row_words;
use crate::row::Row;
use crate::row_mut::set_word;
use std::ops::Range;

/// The most states that a stored system has.
pub const MAX_STATES: u16 = 256;

/// The most channels that a stored system has.
pub const MAX_CHANNELS: u16 = 8;

/// The most moves that each side has at a state of a stored system.
pub const MAX_MOVES: u16 = 16;

/// The most pairs of moves at a state of a stored system.
// A cast, since no `From` goes into a constant.
pub const MAX_MOVE_PAIRS: usize = MAX_MOVES as usize * MAX_MOVES as usize;

/// Where the number of states stands.
pub(crate) const STATES_AT: usize = 0;

/// Where the number of channels stands.
pub(crate) const CHANNELS_AT: usize = 1;

/// The words in front of the rows: these two.
pub(crate) const HEADER_WORDS: usize = 2;

/// What is wrong with a layout, and the number of that refusal.
#[derive(Clone, Copy, Debug, PartialEq, Eq)]
pub enum LayoutFault {
    /// The number of states is not 1 to 256.
    States = 18,
    /// The number of channels is not 1 to 8.
    Channels = 19,
    /// There are too few words.
    TooShort = 20,
    /// A state has a number of moves that is not 1 to 16.
    Moves = 21,
    /// A next state that is used is not a state.
    NextState = 22,
}

impl LayoutFault {
    /// The number of the refusal.
    pub fn number(self) -> u8
        ensures { result ≡ layout_refusal self }
    {
        // a cast, which gives the numbers above
        self as u8
    }
}

/// Where the row of a state begins.
pub fn row_place(channels: u16, state: u16) -> usize
    ensures { result ≡ row_place channels state }
{
    HEADER_WORDS + usize::from(state) * row_words(channels)
}

/// From where the row of a state begins to where it ends, for so many channels.
pub fn row_range(channels: u16, state: u16) -> Range<usize>
    ensures { result ≡ row_range channels state }
{
    let start = row_place(channels, state);
    start..start + row_words(channels)
}

/// How many words a system of so many states and channels takes.
pub fn words_taken(states: u16, channels: u16) -> usize
    ensures { result ≡ words_taken states channels }
{
    // as many as lie in front of the row of a state behind the last one
    row_place(channels, states)
}

/// Writes the numbers of states and of channels in front; what the words do not reach is not written.
pub fn write_header(words: &mut [u16], states: u16, channels: u16)
    ensures { words.new ≡ with_header words.old states channels }
{
    set_word(words, STATES_AT, states);
    set_word(words, CHANNELS_AT, channels);
}

/// How many words the layout at the front of `words` takes, or what is wrong with it.
pub fn check_layout(words: &[u16]) -> Result<usize, LayoutFault>
    ensures answer { result ≡ layout words.now }
    ensures decides { Decides (is_ok result) (LaidOut words.now) }
{
    let [states, channels, ..] = words else {
        return Err(LayoutFault::TooShort);
    };
    if !(1..=MAX_STATES).contains(states) {
        return Err(LayoutFault::States);
    }
    if !(1..=MAX_CHANNELS).contains(channels) {
        return Err(LayoutFault::Channels);
    }
    let taken = words_taken(*states, *channels);
    if words.len() < taken {
        return Err(LayoutFault::TooShort);
    }
    for state in 0..*states {
        Row { words, state }.check()?;
    }
    Ok(taken)
}
