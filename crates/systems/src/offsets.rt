//! The order of the words in a row: the readings, the two numbers of moves, and a next state for each pair of moves.
ghost use Rattle.std.specs.Prelude.{◌≡◌};
ghost use Rattle.systems.specs.Layout.{controller_offset, environment_offset, next_offset, reading_offset, row_words};

use crate::layout::{MAX_MOVE_PAIRS, MAX_MOVES};

/// The words of a row behind its readings: the numbers of moves, the controller's first.
pub(crate) const COUNT_WORDS: usize = 2;

/// How many words the next states of one controller move take.
// A cast, since no `From` goes into a constant.
const MOVE_STRIDE: usize = MAX_MOVES as usize;

/// The words of a row behind the numbers of moves: a next state for each pair of moves.
pub(crate) const NEXT_WORDS: usize = MAX_MOVE_PAIRS;

/// How many words the row of a state takes.
pub fn row_words(channels: u16) -> usize
    ensures { result ≡ row_words channels }
{
    usize::from(channels) + COUNT_WORDS + NEXT_WORDS
}

/// Where the reading of a channel stands in a row.
pub(crate) fn reading_at(channel: u16) -> usize
    ensures { result ≡ reading_offset channel }
{
    usize::from(channel)
}

/// Where the number of the controller's moves stands: behind the readings.
pub(crate) fn controller_at(channels: u16) -> usize
    ensures { result ≡ controller_offset channels }
{
    usize::from(channels)
}

/// Where the number of the environment's moves stands.
pub(crate) fn environment_at(channels: u16) -> usize
    ensures { result ≡ environment_offset channels }
{
    controller_at(channels) + 1
}

/// Where the next state of a pair of moves stands, the environment's move fastest.
pub(crate) fn next_at(channels: u16, controller: u16, environment: u16) -> usize
    ensures { result ≡ next_offset channels controller environment }
{
    let pair = usize::from(controller) * MOVE_STRIDE + usize::from(environment);
    controller_at(channels) + COUNT_WORDS + pair
}
