//! The test of a whole system file, number by number, before a word is written.
ghost use Rattle.std.specs.Prelude.{◌≡◌, OnOk};
ghost use Rattle.files.specs.Answer.{Unless};
ghost use Rattle.codec.specs.Sequence.{value_at, after, skip};
ghost use Rattle.files.specs.SystemFile.{unread, refused, next_allowed, readings_fault, next_fault, row_fault, row_end, row_start, rows_fault, file_fault, file_parts, too_short};

use crate::fault::{ReadFault, Reason};
use codec::Reader;
use systems::{MAX_CHANNELS, MAX_MOVES, MAX_STATES, words_taken};

/// What a number may be, and why another is refused.
#[derive(Clone, Copy)]
pub(crate) struct Allowed {
    least: u16,
    most: u16,
    otherwise: Reason,
}

/// How many states and channels a system has.
#[derive(Clone, Copy)]
pub(crate) struct Sizes {
    pub(crate) states: u16,
    pub(crate) channels: u16,
}

/// How many states a stored system may have.
const STATES_ALLOWED: Allowed = Allowed {
    least: 1,
    most: MAX_STATES,
    otherwise: Reason::States,
};

/// How many channels a stored system may have.
const CHANNELS_ALLOWED: Allowed = Allowed {
    least: 1,
    most: MAX_CHANNELS,
    otherwise: Reason::Channels,
};

/// How many moves each side may have at a state of a stored system.
const MOVES_ALLOWED: Allowed = Allowed {
    least: 1,
    most: MAX_MOVES,
    otherwise: Reason::Moves,
};

// Reader and state are two parameters: a struct of both would be made anew for each row.
/// Reads the next number, in the row of the state.
#[tactic(auto, unfolding(codec::specs::Sequence::value_at))]
fn number(reader: &mut Reader, state: u16) -> Result<u16, ReadFault>
    ensures answer { Unless (unread reader.old.bytes reader.old.place state) (value_at reader.old.bytes reader.old.place) result }
    ensures place { reader.new ≡ record reader.old { place = after reader.old.bytes reader.old.place } }
{
    let place = reader.place();
    reader.number().map_err(|why| ReadFault {
        reason: Reason::Number(why),
        place,
        state,
    })
}

/// Reads the next number, where it is allowed.
fn allowed_number(reader: &mut Reader, state: u16, allowed: Allowed) -> Result<u16, ReadFault>
    ensures answer { Unless (refused reader.old.bytes reader.old.place state allowed) (value_at reader.old.bytes reader.old.place) result }
    ensures place { reader.new ≡ record reader.old { place = after reader.old.bytes reader.old.place } }
{
    let place = reader.place();
    let value = number(reader, state)?;
    if !(allowed.least..=allowed.most).contains(&value) {
        return Err(ReadFault {
            reason: allowed.otherwise,
            place,
            state,
        });
    }
    Ok(value)
}

/// Reads the readings at a state.
fn check_readings(reader: &mut Reader, state: u16, count: u16) -> Result<(), ReadFault>
    ensures answer { Unless (readings_fault reader.old.bytes state reader.old.place count) tt result }
    ensures place { OnOk result (reader.new ≡ record reader.old { place = skip reader.old.bytes count reader.old.place }) }
{
    for _channel in 0..count {
        number(reader, state)?;
    }
    Ok(())
}

/// What a next state may be, where there are so many states.
fn next_allowed(states: u16) -> Allowed
    ensures { result ≡ next_allowed states }
{
    Allowed {
        least: 0,
        most: states.saturating_sub(1),
        otherwise: Reason::NextState,
    }
}

/// Reads the next states at a state.
// Not one function with `check_readings`: any number may stand for a reading, so that there is no reason to refuse one by.
fn check_next_states(
    reader: &mut Reader,
    state: u16,
    states: u16,
    count: usize,
) -> Result<(), ReadFault>
    ensures answer { Unless (next_fault reader.old.bytes states state reader.old.place count) tt result }
    ensures place { OnOk result (reader.new ≡ record reader.old { place = skip reader.old.bytes count reader.old.place }) }
{
    let allowed = next_allowed(states);
    for _pair in 0..count {
        allowed_number(reader, state, allowed)?;
    }
    Ok(())
}

/// Reads the row of a state.
fn check_row(reader: &mut Reader, state: u16, sizes: Sizes) -> Result<(), ReadFault>
    ensures answer { Unless (row_fault reader.old.bytes sizes.states sizes.channels state reader.old.place) tt result }
    ensures place { OnOk result (reader.new ≡ record reader.old { place = row_end reader.old.bytes sizes.channels reader.old.place }) }
{
    check_readings(reader, state, sizes.channels)?;
    let controller = allowed_number(reader, state, MOVES_ALLOWED)?;
    let environment = allowed_number(reader, state, MOVES_ALLOWED)?;
    check_next_states(
        reader,
        state,
        sizes.states,
        usize::from(controller) * usize::from(environment),
    )
}

/// Reads the rows of all states.
fn check_rows(reader: &mut Reader, sizes: Sizes) -> Result<(), ReadFault>
    ensures answer { Unless (rows_fault reader.old.bytes sizes.states sizes.channels reader.old.place) tt result }
    ensures place { OnOk result (reader.new ≡ record reader.old { place = row_start reader.old.bytes sizes.channels reader.old.place sizes.states }) }
{
    for state in 0..sizes.states {
        check_row(reader, state, sizes)?;
    }
    Ok(())
}

/// The parts of a file that has no fault.
#[derive(Clone, Copy)]
pub(crate) struct TestedFile {
    pub(crate) sizes: Sizes,
    /// Where its number of channels begins.
    pub(crate) channels: usize,
    /// How many words its system takes.
    pub(crate) words: usize,
    /// Where its rows begin.
    pub(crate) start: usize,
    /// The place behind it.
    pub(crate) end: usize,
}

/// The fault of a file whose system takes more words than there are, told at its number of channels.
pub(crate) fn too_short(channels: usize) -> ReadFault
    ensures { result ≡ too_short channels }
{
    ReadFault {
        reason: Reason::TooShort,
        place: channels,
        state: 0,
    }
}

/// The parts of the file that begins at the place, where there are `room` words for its system.
pub(crate) fn check_file(bytes: &[u8], place: usize, room: usize) -> Result<TestedFile, ReadFault>
    ensures { Unless (file_fault bytes.now place room) (file_parts bytes.now place) result }
{
    let mut reader = Reader::new(bytes, place);
    let states = allowed_number(&mut reader, 0, STATES_ALLOWED)?;
    let behind_states = reader.place();
    let channels = allowed_number(&mut reader, 0, CHANNELS_ALLOWED)?;
    let words = words_taken(states, channels);
    if room < words {
        return Err(too_short(behind_states));
    }
    let start = reader.place();
    let sizes = Sizes { states, channels };
    check_rows(&mut reader, sizes)?;
    Ok(TestedFile {
        sizes,
        channels: behind_states,
        words,
        start,
        end: reader.place(),
    })
}
