//! Reading an input: a tolerance, two system files, and a list of strikes to its end.
ghost use Rattle.std.specs.Prelude.{◌≡◌, replicate};
ghost use Rattle.std.specs.Result.{result_err};
ghost use Rattle.likeness.specs.Within.{tolerance_channels};
ghost use Rattle.report.specs.Answer.{UnlessFault};
ghost use Rattle.report.specs.Input.{IsFile, IsRead, input_fault, length_fault, old_place, system_fault, system_room, tolerance, tolerance_fault};

use crate::fault::{InputFault, InputReason};
use crate::list::test_list;
use codec::Reader;
use files::SystemFile;
use likeness::Within;
use systems::{MAX_CHANNELS, words_taken};

/// How many bytes an input may have.
pub const MOST_BYTES: usize = 32_768;

/// How many states of the most channels there is room for in each system.
pub const ROOM_STATES: u16 = 64;

/// How many words there are for each system: enough for so many states.
pub fn system_room() -> usize
    ensures { result ≡ system_room }
{
    let room = words_taken(ROOM_STATES, MAX_CHANNELS);
    // what this comes to
    prove!(room == 17_026);
    room
}

/// An input of which no part is refused.
#[derive(Clone, Copy)]
pub struct Input<'a> {
    /// All bytes of it.
    pub bytes: &'a [u8],
    /// The tolerance, the same on all channels.
    pub likeness: Within,
    /// The file of the old system.
    pub old: SystemFile<'a>,
    /// The file of the new system.
    pub new: SystemFile<'a>,
    /// Where the list begins.
    pub list_place: usize,
}

/// Checks that the input is not too long.
fn check_length(input: &[u8]) -> Result<(), InputFault>
    ensures { result_err result ≡ length_fault input.now }
{
    if input.len() > MOST_BYTES {
        return Err(InputFault {
            reason: InputReason::TooLong,
            place: MOST_BYTES,
        });
    }
    Ok(())
}

/// Reads the tolerance for all channels, which comes first; the answer has the place behind it.
#[tactic(auto, unfolding(codec::specs::Sequence::value_at, codec::specs::Sequence::after))]
fn read_tolerance(input: &[u8]) -> Result<(Within, usize), InputFault>
    ensures { UnlessFault (tolerance_fault input.now) (λ read.
        (read.0.tolerances ≡ replicate tolerance_channels (tolerance input.now))
        × (read.1 ≡ old_place input.now)) result }
{
    let place = 0;
    let mut reader = Reader::new(input, place);
    match reader.number() {
        Err(why) => Err(InputFault {
            reason: InputReason::Tolerance(why),
            place,
        }),
        Ok(tolerance) => match Within::uniform(tolerance) {
            Err(_) => Err(InputFault {
                reason: InputReason::TooWide,
                place,
            }),
            Ok(likeness) => Ok((likeness, reader.place())),
        },
    }
}

/// Tests the system file at the place.
fn test_file(input: &[u8], place: usize) -> Result<SystemFile<'_>, InputFault>
    ensures { UnlessFault (system_fault input.now place) (IsFile input.now place) result }
{
    let file = SystemFile::test(input, place, system_room())?;
    Ok(file)
}

/// Reads a whole input, item by item, or finds the first of its faults.
pub fn read_input(input: &[u8]) -> Result<Input<'_>, InputFault>
    ensures { UnlessFault (input_fault input.now) (IsRead input.now) result }
{
    check_length(input)?;
    let (likeness, old_place) = read_tolerance(input)?;
    let old = test_file(input, old_place)?;
    let new = test_file(input, old.end())?;
    let list_place = new.end();
    test_list(input, list_place)?;
    Ok(Input {
        bytes: input,
        likeness,
        old,
        new,
        list_place,
    })
}
