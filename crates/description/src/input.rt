//! What an input of an exchange holds, as text for a person.
ghost use Rattle.std.specs.Prelude.{◌≡◌, Err, None, Some, string_bytes};
ghost use Rattle.report.specs.Input.{input_fault};
ghost use Rattle.description.specs.Input.{DescribesInput, byte_text, input_text, is_plain, parts_text, readable, record_line, records_text};
ghost use Rattle.description.specs.declared.input.DescribeInputError.TheVariants.{Refused, NoMemory};

use crate::text::Whole;
use crate::words::laid_out;
use files::{Record, read_record};
use report::{InputFault, read_input, system_room};
use std::alloc::{AllocError, Global};
use std::fmt;
use systems::{Stored, System};

/// A channel. The tolerance of an input is the same on each.
const SOME_CHANNEL: u8 = 0;

/// Why there is no description of an input.
#[derive(Clone, Copy, Debug, PartialEq, Eq, Drop)]
pub enum DescribeInputError {
    /// The input is refused.
    Refused(InputFault),
    /// There was no memory for the words of the systems or the text.
    NoMemory,
}

impl From<AllocError> for DescribeInputError {
    ghost from_gives = { λ _ r. r ≡ NoMemory };

    fn from(_: AllocError) -> DescribeInputError {
        DescribeInputError::NoMemory
    }
}

impl From<InputFault> for DescribeInputError {
    ghost from_gives = { λ fault r. r ≡ Refused fault };

    fn from(fault: InputFault) -> DescribeInputError {
        DescribeInputError::Refused(fault)
    }
}

/// Whether a byte of a text is printed as it is: a printable ASCII character other than `\`, which begins a byte in hexadecimal.
fn is_plain(byte: u8) -> bool
    ensures { result ≡ is_plain byte }
{
    matches!(byte, b' '..=b'~') && byte != b'\\'
}

/// A byte of a text.
#[derive(Clone, Copy)]
struct Byte(u8);

impl fmt::Display for Byte {
    ghost output = { λ x. Some (byte_text x.0) };

    #[tactic(auto, using(std::proofs::lemmas::Fmt::hex_byte))]
    fn fmt<W: fmt::Write>(&self, f: &mut fmt::Formatter<W>) -> fmt::Result {
        let byte = self.0;
        if is_plain(byte) {
            f.write_char(char::from(byte))
        } else {
            write!(f, "\\x{byte:02x}")
        }
    }
}

/// The bytes of a text.
#[derive(Clone, Copy)]
struct Readable<'a>(&'a [u8]);

impl fmt::Display for Readable<'_> {
    ghost output = { λ x. Some (readable x.0.now) };

    fn fmt<W: fmt::Write>(&self, f: &mut fmt::Formatter<W>) -> fmt::Result {
        for byte in self.0 {
            write!(f, "{}", Byte(*byte))?;
        }
        Ok(())
    }
}

/// The line of a record.
#[derive(Clone, Copy)]
struct Line<'a>(&'a Record<'a>);

impl fmt::Display for Line<'_> {
    ghost output = { λ x. Some (record_line x.0.now) };

    fn fmt<W: fmt::Write>(&self, f: &mut fmt::Formatter<W>) -> fmt::Result {
        match self.0 {
            Record::Sight((old_state, new_state)) => {
                writeln!(f, "sight at {old_state} {new_state}")
            }
            Record::Move((old_state, new_state), controller) => {
                writeln!(f, "move {controller} at {old_state} {new_state}")
            }
            Record::Maker(text) => {
                writeln!(f, "maker at byte {}: {}", text.place, Readable(text.bytes))
            }
            Record::Remark(text) => {
                writeln!(f, "remark at byte {}: {}", text.place, Readable(text.bytes))
            }
        }
    }
}

/// The records from a place on, up to the first that is refused.
#[derive(Clone, Copy)]
struct Records<'a> {
    input: &'a [u8],
    place: usize,
}

impl fmt::Display for Records<'_> {
    ghost output = { λ x. Some (records_text x.input.now x.place) };

    #[tactic(auto, using(crate::proofs::Lines::no_line, crate::proofs::Lines::line_more, crate::proofs::Lines::all_lines))]
    fn fmt<W: fmt::Write>(&self, f: &mut fmt::Formatter<W>) -> fmt::Result {
        let mut next = self.place;
        while let Some((item, behind)) = read_record(self.input, next).unwrap_or(None) {
            write!(f, "{}", Line(&item))?;
            next = behind;
        }
        Ok(())
    }
}

/// What was read of an input: the tolerance, the two systems and the records of the list.
#[derive_where(Clone, Copy)]
struct Parts<'a, S, T> {
    tolerance: u16,
    old: &'a S,
    new: &'a T,
    records: Records<'a>,
}

impl<S: System, T: System> fmt::Display for Parts<'_, S, T> {
    ghost output = { λ x. Some (parts_text x.tolerance (S.System.meaning x.old.now) (T.System.meaning x.new.now) (records_text x.records.input.now x.records.place)) };

    #[tactic(auto, unfolding(crate::specs::Input::parts_text))]
    fn fmt<W: fmt::Write>(&self, f: &mut fmt::Formatter<W>) -> fmt::Result {
        writeln!(f, "tolerance {}", self.tolerance)?;
        write!(f, "old system\n{}", Whole(self.old))?;
        write!(f, "new system\n{}", Whole(self.new))?;
        write!(f, "list\n{}", self.records)
    }
}

/// What a whole input holds, as text: the tolerance, the two systems, and the list record by record; or the first fault of the input.
pub fn describe_input(heap: Global, input: &[u8]) -> Result<String, DescribeInputError>
    ensures text { DescribesInput input.now result }
    ensures memory { result ≡ Err NoMemory → input_fault input.now ≡ None }
{
    // before memory is asked for, so that a fault is told whether there is memory or not
    let read = read_input(input)?;
    let old_words = laid_out(heap, &read.old, system_room())?;
    let new_words = laid_out(heap, &read.new, system_room())?;
    let parts = Parts {
        tolerance: read.likeness.tolerance(SOME_CHANNEL),
        old: &Stored { words: &old_words },
        new: &Stored { words: &new_words },
        records: Records {
            input,
            place: read.list_place,
        },
    };
    Ok(parts.to_string(heap)?)
}
