//! What a system file describes.
ghost use Rattle.std.specs.Prelude.{◌≡◌, Err, IfOk, None, string_bytes};
ghost use Rattle.files.specs.SystemFile.{file_fault};
ghost use Rattle.description.specs.File.{file_text, most_words, Describes};
ghost use Rattle.description.specs.declared.file.DescribeError.TheVariants.{Refused, NoMemory};

use crate::text::Whole;
use crate::words::laid_out;
use files::{ReadFault, SystemFile};
use std::alloc::{AllocError, Global};
use systems::{MAX_CHANNELS, MAX_STATES, Stored, System, words_taken};

/// Why there is no description of a file.
// Beside `DescribeInputError`, and no generic error for both: what is refused is of another type, and contracts name the cases.
#[derive(Clone, Copy, Debug, PartialEq, Eq, Drop)]
pub enum DescribeError {
    /// The file is refused.
    Refused(ReadFault),
    /// There was no memory for the words or the text.
    NoMemory,
}

impl From<AllocError> for DescribeError {
    ghost from_gives = { λ _ r. r ≡ NoMemory };

    fn from(_: AllocError) -> DescribeError {
        DescribeError::NoMemory
    }
}

impl From<ReadFault> for DescribeError {
    ghost from_gives = { λ fault r. r ≡ Refused fault };

    fn from(fault: ReadFault) -> DescribeError {
        DescribeError::Refused(fault)
    }
}

/// How many bytes the file takes of those that are given, and its system.
fn file_text<S: System>(
    heap: Global,
    end: usize,
    given: usize,
    system: &S,
) -> Result<String, AllocError>
    ensures { IfOk result (λ text. string_bytes text ≡ file_text end given (S.System.meaning system.now)) }
{
    format!(in heap; "read {end} of {given} bytes\n{}", Whole(system))
}

/// How many words the largest stored system takes.
fn most_words() -> usize
    ensures { result ≡ most_words }
{
    words_taken(MAX_STATES, MAX_CHANNELS)
}

/// What the system file at the front of the bytes describes, or its first fault.
pub fn describe(heap: Global, bytes: &[u8]) -> Result<String, DescribeError>
    ensures text { Describes bytes.now result }
    ensures memory { result ≡ Err NoMemory → file_fault bytes.now 0 most_words ≡ None }
{
    // before memory is asked for, so that a fault is told whether there is memory or not
    let file = SystemFile::test(bytes, 0, most_words())?;
    let words = laid_out(heap, &file, most_words())?;
    Ok(file_text(heap, file.end(), bytes.len(), &Stored { words: &words })?)
}
