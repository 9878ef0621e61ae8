//! The programs that print what a system file describes, and what an input holds.
ghost use Rattle.std.specs.Prelude.{◌≡◌, length, IfErr, IfOk, IfSome, vec_len};
ghost use Rattle.std.specs.Io.KnownBytes.{Appends};
ghost use Rattle.streams.specs.Written.{AppendsFront, IsOutput, Spared, ToldInPart};
ghost use Rattle.report.specs.Room.{most_read};
ghost use Rattle.description.specs.Program.{FilePrinted, InputPrinted, ToldOfFile, ToldOfInput};

use crate::file::{DescribeError, describe};
use crate::input::{DescribeInputError, describe_input};
use crate::refusal::file_fault_line;
use report::{MOST_READ, fault_line, no_memory_line};
use std::alloc::{AllocError, Global};
use std::io::{self, Error, Read, Write};
use streams::{Ending, Failure, read_front, write_whole};

/// Writes the text, with which a program ends.
fn tell<W: Write>(writer: &mut W, text: &str, ending: Ending) -> Result<Ending, Failure>
    ensures told { IfOk result (λ told.
        (told ≡ ending) × Appends (W.contents writer.old) (W.contents writer.new) text.now) }
    ensures failed { IfErr result IsOutput }
    ensures in_part { IfErr result (λ _.
        AppendsFront (W.contents writer.old) (W.contents writer.new) text.now) }
{
    write_whole(writer, text.as_bytes()).map_err(Failure::Output)?;
    Ok(ending)
}

/// Writes what the system file at the front of the bytes describes, or why there is no description.
pub fn print_file<W: Write>(heap: Global, bytes: &[u8], writer: &mut W) -> Result<Ending, Failure>
    ensures printed { IfOk result
        (FilePrinted bytes.now (W.contents writer.old) (W.contents writer.new)) }
    ensures failed { IfErr result IsOutput }
    ensures in_part { IfErr result
        (ToldInPart (ToldOfFile bytes.now) (W.contents writer.old) (W.contents writer.new)) }
{
    match describe(heap, bytes) {
        Ok(text) => tell(writer, &text, Ending::Told),
        Err(DescribeError::Refused(fault)) => {
            tell(writer, &file_fault_line(&fault), Ending::Refused)
        }
        Err(DescribeError::NoMemory) => tell(writer, &no_memory_line(), Ending::NoMemory),
    }
}

/// Writes what an input of an exchange holds, or why there is no description.
pub fn print_input<W: Write>(heap: Global, input: &[u8], writer: &mut W) -> Result<Ending, Failure>
    ensures printed { IfOk result
        (InputPrinted input.now (W.contents writer.old) (W.contents writer.new)) }
    ensures failed { IfErr result IsOutput }
    ensures in_part { IfErr result
        (ToldInPart (ToldOfInput input.now) (W.contents writer.old) (W.contents writer.new)) }
{
    match describe_input(heap, input) {
        Ok(text) => tell(writer, &text, Ending::Told),
        Err(DescribeInputError::Refused(fault)) => {
            tell(writer, &fault_line(&fault), Ending::Refused)
        }
        Err(DescribeInputError::NoMemory) => tell(writer, &no_memory_line(), Ending::NoMemory),
    }
}

/// Reads a stream to its end.
fn read_file<R: Read>(heap: Global, reader: &mut R) -> io::Result<Vec<u8>>
    ensures { IfOk result (λ bytes. IfSome (R.remaining reader.old) (λ left. bytes.items ≡ left)) }
{
    let mut bytes = Vec::new(heap);
    reader.read_to_end(&mut bytes)?;
    Ok(bytes)
}

/// The whole program for a system file: reads it to its end, and writes what it describes.
///
/// Nothing is written where the file cannot be read, or there is no memory for its bytes, and a front of the text where it cannot be written.
#[tactic(auto, using(crate::proofs::Front::file_part_of_left))]
pub fn describe_from<R: Read, W: Write>(
    heap: Global,
    reader: &mut R,
    writer: &mut W,
) -> Result<Ending, Failure>
    ensures printed { IfOk result (λ ending. IfSome (R.remaining reader.old) (λ bytes.
        FilePrinted bytes (W.contents writer.old) (W.contents writer.new) ending)) }
    ensures spared { IfErr result (Spared (W.contents writer.old) (W.contents writer.new)) }
    ensures in_part { IfErr result (λ failure. IfSome (R.remaining reader.old) (λ bytes.
        ToldInPart (ToldOfFile bytes) (W.contents writer.old) (W.contents writer.new) failure)) }
{
    let bytes = read_file(heap, reader).map_err(Failure::Input)?;
    print_file(heap, &bytes, writer)
}

/// Memory for so many bytes. What they hold at first does not matter.
// By itself, so that no proof about the program has that many zeros in reach.
fn memory_for_bytes(heap: Global, count: usize) -> Result<Vec<u8>, AllocError>
    ensures { IfOk result (λ bytes. vec_len bytes ≡ count) }
{
    vec![in heap; 0u8; count]
}

/// Reads an input into the buffer, and writes what it holds.
fn describe_input_in<R: Read, W: Write>(
    heap: Global,
    reader: &mut R,
    writer: &mut W,
    buffer: &mut [u8],
) -> Result<Ending, Failure>
    requires { length buffer.old ≡ most_read }
    ensures printed { IfOk result (λ ending. IfSome (R.remaining reader.old) (λ input.
        InputPrinted input (W.contents writer.old) (W.contents writer.new) ending)) }
    ensures spared { IfErr result (Spared (W.contents writer.old) (W.contents writer.new)) }
    ensures in_part { IfErr result (λ failure. IfSome (R.remaining reader.old) (λ input.
        ToldInPart (ToldOfInput input) (W.contents writer.old) (W.contents writer.new) failure)) }
{
    let count = read_front(reader, buffer).map_err(Failure::Input)?;
    print_input(heap, &buffer[..count], writer)
}

/// The whole program for an input of an exchange: reads as much as an input may have and a byte more, and writes what it holds.
///
/// Nothing is written where the input cannot be read, or there is no memory for its bytes, and a front of the text where it cannot be written.
pub fn describe_input_from<R: Read, W: Write>(
    heap: Global,
    reader: &mut R,
    writer: &mut W,
) -> Result<Ending, Failure>
    ensures printed { IfOk result (λ ending. IfSome (R.remaining reader.old) (λ input.
        InputPrinted input (W.contents writer.old) (W.contents writer.new) ending)) }
    ensures spared { IfErr result (Spared (W.contents writer.old) (W.contents writer.new)) }
    ensures in_part { IfErr result (λ failure. IfSome (R.remaining reader.old) (λ input.
        ToldInPart (ToldOfInput input) (W.contents writer.old) (W.contents writer.new) failure)) }
{
    let mut buffer = match memory_for_bytes(heap, MOST_READ) {
        Ok(buffer) => buffer,
        Err(error) => return Err(Failure::Input(Error::from(error))),
    };
    describe_input_in(heap, reader, writer, &mut buffer)
}
