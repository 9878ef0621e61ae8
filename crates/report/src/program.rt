//! The program that decides an exchange, over a stream that it reads and one that it writes to.
ghost use Rattle.std.specs.Prelude.{◌≡◌, ◌≢◌, length, IfErr, IfOk, IfSome, vec_len};
ghost use Rattle.std.specs.Io.KnownBytes.{Appends};
ghost use Rattle.streams.specs.Written.{AppendsFront, IsOutput, Spared, ToldInPart};
ghost use Rattle.streams.specs.declared.ending.Ending.TheVariants.{NoMemory};
ghost use Rattle.report.specs.Lines.{no_memory_line};
ghost use Rattle.report.specs.Output.{output};
ghost use Rattle.report.specs.Program.{ConsumesAtMost, Ends, Exchanged, MayTell, Printed};
ghost use Rattle.report.specs.Room.{most_read};

use crate::deciding::report_in;
use crate::lines::no_memory_line;
use crate::memory::{Memory, Work};
use std::alloc::Global;
use std::io::{self, Read, Write};
use streams::{Ending, Failure, read_front, write_whole};

/// Reads an input and reports on it.
fn report_on<R: Read>(reader: &mut R, buffer: &mut [u8], work: &mut Work) -> io::Result<Ending>
    requires { length buffer.old ≡ most_read }
    ensures output { IfOk result (λ _. IfSome (R.remaining reader.old) (λ input.
        work.new.lines.items ≡ output input)) }
    ensures ends { IfOk result (λ ending. IfSome (R.remaining reader.old) (λ input.
        Ends input ending)) }
    ensures told { IfOk result (λ ending. ending ≢ NoMemory) }
    ensures consumed { IfOk result (λ _.
        ConsumesAtMost most_read (R.remaining reader.old) (R.remaining reader.new)) }
{
    let count = read_front(reader, buffer)?;
    Ok(match report_in(&buffer[..count], work) {
        Ok(_) => Ending::Told,
        Err(_) => Ending::Refused,
    })
}

/// The whole program over memory that is lent: reads an input, decides it, and writes every line.
///
/// Nothing is written where the input cannot be read, and a front of the lines where they cannot be written.
pub fn exchange_in<R: Read, W: Write>(
    memory: &mut Memory,
    reader: &mut R,
    writer: &mut W,
) -> Result<Ending, Failure>
    ensures printed { IfOk result (λ ending. IfSome (R.remaining reader.old)
        (Printed (W.contents writer.old) (W.contents writer.new) ending)) }
    ensures told { IfOk result (λ ending. ending ≢ NoMemory) }
    ensures consumed { IfOk result (λ _.
        ConsumesAtMost most_read (R.remaining reader.old) (R.remaining reader.new)) }
    ensures spared { IfErr result (Spared (W.contents writer.old) (W.contents writer.new)) }
    ensures in_part { IfErr result (λ failure. IfSome (R.remaining reader.old) (λ input.
        ToldInPart (λ told. told ≡ output input)
        (W.contents writer.old) (W.contents writer.new) failure)) }
{
    let ending = report_on(reader, &mut memory.input, &mut memory.work).map_err(Failure::Input)?;
    write_whole(writer, &memory.work.lines).map_err(Failure::Output)?;
    Ok(ending)
}

/// Tells that there is no memory.
pub fn tell_no_memory<W: Write>(writer: &mut W) -> Result<Ending, Failure>
    ensures ending { IfOk result (λ ending. ending ≡ NoMemory) }
    ensures told { IfOk result (λ _.
        Appends (W.contents writer.old) (W.contents writer.new) no_memory_line) }
    ensures failed { IfErr result IsOutput }
    ensures in_part { IfErr result (λ _.
        AppendsFront (W.contents writer.old) (W.contents writer.new) no_memory_line) }
{
    write_whole(writer, no_memory_line().as_str().as_bytes()).map_err(Failure::Output)?;
    Ok(Ending::NoMemory)
}

/// The whole program: asks for all memory that it takes, and then does what `exchange_in` does, or tells that there is none and reads nothing.
pub fn exchange<R: Read, W: Write>(
    heap: Global,
    reader: &mut R,
    writer: &mut W,
) -> Result<Ending, Failure>
    ensures told { IfOk result (Exchanged (R.remaining reader.old) (R.remaining reader.new)
        (W.contents writer.old) (W.contents writer.new)) }
    ensures consumed { IfOk result (λ _.
        ConsumesAtMost most_read (R.remaining reader.old) (R.remaining reader.new)) }
    ensures spared { IfErr result (Spared (W.contents writer.old) (W.contents writer.new)) }
    ensures in_part { IfErr result (λ failure. IfSome (R.remaining reader.old) (λ input.
        ToldInPart (MayTell input) (W.contents writer.old) (W.contents writer.new) failure)) }
{
    match Memory::new(heap) {
        Ok(mut memory) => exchange_in(&mut memory, reader, writer),
        Err(_) => tell_no_memory(writer),
    }
}
