//! Bytes that come from a stream and go to one.
ghost use Rattle.std.specs.Prelude.{◌≡◌, ◌≢◌, ◌≤◌, length, take, IfErr, IfOk, IfSome, OnErr, OnOk};
ghost use Rattle.std.specs.IoError.{error_kind};
ghost use Rattle.std.specs.Io.KnownBytes.{Appends, Consumes};
ghost use Rattle.streams.specs.Written.{AppendsFront};

use std::io::{Error, ErrorKind, Read, Result, Write};

/// Reads into the buffer until it is full or the stream ends, and tells how many bytes came.
///
/// A read that is interrupted is made again. Bytes of the buffer behind those that came may hold anything afterwards, and so may all of it where reading fails.
pub fn read_front<R: Read>(reader: &mut R, buffer: &mut [u8]) -> Result<usize>
    ensures within { IfOk result (λ count. count ≤ length buffer.new) }
    ensures bytes { IfOk result (λ count. IfSome (R.remaining reader.old) (λ left.
        take count buffer.new ≡ take (length buffer.old) left)) }
    ensures retried { IfErr result (λ error. error_kind error ≢ ErrorKind.Interrupted) }
    ensures left { IfOk result (λ count.
        Consumes (R.remaining reader.old) (R.remaining reader.new) (take count buffer.new)) }
{
    let mut filled = 0;
    // nothing else bounds how often a read can be interrupted
    for _turn in 0..u64::MAX {
        if filled >= buffer.len() {
            return Ok(filled);
        }
        match reader.read(&mut buffer[filled..]) {
            Ok(0) => return Ok(filled),
            Ok(count) => filled += count,
            Err(error) if error.kind() == ErrorKind::Interrupted => {}
            Err(error) => return Err(error),
        }
    }
    Err(Error::from(ErrorKind::TimedOut))
}

/// Writes all of the bytes, and has them passed on.
///
/// A write that is interrupted is made again. Where writing fails, a front of the bytes was written.
pub fn write_whole<W: Write>(writer: &mut W, bytes: &[u8]) -> Result<()>
    ensures written { OnOk result
        (Appends (W.contents writer.old) (W.contents writer.new) bytes.now) }
    ensures failed { OnErr result
        (AppendsFront (W.contents writer.old) (W.contents writer.new) bytes.now) }
{
    let mut written = 0;
    for _turn in 0..u64::MAX {
        if written >= bytes.len() {
            return writer.flush();
        }
        match writer.write(&bytes[written..]) {
            Ok(0) => return Err(Error::from(ErrorKind::WriteZero)),
            Ok(count) => written += count,
            Err(error) if error.kind() == ErrorKind::Interrupted => {}
            Err(error) => return Err(error),
        }
    }
    Err(Error::from(ErrorKind::TimedOut))
}
