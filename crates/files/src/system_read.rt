//! Reading a system file into words.
ghost use Rattle.std.specs.Prelude.{◌≡◌, ◌-◌, length, drop, is_ok, IfOk, if◌then◌else◌, OnOk};
ghost use Rattle.systems.specs.Layout.{stored};
ghost use Rattle.systems.specs.Refused.{unless};
ghost use Rattle.files.specs.Flattening.{ReadsAsFiled};
ghost use Rattle.files.specs.SystemFile.{file_fault, file_read, described};
ghost use Rattle.codec.specs.Put.{put_at};
ghost use Rattle.systems.specs.Words.{system_words};

use crate::fault::ReadFault;
use crate::system_file::SystemFile;

/// What reading a system file took and gave.
#[derive(Clone, Copy, Debug, PartialEq, Eq)]
pub struct SystemRead {
    /// How many words the system takes.
    pub words: usize,
    /// The place behind the file.
    pub end: usize,
}

/// Reads the system file that begins at the byte place into the words from `at` on.
///
/// The whole file is tested before the first word is written, so a refused read changes no word.
// Bytes and place are two parameters: the clauses name each, and a struct would be taken apart in all of them.
#[tactic(auto, using(crate::proofs::Tested::inside_memory))]
pub fn read_system(
    bytes: &[u8],
    place: usize,
    memory: &mut [u16],
    at: usize,
) -> Result<SystemRead, ReadFault>
    ensures answer { result ≡ unless (file_fault bytes.now place (length memory.old - at)) (file_read bytes.now place) }
    ensures words { memory.new ≡ (if is_ok result then put_at memory.old at (system_words (described bytes.now place)) else memory.old) }
    ensures system { OnOk result (stored (drop at memory.new) ≡ described bytes.now place) }
    ensures filed { IfOk result (λ read. ReadsAsFiled bytes.now place read.end (drop at memory.new)) }
{
    let file = SystemFile::test(bytes, place, memory.len().saturating_sub(at))?;
    Ok(file.put(memory, at))
}
