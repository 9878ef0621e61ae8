//! A system file that has been tested.
ghost use Rattle.std.specs.Prelude.{◌≡◌, ◌-◌, ◌≤◌, length, drop, Some, None, MatchResult, IfOk, OnOk, is_ok, if◌then◌else◌};
ghost use Rattle.systems.specs.Layout.{stored};
ghost use Rattle.systems.specs.Refused.{unless};
ghost use Rattle.files.specs.Few.{Few};
ghost use Rattle.files.specs.Flattening.{ReadsAsFiled};
ghost use Rattle.files.specs.SystemFile.{described, file_fault, file_parts, file_read, file_words};
ghost use Rattle.codec.specs.Put.{put_at};
ghost use Rattle.systems.specs.Words.{system_words};

use crate::check::{TestedFile, check_file, too_short};
use crate::fault::ReadFault;
use crate::rows::write_words;
use crate::system_read::SystemRead;
use codec::Reader;

/// A system file that has no fault, before its system is laid out.
///
/// It serves where more is to be tested before the first word is written, such as whether two files fit each other.
#[derive(Clone, Copy)]
pub struct SystemFile<'a> {
    bytes: &'a [u8],
    place: usize,
    parts: TestedFile,
    ghost no_fault: { file_fault bytes.now place parts.words ≡ None },
    ghost tested: { parts ≡ file_parts bytes.now place },
}

impl<'a> SystemFile<'a> {
    /// Tests the file that begins at the byte place, where there is room for so many words.
    #[tactic(auto, using(crate::proofs::Tested::fits_its_words, crate::proofs::Tested::fits_the_room, crate::proofs::Described::few))]
    pub fn test(bytes: &'a [u8], place: usize, room: usize) -> Result<SystemFile<'a>, ReadFault>
        ensures answer { MatchResult result (λ _. file_fault bytes.now place room ≡ None) (λ fault. file_fault bytes.now place room ≡ Some fault) }
        ensures bytes { IfOk result (λ file. file.bytes.now ≡ bytes.now) }
        ensures place { IfOk result (λ file. file.place ≡ place) }
        ensures room { IfOk result (λ _. file_words bytes.now place ≤ room) }
        ensures few { IfOk result (λ _. Few (described bytes.now place)) }
    {
        let parts = check_file(bytes, place, room)?;
        Ok(SystemFile {
            bytes,
            place,
            parts,
        })
    }

    /// How many states the system has.
    #[tactic(auto, unfolding(crate::specs::SystemFile::described))]
    pub fn states(&self) -> u16
        ensures { result ≡ (described self.now.bytes.now self.now.place).states }
    {
        self.parts.sizes.states
    }

    /// How many channels the system has.
    #[tactic(auto, unfolding(crate::specs::SystemFile::described))]
    pub fn channels(&self) -> u16
        ensures { result ≡ (described self.now.bytes.now self.now.place).channels }
    {
        self.parts.sizes.channels
    }

    /// The place behind the file.
    pub fn end(&self) -> usize
        ensures { result ≡ (file_read self.now.bytes.now self.now.place).end }
    {
        self.parts.end
    }

    /// Lays out the system in the words from `at` on, and tells how many it takes, and where the file ends.
    ///
    /// Where there are too few, that is the fault, as of a read, and no word changes.
    #[tactic(auto, using(crate::proofs::Tested::fault_elsewhere, crate::proofs::Tested::fault_of_few_words))]
    pub fn lay_out(&self, memory: &mut [u16], at: usize) -> Result<SystemRead, ReadFault>
        ensures answer { result ≡ unless (file_fault self.now.bytes.now self.now.place (length memory.old - at)) (file_read self.now.bytes.now self.now.place) }
        ensures words { memory.new ≡ (if is_ok result then put_at memory.old at (system_words (described self.now.bytes.now self.now.place)) else memory.old) }
        ensures system { OnOk result (stored (drop at memory.new) ≡ described self.now.bytes.now self.now.place) }
        ensures filed { IfOk result (λ read. ReadsAsFiled self.now.bytes.now self.now.place read.end (drop at memory.new)) }
    {
        if memory.len().saturating_sub(at) < self.parts.words {
            return Err(too_short(self.parts.channels));
        }
        Ok(self.put(memory, at))
    }

    /// Lays out the system in the words from `at` on, where there is room.
    #[tactic(auto, using(crate::proofs::Tested::inside_memory))]
    pub(crate) fn put(&self, memory: &mut [u16], at: usize) -> SystemRead
        requires room { file_fault self.now.bytes.now self.now.place (length memory.old - at) ≡ None }
        ensures answer { result ≡ file_read self.now.bytes.now self.now.place }
        ensures words { memory.new ≡ put_at memory.old at (system_words (described self.now.bytes.now self.now.place)) }
        ensures system { stored (drop at memory.new) ≡ described self.now.bytes.now self.now.place }
        ensures filed { ReadsAsFiled self.now.bytes.now self.now.place result.end (drop at memory.new) }
    {
        let TestedFile {
            sizes,
            words,
            start,
            end,
            ..
        } = self.parts;
        write_words(
            &mut memory[at..at + words],
            &mut Reader::new(self.bytes, start),
            sizes,
        );
        SystemRead { words, end }
    }
}
