//! The words that systems are laid out in.
ghost use Rattle.std.specs.Prelude.{◌≡◌, ◌≤◌, length, vec_len, IfOk};
ghost use Rattle.files.specs.SystemFile.{described, file_words};
ghost use Rattle.systems.specs.Layout.{Holds};

use files::SystemFile;
use std::alloc::{AllocError, Global};

/// Lays out the system of a file in front of words that suffice.
fn lay_out(file: &SystemFile<'_>, words: &mut [u16])
    requires { file_words file.now.bytes.now file.now.place ≤ length words.old }
    ensures { Holds (described file.now.bytes.now file.now.place) words.new }
{
    let Ok(_) = file.lay_out(words, 0) else {
        unreachable()
    };
}

/// Memory for so many words. What they hold at first does not matter.
// By itself, so that no proof about descriptions has that many zeros in reach.
fn memory_for(heap: Global, count: usize) -> Result<Vec<u16>, AllocError>
    ensures { IfOk result (λ words. vec_len words ≡ count) }
{
    vec![in heap; 0u16; count]
}

/// So many words, which suffice, with the system of a file laid out in front of them.
pub(crate) fn laid_out(
    heap: Global,
    file: &SystemFile<'_>,
    count: usize,
) -> Result<Vec<u16>, AllocError>
    requires { file_words file.now.bytes.now file.now.place ≤ count }
    ensures { IfOk result (λ words. Holds (described file.now.bytes.now file.now.place) words.items) }
{
    let mut words = memory_for(heap, count)?;
    lay_out(file, &mut words);
    Ok(words)
}
