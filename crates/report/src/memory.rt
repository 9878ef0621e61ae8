//! The memory that reports are made in.
ghost use Rattle.std.specs.Prelude.{◌≡◌, ◌≤◌, [], IfOk, vec_len, vec_capacity};
ghost use Rattle.report.specs.Input.{system_room};
ghost use Rattle.report.specs.Room.{most_output, most_read, most_strikes, table_room};

use crate::input::{MOST_BYTES, ROOM_STATES, system_room};
use crate::lines::LONGEST_LINE;
use docket::{Grant, Refusal, Strike};
use std::alloc::{AllocError, Global};

/// How many entries the table has: one for each pair of states that there is room for.
// Casts, since no `From` goes into a constant.
pub const TABLE_ROOM: usize = ROOM_STATES as usize * ROOM_STATES as usize;

/// How many strikes can be proposed at most: a record takes a byte or more.
pub const MOST_STRIKES: usize = MOST_BYTES;

/// How many lines follow those of the strikes.
const LINES_BEHIND: usize = 3;

/// More bytes than are ever printed: the longest line, for each strike and for those behind them.
pub const MOST_OUTPUT: usize = (MOST_STRIKES + LINES_BEHIND) * LONGEST_LINE;

/// How many bytes are read of an input: one more than it may have, which tells that it has too many.
pub const MOST_READ: usize = MOST_BYTES + 1;

// What these sizes come to.
const _: () = prove!(MOST_BYTES == 32_768 && TABLE_ROOM == 4_096);

const _: () = prove!(MOST_STRIKES == 32_768 && LONGEST_LINE == 34 && MOST_OUTPUT == 1_114_214);

const _: () = prove!(MOST_READ == 32_769);

/// What a report is made in.
#[derive(Drop)]
pub(crate) struct Work {
    pub(crate) old_words: Vec<u16>,
    pub(crate) new_words: Vec<u16>,
    pub(crate) table: Vec<u32>,
    pub(crate) strikes: Vec<Strike>,
    pub(crate) answers: Vec<Result<Grant, Refusal>>,
    pub(crate) lines: Vec<u8>,
    ghost old_room: { vec_len old_words ≡ system_room },
    ghost new_room: { vec_len new_words ≡ system_room },
    ghost entries: { vec_len table ≡ table_room },
    ghost strikes_room: { most_strikes ≤ vec_capacity strikes },
    ghost answers_room: { most_strikes ≤ vec_capacity answers },
    ghost lines_room: { most_output ≤ vec_capacity lines },
}

/// All memory that `exchange` takes: what an input is read into, and what a report on it is made in. It serves for any number of inputs, one after the other.
///
/// What it holds between two reports shows in nothing but the lines of the last.
#[derive(Drop)]
pub struct Memory {
    pub(crate) input: Vec<u8>,
    pub(crate) work: Work,
    ghost input_room: { vec_len input ≡ most_read },
}

/// Memory for the words of a system. What they hold at first does not matter.
// By itself, as the next two, so that no proof about reports has that many zeros in reach.
fn words(heap: Global) -> Result<Vec<u16>, AllocError>
    ensures { IfOk result (λ words. vec_len words ≡ system_room) }
{
    vec![in heap; 0u16; system_room()]
}

/// Memory for the table. What it holds at first does not matter.
fn table(heap: Global) -> Result<Vec<u32>, AllocError>
    ensures { IfOk result (λ table. vec_len table ≡ table_room) }
{
    vec![in heap; 0u32; TABLE_ROOM]
}

/// Memory for what is read. What it holds at first does not matter.
fn input(heap: Global) -> Result<Vec<u8>, AllocError>
    ensures { IfOk result (λ input. vec_len input ≡ most_read) }
{
    vec![in heap; 0u8; MOST_READ]
}

impl Work {
    /// Asks for all of it.
    fn new(heap: Global) -> Result<Work, AllocError>
        ensures { IfOk result (λ work. work.lines.items ≡ []) }
    {
        Ok(Work {
            old_words: words(heap)?,
            new_words: words(heap)?,
            table: table(heap)?,
            strikes: Vec::with_capacity(heap, MOST_STRIKES)?,
            answers: Vec::with_capacity(heap, MOST_STRIKES)?,
            lines: Vec::with_capacity(heap, MOST_OUTPUT)?,
        })
    }
}

impl Memory {
    /// Asks for all of the memory.
    pub fn new(heap: Global) -> Result<Memory, AllocError>
        ensures { IfOk result (λ memory. memory.work.lines.items ≡ []) }
    {
        Ok(Memory {
            input: input(heap)?,
            work: Work::new(heap)?,
        })
    }

    /// The lines of the last report.
    pub fn lines(&self) -> &[u8]
        ensures { result.now ≡ self.now.work.lines.items }
    {
        &self.work.lines
    }
}
