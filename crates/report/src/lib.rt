//! The whole of an exchange, from the bytes of its input to the lines that are printed.
#![tactic(auto)]

mod deciding;
mod fault;
mod input;
mod lines;
mod list;
mod memory;
mod program;

pub use deciding::report;
pub use fault::{InputFault, InputReason};
pub use input::{Input, MOST_BYTES, ROOM_STATES, read_input, system_room};
pub use lines::{
    LONGEST_LINE, Line, answer_line, fault_line, no_memory_line, standing_line, swept_line,
    verdict_line,
};
pub use memory::{MOST_OUTPUT, MOST_READ, MOST_STRIKES, Memory, TABLE_ROOM};
pub use program::{exchange, exchange_in, tell_no_memory};
