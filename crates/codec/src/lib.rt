//! Numbers and readings as they stand in files.
#![tactic(auto)]

mod number;
mod reader;
mod reading;
mod writer;

pub use number::{NumberFault, WriteFault, encoded_len, read_number, write_number};
pub use reader::Reader;
pub use reading::{file_reading, unfile_reading};
pub use writer::Writer;

#[cfg(test)]
mod tests;
