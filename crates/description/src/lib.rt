//! What a system file describes, and what an input of an exchange holds, as text for a person.
#![tactic(auto)]

mod file;
mod input;
mod program;
mod refusal;
mod text;
mod words;

pub use file::{DescribeError, describe};
pub use input::{DescribeInputError, describe_input};
pub use program::{describe_from, describe_input_from, print_file, print_input};
pub use refusal::{FaultLine, LONGEST_FAULT_LINE, file_fault_line};
pub use text::system_text;

#[cfg(test)]
mod tests;
