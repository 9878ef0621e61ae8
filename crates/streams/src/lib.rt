//! Reading the front of a stream and writing to one, and how a program that does both ends.
#![tactic(auto)]

mod ending;
mod failure;
mod front;
mod process;

pub use ending::Ending;
pub use failure::Failure;
pub use front::{read_front, write_whole};
pub use process::finish;
