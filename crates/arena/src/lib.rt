//! What the game of an exchange is played on, and which pairs of states are refuted there.
#![tactic(auto)]

mod arena;
mod board;
mod board_mut;
mod cause;
mod entry;
mod exchange;
mod gathered;
mod refutation;
mod table;

pub use arena::Arena;
pub use board::Board;
pub use board_mut::BoardMut;
pub use cause::Cause;
pub use exchange::Exchange;
pub use gathered::{Gathered, pays_to_gather};
pub use table::{clear, number_of_pairs};
