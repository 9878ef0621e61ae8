//! Finite systems: what a buoy's controller and its environment can do, behind one interface.
#![tactic(auto)]

mod buffer;
mod code_list;
mod codes;
mod joint;
#[cfg(test)]
mod kinds_tests;
mod layout;
mod offsets;
mod reading;
mod row;
mod row_mut;
mod stored;
mod system;
#[cfg(test)]
mod tests;

pub use buffer::Buffer;
pub use code_list::{CodeFault, CodeList, MOST_CODES};
pub use joint::Joint;
pub use layout::{
    LayoutFault, MAX_CHANNELS, MAX_MOVE_PAIRS, MAX_MOVES, MAX_STATES, check_layout, row_place,
    row_range, words_taken, write_header,
};
pub use offsets::row_words;
pub use reading::READING_BIAS;
pub use row_mut::RowMut;
pub use stored::Stored;
pub use system::System;
