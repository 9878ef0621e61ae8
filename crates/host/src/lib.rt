//! The calls of a host, as C functions. `include/cunaweho.h` declares them, and tells what they do.
#![tactic(auto)]

mod calls;

pub use calls::{
    cunaweho_check, cunaweho_decide, cunaweho_decide_words, cunaweho_rank, cunaweho_rank_words,
    cunaweho_read_system, cunaweho_write_system,
};
