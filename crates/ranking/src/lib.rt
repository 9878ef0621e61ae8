//! Ranks: how soon each pair of states is refuted.
#![tactic(auto)]

mod ranking;

pub use ranking::rank;
