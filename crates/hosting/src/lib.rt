//! What a host asks of two systems, in files or in words: a decision, a certificate check or the ranks, in memory that it lends; and the answers as they cross to C.
#![tactic(auto)]

mod answer;
mod decide;
mod fault;
mod filed;
mod held;
mod item;
mod rank;
mod refusal;
mod stored;

pub use answer::{Certificate, Decision, Ranks, Read, Tolerances, Written};
pub use fault::{CheckFault, FilesFault, WordsFault};
pub use filed::FiledExchange;
pub use refusal::Refusal;
pub use stored::StoredExchange;
