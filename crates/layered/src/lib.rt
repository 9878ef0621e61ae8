//! Joints and code lists over stored systems, decided, checked and ranked as C functions: for the benchmark, which measures what a layer costs.
#![tactic(auto)]

mod coded;
mod joints;
mod layers;

pub use coded::{Code, layered_check_coded, layered_decide_coded, layered_rank_coded};
pub use joints::{layered_check_joints, layered_decide_joints, layered_rank_joints};
