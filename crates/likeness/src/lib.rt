//! When two readings on a channel count as alike.
#![tactic(auto)]

mod exact;
mod likeness;
mod sea_state;
#[cfg(test)]
mod tests;
mod within;

pub use exact::Exact;
pub use likeness::Likeness;
pub use sea_state::{SeaState, sea_state_class};
pub use within::{MAX_TOLERANCE, TOLERANCE_CHANNELS, ToleranceFault, TooWideOn, Within};
