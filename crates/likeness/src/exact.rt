//! The likeness of equal readings.
ghost use Rattle.likeness.specs.Exact.{exact};

use crate::likeness::Likeness;

/// On every channel, only equal readings are alike.
#[derive(Clone, Copy)]
pub struct Exact;

impl Likeness for Exact {
    ghost relation = { λ _ _. exact };

    fn alike(&self, _channel: u8, old: i16, new: i16) -> bool {
        old == new
    }
}
