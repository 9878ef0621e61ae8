//! The error of a decision.
ghost use Rattle.std.specs.Prelude.{◌≡◌};
ghost use Rattle.docket.specs.declared.decision.DecideError.TheVariants.{NoMemory, Refused};

use crate::refusal::Refusal;
use std::alloc::AllocError;

/// Why nothing was decided.
// Beside `DescribeError` of `description`, and no generic error for both: what is refused is of another type, and contracts name the cases.
#[derive(Clone, Copy, Debug, PartialEq, Eq, Drop)]
pub enum DecideError {
    /// The opening is refused.
    Refused(Refusal),
    /// There was no room for the answers, and no memory to make it.
    NoMemory,
}

impl From<AllocError> for DecideError {
    ghost from_gives = { λ _ r. r ≡ NoMemory };

    fn from(_: AllocError) -> DecideError {
        DecideError::NoMemory
    }
}

impl From<Refusal> for DecideError {
    ghost from_gives = { λ refusal r. r ≡ Refused refusal };

    fn from(refusal: Refusal) -> DecideError {
        DecideError::Refused(refusal)
    }
}
