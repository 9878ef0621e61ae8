//! What a docket is asked for and what it answers.
use arena::Cause;

/// A strike: a pair of an old state and a new one, and what it is to be struck for.
#[derive(Clone, Copy, Debug, PartialEq, Eq)]
pub struct Strike {
    pub pair: (u16, u16),
    pub cause: Cause,
}

/// What a settle check finds.
// No `Result<u32, Strike>`: that a pair is loose is an answer, and the errors of the check are its refusals.
#[derive(Clone, Copy, Debug, PartialEq, Eq)]
pub enum Settlement {
    /// No pair is loose, and so many stand.
    Settled(u32),
    /// The first loose pair, and what it can be struck for.
    Loose(Strike),
}
