//! What a pair is struck for.

/// What a pair of states is struck for.
// No `Option<u16>`: sight is a cause by itself, and not the want of a move.
#[derive(Clone, Copy, Debug, PartialEq, Eq)]
pub enum Cause {
    /// The pair is unlike: sight alone tells.
    Sight,
    /// This move of the old controller refutes the pair.
    Move(u16),
}
