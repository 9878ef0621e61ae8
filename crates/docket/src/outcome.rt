//! What becomes of an exchange.

/// What sweeps come to that go on until one makes no strike.
#[derive(Clone, Copy, Debug, PartialEq, Eq)]
pub struct Outcome {
    /// How many strikes the sweeps made.
    pub swept: u32,
    /// How many pairs stand in the end.
    pub standing: u32,
    /// Whether the new system replaces the old.
    pub replaces: bool,
}
