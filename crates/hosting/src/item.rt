//! What of the things that are lent a refusal is about.

/// What a refusal is about, and the number that stands for it in C.
#[derive(Clone, Copy)]
pub(crate) enum Item {
    /// Nothing: the call is granted.
    Nothing = 0,
    /// The tolerances.
    Tolerances = 1,
    /// The file of the old system.
    OldFile = 2,
    /// The file of the new system.
    NewFile = 3,
    /// Both systems together, or the table.
    Exchange = 4,
    /// A pair of the table.
    Pair = 5,
    /// The file that is to be read.
    File = 6,
    /// The system that is to be written, or the bytes for it.
    System = 7,
    /// The words of the old system.
    OldWords = 8,
    /// The words of the new system.
    NewWords = 9,
}
