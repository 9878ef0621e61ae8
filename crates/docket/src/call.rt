//! The calls of a docket, to be made in a row.
use crate::strike::{Settlement, Strike};

/// One call of a docket.
#[derive(Clone, Copy, Debug, PartialEq, Eq)]
pub enum Call {
    /// Open the docket.
    Open,
    /// Strike a pair.
    Strike(Strike),
    /// Sweep, with this budget.
    Sweep(u32),
    /// Check whether the table is settled.
    Settle,
}

/// What a granted call answers.
#[derive(Clone, Copy, Debug, PartialEq, Eq)]
pub enum Grant {
    /// The docket is open for so many pairs.
    Opened(u32),
    /// The pair is struck, as this number.
    Struck(u32),
    /// So many strikes were made.
    Swept(u32),
    /// What the settle check found.
    Checked(Settlement),
}
