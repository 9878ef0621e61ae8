//! The docket.
ghost use Rattle.std.specs.Prelude.{◌*◌, ◌≤◌};
ghost use Rattle.systems.specs.Limits.{max_states};

use std::marker::Model;

mod deciding;
mod opening;
mod questions;
mod running;
mod settling;
mod striking;
mod sweeping;

/// For which sizes a docket was opened, and how many strikes it has granted since.
#[derive(Clone, Copy)]
struct Ledger {
    // how many states the old system has, and so how many rows the table
    rows: u16,
    // how many states the new system has, and so how many columns the table
    columns: u16,
    count: u32,
    ghost few_rows: { rows ≤ max_states },
    ghost few_columns: { columns ≤ max_states },
    ghost few_strikes: { count ≤ rows * columns },
}

/// A docket: closed, or opened for the sizes of two systems.
///
/// Only its own calls change it.
// By a rule of this project arena and table are lent to each call anew.
#[derive(Drop)]
pub struct Docket {
    ledger: Option<Ledger>,
}

impl Model for Docket {
    ghost use Rattle.docket.specs.Position.{View, WithinBounds};

    ghost Value = { View };

    ghost use Rattle.docket.specs.Seen.{view_of};

    ghost view = { λ docket. view_of docket.ledger };

    ghost invariant = { λ docket. WithinBounds (view_of docket.ledger) };
}
