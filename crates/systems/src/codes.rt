//! What a list of codes holds.
ghost use Rattle.std.specs.Prelude.{◌≤◌};
ghost use Rattle.systems.specs.Limits.{most_codes};

use crate::code_list::MOST_CODES;

/// One code: where the reading is `from`, `to` is shown.
#[derive(Clone, Copy)]
pub(crate) struct CodeEntry {
    pub(crate) from: i16,
    pub(crate) to: i16,
}

/// The entries, of which the first `count` are in use, and the cut.
// An array with its count, so that a list of codes can be copied and never wants memory.
// Fields and no model: a `CodeList` over a stored system would hold a reference beside a model, which cannot be proved yet.
#[derive(Clone, Copy)]
pub(crate) struct Codes {
    pub(crate) entries: [CodeEntry; MOST_CODES],
    pub(crate) count: usize,
    pub(crate) cut: i16,
    ghost ok: { count ≤ most_codes },
}
