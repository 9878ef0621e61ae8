//! Why a record of a strike list is refused.
ghost use Rattle.std.specs.Prelude.{◌≡◌};
ghost use Rattle.files.specs.StrikeList.{list_refusal};

use codec::NumberFault;

/// Why a record is refused.
#[derive(Clone, Copy, Debug, PartialEq, Eq)]
pub enum ListReason {
    /// No record begins with this letter.
    Letter,
    /// A number cannot be read, or a text is cut short.
    Number(NumberFault),
    /// The length of a text is above 64.
    TextTooLong,
}

/// A part of a record that is refused.
#[derive(Clone, Copy, Debug, PartialEq, Eq)]
pub struct ListFault {
    pub reason: ListReason,
    /// Where the part begins: the letter, or the number; of a text, its length.
    pub place: usize,
}

/// The number of the refusal of a letter.
const LETTER: u8 = 24;

/// The number of the refusal of a text that is too long.
const TEXT_TOO_LONG: u8 = 25;

impl ListReason {
    /// The number of the refusal.
    pub fn number(&self) -> u8
        ensures { result ≡ list_refusal self.now }
    {
        match self {
            ListReason::Letter => LETTER,
            ListReason::Number(fault) => fault.number(),
            ListReason::TextTooLong => TEXT_TOO_LONG,
        }
    }
}
