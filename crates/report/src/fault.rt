//! Why an input is refused.
ghost use Rattle.std.specs.Prelude.{◌≡◌};
ghost use Rattle.report.specs.Fault.{input_refusal, of_list, of_system};

use codec::NumberFault;
use docket::Refusal;
use files::{ListFault, ListReason, ReadFault, Reason};
use likeness::ToleranceFault;

/// Why an item of an input is refused.
#[derive(Clone, Copy, Debug, PartialEq, Eq)]
pub enum InputReason {
    /// There are more bytes than an input may have.
    TooLong,
    /// The tolerance cannot be read.
    Tolerance(NumberFault),
    /// The tolerance is above 1,000.
    TooWide,
    /// A number of a system file is refused.
    System(Reason),
    /// A part of the strike list is refused.
    List(ListReason),
    /// The opening is refused.
    Opening(Refusal),
}

/// An item of an input that is refused.
#[derive(Clone, Copy, Debug, PartialEq, Eq)]
pub struct InputFault {
    pub reason: InputReason,
    /// Where the item begins: of an input that is too long, the first byte too many, and of the opening, the list.
    pub place: usize,
}

/// The number of the refusal of an input that is too long.
const TOO_LONG: u8 = 28;

impl InputReason {
    /// The number of the refusal.
    pub fn number(&self) -> u8
        ensures { result ≡ input_refusal self.now }
    {
        match self {
            InputReason::TooLong => TOO_LONG,
            InputReason::Tolerance(fault) => fault.number(),
            InputReason::TooWide => ToleranceFault::TooWide.number(),
            InputReason::System(reason) => reason.number(),
            InputReason::List(reason) => reason.number(),
            InputReason::Opening(refusal) => refusal.number(),
        }
    }
}

impl From<ReadFault> for InputFault {
    ghost from_gives = { λ fault r. r ≡ of_system fault };

    fn from(fault: ReadFault) -> InputFault {
        InputFault {
            reason: InputReason::System(fault.reason),
            place: fault.place,
        }
    }
}

impl From<ListFault> for InputFault {
    ghost from_gives = { λ fault r. r ≡ of_list fault };

    fn from(fault: ListFault) -> InputFault {
        InputFault {
            reason: InputReason::List(fault.reason),
            place: fault.place,
        }
    }
}
