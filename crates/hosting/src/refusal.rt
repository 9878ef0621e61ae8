//! Why a call is refused, as C takes it.
ghost use Rattle.std.specs.Prelude.{◌≡◌};
ghost use Rattle.hosting.specs.Answers.{about, check_refusal, file_refusal, files_refusal, granted, pair_refusal, table_refusal, wide_tolerance, words_refusal};

use crate::fault::{CheckFault, FilesFault, WordsFault};
use crate::item::Item;
use docket::CertificateFault;
use files::ReadFault;
use likeness::ToleranceFault;

/// Why a call is refused.
#[repr(C)]
#[derive(Clone, Copy)]
pub struct Refusal {
    /// The number of the refusal; 0 if the call is granted.
    pub number: u8,
    /// What the refusal is about, as a number.
    pub item: u8,
    /// The state whose row in a file is at fault, or the old state of a pair out of order.
    pub state: u16,
    /// The new state of a pair out of order.
    pub new_state: u16,
    /// The byte where the number at fault begins in a file, or the channel of a tolerance.
    pub place: usize,
}

/// A refusal that is about an item, with no place and no state.
pub(crate) fn about(item: Item, number: u8) -> Refusal
    ensures { result ≡ about item number }
{
    Refusal {
        number,
        item: item as u8,
        state: 0,
        new_state: 0,
        place: 0,
    }
}

/// No refusal.
pub(crate) fn granted() -> Refusal
    ensures { result ≡ granted }
{
    about(Item::Nothing, 0)
}

/// The fault of a file.
pub(crate) fn file_refusal(item: Item, fault: ReadFault) -> Refusal
    ensures { result ≡ file_refusal item fault }
{
    Refusal {
        state: fault.state,
        place: fault.place,
        ..about(item, fault.reason.number())
    }
}

/// The refusal of a tolerance that is too wide.
fn wide_tolerance(channel: usize) -> Refusal
    ensures { result ≡ wide_tolerance channel }
{
    Refusal {
        place: channel,
        ..about(Item::Tolerances, ToleranceFault::TooWide.number())
    }
}

/// The refusal of two files and what is lent with them.
pub(crate) fn files_refusal(fault: FilesFault) -> Refusal
    ensures { result ≡ files_refusal fault }
{
    match fault {
        FilesFault::Tolerance(channel) => wide_tolerance(channel),
        FilesFault::OldFile(fault) => file_refusal(Item::OldFile, fault),
        FilesFault::NewFile(fault) => file_refusal(Item::NewFile, fault),
        FilesFault::Exchange(refusal) => about(Item::Exchange, refusal.number()),
    }
}

/// The refusal of the words of two systems and what is lent with them.
pub(crate) fn words_refusal(fault: WordsFault) -> Refusal
    ensures { result ≡ words_refusal fault }
{
    match fault {
        WordsFault::Tolerance(channel) => wide_tolerance(channel),
        WordsFault::OldWords(fault) => about(Item::OldWords, fault.number()),
        WordsFault::NewWords(fault) => about(Item::NewWords, fault.number()),
        WordsFault::Exchange(refusal) => about(Item::Exchange, refusal.number()),
    }
}

/// A pair out of order.
fn pair_refusal(number: u8, pair: (u16, u16)) -> Refusal
    ensures { result ≡ pair_refusal number pair }
{
    let (old_state, new_state) = pair;
    Refusal {
        state: old_state,
        new_state,
        ..about(Item::Pair, number)
    }
}

/// The fault of a table.
fn table_refusal(fault: CertificateFault) -> Refusal
    ensures { result ≡ table_refusal fault }
{
    let number = fault.number();
    match fault {
        CertificateFault::Refused(_) => about(Item::Exchange, number),
        CertificateFault::Unfounded(pair) | CertificateFault::Loose(pair) => {
            pair_refusal(number, pair)
        }
    }
}

/// The refusal of a certificate check.
pub(crate) fn check_refusal(fault: CheckFault) -> Refusal
    ensures { result ≡ check_refusal fault }
{
    match fault {
        CheckFault::Words(fault) => words_refusal(fault),
        CheckFault::Table(fault) => table_refusal(fault),
    }
}
