//! Why two files, the words of two systems, or what is lent with them, are refused.
ghost use Rattle.std.specs.Prelude.{◌≡◌};
ghost use Rattle.hosting.specs.declared.fault.CheckFault.TheVariants.{Words, Table};
ghost use Rattle.hosting.specs.declared.fault.FilesFault.TheVariants.{Exchange};
ghost use Rattle.hosting.specs.declared.fault.WordsFault.TheVariants.{Exchange as Misfit};
ghost use Rattle.hosting.specs.Fault.{check_fault_number, files_fault_number, words_fault_number};

use docket::{CertificateFault, Refusal};
use files::ReadFault;
use likeness::ToleranceFault;
use systems::LayoutFault;

/// Why two files, or what is lent with them, do not serve.
#[derive(Clone, Copy, Debug, PartialEq, Eq)]
pub enum FilesFault {
    /// The tolerance of this channel is too wide, and of none before it.
    Tolerance(usize),
    /// The file of the old system has this fault.
    OldFile(ReadFault),
    /// The file of the new system has this fault.
    NewFile(ReadFault),
    /// The two systems do not serve together, or the table does not.
    Exchange(Refusal),
}

impl FilesFault {
    /// The number of the refusal.
    pub fn number(&self) -> u8
        ensures { result ≡ files_fault_number self.now }
    {
        match self {
            FilesFault::Tolerance(_) => ToleranceFault::TooWide.number(),
            FilesFault::OldFile(fault) | FilesFault::NewFile(fault) => fault.reason.number(),
            FilesFault::Exchange(refusal) => refusal.number(),
        }
    }
}

impl From<Refusal> for FilesFault {
    ghost from_gives = { λ refusal r. r ≡ Exchange refusal };

    fn from(refusal: Refusal) -> FilesFault {
        FilesFault::Exchange(refusal)
    }
}

/// Why the words of two systems, or what is lent with them, do not serve.
#[derive(Clone, Copy, Debug, PartialEq, Eq)]
pub enum WordsFault {
    /// The tolerance of this channel is too wide, and of none before it.
    Tolerance(usize),
    /// The words of the old system have not the layout.
    OldWords(LayoutFault),
    /// The words of the new system have not the layout.
    NewWords(LayoutFault),
    /// The two systems do not serve together, or the table does not.
    Exchange(Refusal),
}

impl WordsFault {
    /// The number of the refusal.
    pub fn number(&self) -> u8
        ensures { result ≡ words_fault_number self.now }
    {
        match self {
            WordsFault::Tolerance(_) => ToleranceFault::TooWide.number(),
            WordsFault::OldWords(fault) | WordsFault::NewWords(fault) => fault.number(),
            WordsFault::Exchange(refusal) => refusal.number(),
        }
    }
}

impl From<Refusal> for WordsFault {
    ghost from_gives = { λ refusal r. r ≡ Misfit refusal };

    fn from(refusal: Refusal) -> WordsFault {
        WordsFault::Exchange(refusal)
    }
}

/// Why a table is no certificate of the exchange of two systems in words.
#[derive(Clone, Copy, Debug, PartialEq, Eq)]
pub enum CheckFault {
    /// The words, or what is lent with them, do not serve.
    Words(WordsFault),
    /// The table is no certificate.
    Table(CertificateFault),
}

impl CheckFault {
    /// The number of the fault.
    pub fn number(&self) -> u8
        ensures { result ≡ check_fault_number self.now }
    {
        match self {
            CheckFault::Words(fault) => fault.number(),
            CheckFault::Table(fault) => fault.number(),
        }
    }
}

impl From<WordsFault> for CheckFault {
    ghost from_gives = { λ fault r. r ≡ Words fault };

    fn from(fault: WordsFault) -> CheckFault {
        CheckFault::Words(fault)
    }
}

impl From<CertificateFault> for CheckFault {
    ghost from_gives = { λ fault r. r ≡ Table fault };

    fn from(fault: CertificateFault) -> CheckFault {
        CheckFault::Table(fault)
    }
}
