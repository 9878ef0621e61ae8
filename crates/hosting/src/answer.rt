//! What crosses between the calls and C.
ghost use Rattle.std.specs.Prelude.{◌≡◌};
ghost use Rattle.hosting.specs.Answers.{certificate_of, decision_of, files_refusal, ranks_of, read_of, words_refusal, written_of};

use crate::fault::{CheckFault, FilesFault, WordsFault};
use crate::item::Item;
use crate::refusal::{
    Refusal, about, check_refusal, file_refusal, files_refusal, granted, words_refusal,
};
use docket::{Certificate as Shown, Outcome};
use files::{ReadFault, SystemRead, SystemWriteFault};
use likeness::TOLERANCE_CHANNELS;

/// The tolerance of each channel.
#[repr(C)]
#[derive(Clone, Copy)]
pub struct Tolerances {
    pub channels: [u16; TOLERANCE_CHANNELS],
}

/// What reading a file answers.
#[repr(C)]
#[derive(Clone, Copy)]
pub struct Read {
    pub refusal: Refusal,
    /// How many words the system takes.
    pub words: usize,
    /// The place behind the file.
    pub end: usize,
}

/// What writing a system answers.
#[repr(C)]
#[derive(Clone, Copy)]
pub struct Written {
    pub refusal: Refusal,
    /// How many bytes its file takes.
    pub bytes: usize,
}

/// What a decision answers.
#[repr(C)]
#[derive(Clone, Copy)]
pub struct Decision {
    pub refusal: Refusal,
    /// How many strikes the sweeps made.
    pub swept: u32,
    /// How many pairs stand in the end.
    pub standing: u32,
    /// Whether the new system replaces the old.
    pub replaces: bool,
}

/// What a certificate check answers.
#[repr(C)]
#[derive(Clone, Copy)]
pub struct Certificate {
    pub refusal: Refusal,
    /// How many pairs stand.
    pub standing: u32,
    /// Whether the new system replaces the old.
    pub replaces: bool,
}

/// What a ranking answers.
#[repr(C)]
#[derive(Clone, Copy)]
pub struct Ranks {
    pub refusal: Refusal,
    /// The highest rank.
    pub highest: u32,
}

// In a refused answer every other field is 0.

impl Read {
    /// What crosses of a read.
    pub fn of(read: Result<SystemRead, ReadFault>) -> Read
        ensures { result ≡ read_of read }
    {
        match read {
            Ok(SystemRead { words, end }) => Read {
                refusal: granted(),
                words,
                end,
            },
            Err(fault) => Read {
                refusal: file_refusal(Item::File, fault),
                words: 0,
                end: 0,
            },
        }
    }
}

impl Written {
    /// What crosses of a write.
    pub fn of(written: Result<usize, SystemWriteFault>) -> Written
        ensures { result ≡ written_of written }
    {
        match written {
            Ok(bytes) => Written {
                refusal: granted(),
                bytes,
            },
            Err(fault) => Written {
                refusal: about(Item::System, fault.number()),
                bytes: 0,
            },
        }
    }
}

impl Decision {
    /// What crosses of a decision of two files.
    pub fn of(decided: Result<Outcome, FilesFault>) -> Decision
        ensures { result ≡ decision_of files_refusal decided }
    {
        Decision::told(decided.map_err(files_refusal))
    }

    /// What crosses of a decision of two systems in words.
    pub fn of_words(decided: Result<Outcome, WordsFault>) -> Decision
        ensures { result ≡ decision_of words_refusal decided }
    {
        Decision::told(decided.map_err(words_refusal))
    }

    /// What crosses of a decision that is refused as C takes it.
    fn told(decided: Result<Outcome, Refusal>) -> Decision
        ensures { result ≡ decision_of (λ refusal. refusal) decided }
    {
        match decided {
            Ok(
                Outcome {
                    swept,
                    standing,
                    replaces,
                },
            ) => Decision {
                refusal: granted(),
                swept,
                standing,
                replaces,
            },
            Err(refusal) => Decision {
                refusal,
                swept: 0,
                standing: 0,
                replaces: false,
            },
        }
    }
}

impl Certificate {
    /// What crosses of a certificate check.
    pub fn of(checked: Result<Shown, CheckFault>) -> Certificate
        ensures { result ≡ certificate_of checked }
    {
        match checked {
            Ok(Shown { standing, replaces }) => Certificate {
                refusal: granted(),
                standing,
                replaces,
            },
            Err(fault) => Certificate {
                refusal: check_refusal(fault),
                standing: 0,
                replaces: false,
            },
        }
    }
}

impl Ranks {
    /// What crosses of a ranking of two files.
    pub fn of(ranked: Result<u32, FilesFault>) -> Ranks
        ensures { result ≡ ranks_of files_refusal ranked }
    {
        Ranks::told(ranked.map_err(files_refusal))
    }

    /// What crosses of a ranking of two systems in words.
    pub fn of_words(ranked: Result<u32, WordsFault>) -> Ranks
        ensures { result ≡ ranks_of words_refusal ranked }
    {
        Ranks::told(ranked.map_err(words_refusal))
    }

    /// What crosses of a ranking that is refused as C takes it.
    fn told(ranked: Result<u32, Refusal>) -> Ranks
        ensures { result ≡ ranks_of (λ refusal. refusal) ranked }
    {
        match ranked {
            Ok(highest) => Ranks {
                refusal: granted(),
                highest,
            },
            Err(refusal) => Ranks {
                refusal,
                highest: 0,
            },
        }
    }
}
