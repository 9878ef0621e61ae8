//! How a program ends.
ghost use Rattle.std.specs.Prelude.{◌≡◌};
ghost use Rattle.streams.specs.Ending.{status};

/// How a program ends that reads one input, where neither reading nor writing fails.
#[derive(Clone, Copy, Debug, PartialEq, Eq)]
pub enum Ending {
    /// It told what it was asked for.
    Told,
    /// The input is refused, and it told why.
    Refused,
    /// There was no memory, and it told that.
    NoMemory,
}

impl Ending {
    /// The status that the process ends with.
    pub fn status(self) -> u8
        ensures { result ≡ status self }
    {
        match self {
            Ending::Told => 0,
            Ending::Refused | Ending::NoMemory => 1,
        }
    }
}
