//! Why a call of a docket, or a certificate check, is refused.
ghost use Rattle.std.specs.Prelude.{◌≡◌};
ghost use Rattle.docket.specs.Refusals.{refusal_number};

/// Why a call is refused, and the number of that refusal.
#[derive(Clone, Copy, Debug, PartialEq, Eq)]
pub enum Refusal {
    /// A system has more than 256 states.
    TooManyStates = 1,
    /// The numbers of channels differ, or are above 8.
    NotComparable = 2,
    /// Somewhere a side has more than 16 moves.
    TooManyMoves = 3,
    /// The table has fewer entries than there are pairs.
    TableTooShort = 4,
    /// The docket is closed.
    Closed = 5,
    /// The docket was opened for systems of other sizes.
    OtherSizes = 6,
    /// The pair names a state out of range.
    NoSuchState = 7,
    /// The pair is struck already.
    AlreadyStruck = 8,
    /// The old controller has no such move there.
    NoSuchMove = 9,
    /// Sight is named, and the pair is alike.
    Alike = 10,
    /// The move does not refute the pair.
    NotRefuted = 11,
    /// As many strikes were granted as there are pairs.
    Full = 12,
}

impl Refusal {
    /// The number of the refusal.
    pub fn number(self) -> u8
        ensures { result ≡ refusal_number self }
    {
        // a cast, which gives the numbers above
        self as u8
    }
}
