//! Why a system file is refused.
ghost use Rattle.std.specs.Prelude.{◌≡◌};
ghost use Rattle.files.specs.Refusal.{refusal};

use codec::NumberFault;
use systems::LayoutFault;

/// Why a number of a system file is refused.
// No `Layout(LayoutFault)`: contracts and definitions name each case, and would name each through two enums.
#[derive(Clone, Copy, Debug, PartialEq, Eq)]
pub enum Reason {
    /// It cannot be read.
    Number(NumberFault),
    /// The number of states is not 1 to 256.
    States,
    /// The number of channels is not 1 to 8.
    Channels,
    /// The memory is too short for so many states and channels.
    TooShort,
    /// A number of moves is not 1 to 16.
    Moves,
    /// A next state is not a state.
    NextState,
}

/// A number of a system file that is refused.
#[derive(Clone, Copy, Debug, PartialEq, Eq)]
pub struct ReadFault {
    pub reason: Reason,
    /// Where the number begins.
    pub place: usize,
    /// The state whose row it is in; 0 at the numbers of states and channels.
    // 0 and no `Option`: a result that was left open, and is settled in docs/DECISIONS.md
    pub state: u16,
}

impl Reason {
    /// The number of the refusal.
    pub fn number(&self) -> u8
        ensures { result ≡ refusal self.now }
    {
        match self {
            Reason::Number(fault) => fault.number(),
            Reason::States => LayoutFault::States.number(),
            Reason::Channels => LayoutFault::Channels.number(),
            Reason::TooShort => LayoutFault::TooShort.number(),
            Reason::Moves => LayoutFault::Moves.number(),
            Reason::NextState => LayoutFault::NextState.number(),
        }
    }
}
