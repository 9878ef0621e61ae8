//! The questions that every system answers.
ghost use Rattle.std.specs.Prelude.{◌≡◌};
ghost use Rattle.systems.specs.Meaning.{Meaning, Lawful};

/// A system: states, channels with readings, moves of the controller and of the environment, and where they lead.
///
/// Out of range every question is answered 0.
// The two sides' moves are two questions, by a rule of this project.
pub trait System {
    // the numbers and functions that the answers are
    ghost meaning: { Self → Meaning };

    // that they obey the laws of systems
    ghost lawful: { (s : Self) → Lawful (meaning s) };

    /// How many states there are.
    fn states(&self) -> u16
        ensures { result ≡ (meaning self.now).states };

    /// How many channels there are.
    fn channels(&self) -> u8
        ensures { result ≡ (meaning self.now).channels };

    /// What the channel shows at the state.
    fn reading(&self, state: u16, channel: u8) -> i16
        ensures { result ≡ (meaning self.now).reading state channel };

    /// How many moves the controller has at the state.
    fn controller_moves(&self, state: u16) -> u16
        ensures { result ≡ (meaning self.now).controller_moves state };

    /// How many moves the environment has at the state.
    fn environment_moves(&self, state: u16) -> u16
        ensures { result ≡ (meaning self.now).environment_moves state };

    /// Where a controller move and an environment move together lead from the state.
    fn next(&self, state: u16, controller: u16, environment: u16) -> u16
        ensures { result ≡ (meaning self.now).next state controller environment };
}
