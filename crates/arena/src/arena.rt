//! The questions that every arena answers.
ghost use Rattle.std.specs.Prelude.{◌≡◌};
ghost use Rattle.arena.specs.Arena.{Arena as View, Closed};

/// An arena: an old system and a new one side by side, as far as the game of an exchange sees them.
///
/// A pair is an old state and a new one.
// Each question stands twice. Two values of `System` instead would ask all their laws of every arena, where one law is needed; a question told which system is meant would choose between two fields of the view in every contract.
pub trait Arena {
    // the numbers and functions that the answers are
    ghost view: { Self → View };

    // that no moves lead out of the states
    ghost closed: { (s : Self) → Closed (view s) };

    /// How many states the old system has.
    fn old_states(&self) -> u16
        ensures { result ≡ (view self.now).old_states };

    /// How many states the new system has.
    fn new_states(&self) -> u16
        ensures { result ≡ (view self.now).new_states };

    /// Whether the readings of the two can be compared at all.
    fn comparable(&self) -> bool
        ensures { result ≡ (view self.now).comparable };

    /// Whether the readings of the pair are alike.
    fn alike(&self, pair: (u16, u16)) -> bool
        ensures { result ≡ (view self.now).alike pair.0 pair.1 };

    /// How many moves the old controller has at the old state.
    fn old_controller_moves(&self, state: u16) -> u16
        ensures { result ≡ (view self.now).old_controller_moves state };

    /// How many moves the old environment has at the old state.
    fn old_environment_moves(&self, state: u16) -> u16
        ensures { result ≡ (view self.now).old_environment_moves state };

    /// How many moves the new controller has at the new state.
    fn new_controller_moves(&self, state: u16) -> u16
        ensures { result ≡ (view self.now).new_controller_moves state };

    /// How many moves the new environment has at the new state.
    fn new_environment_moves(&self, state: u16) -> u16
        ensures { result ≡ (view self.now).new_environment_moves state };

    /// Where the moves lead the old system.
    fn old_next(&self, state: u16, controller: u16, environment: u16) -> u16
        ensures { result ≡ (view self.now).old_next state controller environment };

    /// Where the moves lead the new system.
    fn new_next(&self, state: u16, controller: u16, environment: u16) -> u16
        ensures { result ≡ (view self.now).new_next state controller environment };
}
