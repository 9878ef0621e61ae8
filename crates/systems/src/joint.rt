//! Two systems side by side, as one.
ghost use Rattle.std.specs.Prelude.{◌≡◌, ◌/◌, ◌%◌, ◌≤◌};
ghost use Rattle.systems.specs.Joint.{joint};
ghost use Rattle.systems.specs.JointLaws.{joint_lawful};

use crate::system::System;

/// Two systems that step together.
///
/// A state of the joint is a pair of states, and a move of a side is a pair of moves: each pair is one number, which the second's count splits by division.
/// The channels are the first's and then the second's. Counts stop at the most that their type holds, and a next state at the last state.
#[derive(Clone, Copy)]
pub struct Joint<A, B> {
    first: A,
    second: B,
}

impl<A, B> Joint<A, B> {
    /// The two systems as one.
    pub fn new(first: A, second: B) -> Joint<A, B>
        ensures first { result.first ≡ first }
        ensures second { result.second ≡ second }
    {
        Joint { first, second }
    }
}

/// The two numbers that a pair's number means, where the second is one of so many.
fn split(pair: u16, seconds: u16) -> (u16, u16)
    requires { 1 ≤ seconds }
    ensures first { result.0 ≡ pair / seconds }
    ensures second { result.1 ≡ pair % seconds }
{
    (pair / seconds, pair % seconds)
}

impl<A, B: System> Joint<A, B> {
    /// The states of the two systems at a state of the joint.
    fn halves(&self, state: u16) -> (u16, u16)
        ensures first { result.0 ≡ state / (B.System.meaning self.now.second).states }
        ensures second { result.1 ≡ state % (B.System.meaning self.now.second).states }
    {
        split(state, self.second.states())
    }
}

impl<A: System, B: System> System for Joint<A, B> {
    ghost meaning = { λ s. joint (A.System.meaning s.first) (B.System.meaning s.second) };

    ghost lawful = { λ s. joint_lawful (A.System.meaning s.first) (B.System.meaning s.second) (A.System.lawful s.first) (B.System.lawful s.second) };

    fn states(&self) -> u16 {
        self.first.states().saturating_mul(self.second.states())
    }

    fn channels(&self) -> u8 {
        self.first.channels().saturating_add(self.second.channels())
    }

    fn reading(&self, state: u16, channel: u8) -> i16 {
        if state >= self.states() || channel >= self.channels() {
            return 0;
        }
        let (first, second) = self.halves(state);
        let first_channels = self.first.channels();
        if channel < first_channels {
            self.first.reading(first, channel)
        } else {
            self.second.reading(second, channel - first_channels)
        }
    }

    // two bodies, as the two sides' moves are two questions: one told by closures which to ask would be longer
    fn controller_moves(&self, state: u16) -> u16 {
        if state >= self.states() {
            return 0;
        }
        let (first, second) = self.halves(state);
        self.first
            .controller_moves(first)
            .saturating_mul(self.second.controller_moves(second))
    }

    fn environment_moves(&self, state: u16) -> u16 {
        if state >= self.states() {
            return 0;
        }
        let (first, second) = self.halves(state);
        self.first
            .environment_moves(first)
            .saturating_mul(self.second.environment_moves(second))
    }

    fn next(&self, state: u16, controller: u16, environment: u16) -> u16 {
        if controller >= self.controller_moves(state)
            || environment >= self.environment_moves(state)
        {
            return 0;
        }
        let (first, second) = self.halves(state);
        let (first_controller, second_controller) = split(
            controller,
            self.second.controller_moves(second),
        );
        let (first_environment, second_environment) = split(
            environment,
            self.second.environment_moves(second),
        );
        self.first
            .next(first, first_controller, first_environment)
            .saturating_mul(self.second.states())
            .saturating_add(
                self.second
                    .next(second, second_controller, second_environment),
            )
            .min(self.states() - 1)
    }
}
