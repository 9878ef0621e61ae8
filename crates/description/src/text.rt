//! What a system looks like as text, for a person.
ghost use Rattle.std.specs.Prelude.{◌≡◌, IfOk, Some, string_bytes};
ghost use Rattle.description.specs.Text.{system_text, state_text, readings_line, moves_text};

use std::alloc::{AllocError, Global};
use std::fmt;
use systems::System;

/// The whole system as text: its sizes, and state by state the readings, the moves and where each pair of moves leads.
pub fn system_text<S: System>(heap: Global, system: &S) -> Result<String, AllocError>
    ensures { IfOk result (λ text. string_bytes text ≡ system_text (S.System.meaning system.now)) }
{
    Whole(system).to_string(heap)
}

/// A whole system: its sizes, and state by state the readings, the moves and where each pair of moves leads.
#[derive_where(Clone, Copy)]
pub(crate) struct Whole<'a, S>(pub(crate) &'a S);

impl<S: System> fmt::Display for Whole<'_, S> {
    ghost output = { λ x. Some (system_text (S.System.meaning x.0.now)) };

    #[tactic(auto, using(crate::proofs::Texts::written_more))]
    fn fmt<W: fmt::Write>(&self, f: &mut fmt::Formatter<W>) -> fmt::Result {
        let system = self.0;
        writeln!(f, "states {}", system.states())?;
        writeln!(f, "channels {}", system.channels())?;
        for number in 0..system.states() {
            write!(f, "{}", State { system, number })?;
        }
        Ok(())
    }
}

/// What is known of a state, line by line.
#[derive_where(Clone, Copy)]
struct State<'a, S> {
    system: &'a S,
    number: u16,
}

impl<S: System> fmt::Display for State<'_, S> {
    ghost output = { λ x. Some (state_text (S.System.meaning x.system.now) x.number) };

    fn fmt<W: fmt::Write>(&self, f: &mut fmt::Formatter<W>) -> fmt::Result {
        let State { system, number } = *self;
        writeln!(f, "state {number}")?;
        write!(f, "{}", Readings(*self))?;
        writeln!(f, "  controller moves {}", system.controller_moves(number))?;
        writeln!(
            f,
            "  environment moves {}",
            system.environment_moves(number)
        )?;
        write!(f, "{}", Moves(*self))
    }
}

/// The line of a state's readings.
#[derive_where(Clone, Copy)]
struct Readings<'a, S>(State<'a, S>);

impl<S: System> fmt::Display for Readings<'_, S> {
    ghost output = { λ x. Some (readings_line (S.System.meaning x.0.system.now) x.0.number) };

    fn fmt<W: fmt::Write>(&self, f: &mut fmt::Formatter<W>) -> fmt::Result {
        let State { system, number } = self.0;
        write!(f, "  readings")?;
        for channel in 0..system.channels() {
            write!(f, " {}", system.reading(number, channel))?;
        }
        writeln!(f)
    }
}

/// A line for each pair of moves at a state.
#[derive_where(Clone, Copy)]
struct Moves<'a, S>(State<'a, S>);

impl<S: System> fmt::Display for Moves<'_, S> {
    ghost output = { λ x. Some (moves_text (S.System.meaning x.0.system.now) x.0.number) };

    #[tactic(auto, using(crate::proofs::Texts::written_more))]
    fn fmt<W: fmt::Write>(&self, f: &mut fmt::Formatter<W>) -> fmt::Result {
        let State { system, number } = self.0;
        for controller in 0..system.controller_moves(number) {
            for environment in 0..system.environment_moves(number) {
                let next = system.next(number, controller, environment);
                writeln!(
                    f,
                    "  move {controller} against {environment} leads to {next}"
                )?;
            }
        }
        Ok(())
    }
}
