//! Systems that are small enough for a file.
ghost use Rattle.std.specs.Prelude.{◌≡◌, ℕ, if◌then◌else◌, length, nat_lt, IfOk, IfErr, OnOk, Some, None};
ghost use Rattle.systems.specs.Bounded.{all_below};
ghost use Rattle.files.specs.Few.{Few};
ghost use Rattle.files.specs.SystemWrite.{system_bytes, few_moves, write_fault};

use crate::system_write::SystemWriteFault;
use systems::{MAX_CHANNELS, MAX_MOVES, MAX_STATES, System};

/// A system that is small enough for a file.
#[derive(Drop)]
pub(crate) struct SmallSystem<'a, S: System> {
    pub(crate) system: &'a S,
    ghost few: { Few (S.System.meaning system.now) },
}

/// Whether each side has at most 16 moves at the state.
fn has_few_moves<S: System>(system: &S, state: u16) -> bool
    ensures { result ≡ few_moves (S.System.meaning system.now) state }
{
    system.controller_moves(state) <= MAX_MOVES && system.environment_moves(state) <= MAX_MOVES
}

/// Whether each side has at most 16 moves at every state.
// Not one function with `have_few_moves` of `docket`: it would be public and ask of its closure that it can be called, and no public function here asks anything.
fn has_few_moves_throughout<S: System>(system: &S) -> bool
    ensures { result ≡ all_below (S.System.meaning system.now).states (few_moves (S.System.meaning system.now)) }
{
    (0..system.states()).all(|state| has_few_moves(system, state))
}

impl<'a, S: System> SmallSystem<'a, S> {
    /// The system, where its sizes are small enough.
    #[tactic(auto, using(crate::proofs::FileSize::few_from))]
    pub(crate) fn new(system: &'a S) -> Result<Self, SystemWriteFault>
        ensures same { IfOk result (λ small. small.system.now ≡ system.now) }
        ensures room { OnOk result ((room : ℕ) → write_fault (S.System.meaning system.now) room ≡ (if nat_lt room (length (system_bytes (S.System.meaning system.now))) then Some SystemWriteFault.TooFewBytes else None)) }
        ensures fault { IfErr result (λ why. (room : ℕ) → write_fault (S.System.meaning system.now) room ≡ Some why) }
    {
        if system.states() > MAX_STATES {
            return Err(SystemWriteFault::States);
        }
        if u16::from(system.channels()) > MAX_CHANNELS {
            return Err(SystemWriteFault::Channels);
        }
        if !has_few_moves_throughout(system) {
            return Err(SystemWriteFault::Moves);
        }
        Ok(SmallSystem { system })
    }
}
