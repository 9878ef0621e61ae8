//! Whether two systems and a table serve a docket.
ghost use Rattle.std.specs.Prelude.{◌≡◌, ◌≤◌, ℕ, OnOk};
ghost use Rattle.systems.specs.Limits.{max_states};
ghost use Rattle.systems.specs.Refused.{unless};
ghost use Rattle.arena.specs.Table.{pairs};
ghost use Rattle.docket.specs.Refusals.{few_moves, few_moves_in_both, misfit, opening_refusal};

use crate::refusal::Refusal;
use arena::{Arena, number_of_pairs};
use systems::{MAX_MOVES, MAX_STATES};

/// Whether no side has too many moves at any of so many states, where `moves_at` gives the controller's and the environment's.
fn have_few_moves<F: Fn(u16) -> (u16, u16)>(states: u16, moves_at: F) -> bool
    requires { F.IsAlwaysCallable moves_at }
    ensures { (controller environment : ℕ → ℕ) → ((w : ℕ) (moves : ℕ × ℕ) → F.post moves_at w moves → moves ≡ (controller w, environment w)) → result ≡ few_moves states controller environment }
{
    (0..states).all(|state| {
        let (controller, environment) = moves_at(state);
        controller <= MAX_MOVES && environment <= MAX_MOVES
    })
}

/// Whether no side of either system has too many moves at any state.
fn have_few_moves_in_both<A: Arena>(arena: &A) -> bool
    ensures { result ≡ few_moves_in_both (A.Arena.view arena.now) }
{
    have_few_moves(arena.old_states(), |state| {
        (
            arena.old_controller_moves(state),
            arena.old_environment_moves(state),
        )
    }) && have_few_moves(arena.new_states(), |state| {
        (
            arena.new_controller_moves(state),
            arena.new_environment_moves(state),
        )
    })
}

/// Checks that the systems and a table of so many entries serve, whatever the systems' sizes.
pub(crate) fn check_fit<A: Arena>(arena: &A, entries: usize) -> Result<(), Refusal>
    ensures answer { result ≡ unless (misfit (A.Arena.view arena.now) entries) tt }
    ensures space { OnOk result (pairs (A.Arena.view arena.now) ≤ entries) }
{
    if !arena.comparable() {
        return Err(Refusal::NotComparable);
    }
    if !have_few_moves_in_both(arena) {
        return Err(Refusal::TooManyMoves);
    }
    if entries < number_of_pairs(arena) {
        return Err(Refusal::TableTooShort);
    }
    Ok(())
}

/// Checks that a docket can be opened for the systems, with a table of so many entries.
pub fn check_opening<A: Arena>(arena: &A, entries: usize) -> Result<(), Refusal>
    ensures answer { result ≡ unless (opening_refusal (A.Arena.view arena.now) entries) tt }
    ensures old { OnOk result ((A.Arena.view arena.now).old_states ≤ max_states) }
    ensures new { OnOk result ((A.Arena.view arena.now).new_states ≤ max_states) }
    ensures space { OnOk result (pairs (A.Arena.view arena.now) ≤ entries) }
{
    if arena.old_states() > MAX_STATES || arena.new_states() > MAX_STATES {
        return Err(Refusal::TooManyStates);
    }
    check_fit(arena, entries)
}
