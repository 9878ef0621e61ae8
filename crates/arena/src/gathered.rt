//! An arena that asks each question of the arena below once.
ghost use Rattle.std.specs.Prelude.{◌≡◌, ℕ, ◌+◌, ◌*◌, ◌<◌, ◌≤◌, length, nat_le, IfSome};
ghost use Rattle.systems.specs.Limits.{max_move_pairs, max_moves, max_states};
ghost use Rattle.arena.specs.Gathered.{Answers, FewMoves, LeadsTo};
ghost use Rattle.arena.specs.Table.{number_standing, pairs};

use crate::arena::Arena;
use crate::board::Board;
use crate::table::number_of_pairs;
use systems::{MAX_MOVE_PAIRS, MAX_MOVES, MAX_STATES};

/// How many states have a slot.
// A cast, since no `From` goes into a constant.
const STATE_SLOTS: usize = MAX_STATES as usize;

/// How many slots the next states take.
const NEXT_SLOTS: usize = STATE_SLOTS * MAX_MOVE_PAIRS;

/// From so many pairs on, visiting them saves more questions than gathering asks.
const GATHERED_PAIRS: usize = 1_024;

/// Whether it pays to gather the arena for a visit of all its pairs.
pub fn pays_to_gather<A: Arena>(arena: &A) -> bool
    ensures { result ≡ nat_le GATHERED_PAIRS (pairs (A.Arena.view arena.now)) }
{
    number_of_pairs(arena) >= GATHERED_PAIRS
}

impl<A: Arena> Board<'_, A> {
    /// Whether it pays to gather the arena for a visit of the pairs that stand.
    pub fn pays_to_gather_for_standing(&self) -> bool
        ensures { result
            ≡ nat_le GATHERED_PAIRS
            (number_standing (A.Arena.view self.now.arena.now) self.now.table.now) }
    {
        // a cast, since no `From` goes from `u32` to `usize`
        self.number_standing() as usize >= GATHERED_PAIRS
    }
}

/// The moves at the first states of a system, and where they lead.
#[derive(Drop)]
struct Moves {
    // how many states that is
    states: u16,
    controller: [u16; STATE_SLOTS],
    environment: [u16; STATE_SLOTS],
    // of at most 256 states, so that a byte tells each
    next: [u8; NEXT_SLOTS],
    ghost few_states: { states ≤ max_states },
    ghost few_moves: { FewMoves states controller environment },
}

/// The slot of a pair of moves at a state.
fn slot_of(state: u16, controller: u16, environment: u16) -> usize
    ensures { result ≡ state * max_move_pairs + controller * max_moves + environment }
{
    usize::from(state) * MAX_MOVE_PAIRS
        + usize::from(controller) * usize::from(MAX_MOVES)
        + usize::from(environment)
}

/// Writes into the slots how many moves there are at each of so many states.
fn write_numbers<F: Fn(u16) -> u16>(slots: &mut [u16], states: u16, moves_at: F)
    requires callable { F.IsAlwaysCallable moves_at }
    requires room { states ≤ length slots.old }
    ensures { (f : ℕ → ℕ) → ((w n : ℕ) → F.post moves_at w n → n ≡ f w) → Answers f states slots.new }
{
    for state in 0..states {
        slots[usize::from(state)] = moves_at(state);
    }
}

/// How many of the first states come before one at which a side has too many moves.
fn count_few(controller: &[u16], environment: &[u16], states: u16) -> u16
    requires controller { states ≤ length controller.now }
    requires environment { states ≤ length environment.now }
    ensures within { result ≤ states }
    ensures few { FewMoves result controller.now environment.now }
{
    for state in 0..states {
        let place = usize::from(state);
        if controller[place] > MAX_MOVES || environment[place] > MAX_MOVES {
            return state;
        }
    }
    states
}

/// Writes into the slots where each pair of moves leads from each of so many states.
fn write_next_states<F: Fn(u16, u16, u16) -> u16>(slots: &mut [u8], states: u16, next: F)
    requires callable { F.IsAlwaysCallable next }
    requires bound { (w a b v : ℕ) → F.post next w a b v → v < max_states }
    requires room { states * max_move_pairs ≤ length slots.old }
    ensures { (to : ℕ → ℕ → ℕ → ℕ) → ((w a b v : ℕ) → F.post next w a b v → v ≡ to w a b) → LeadsTo to states slots.new }
{
    for state in 0..states {
        for controller in 0..MAX_MOVES {
            for environment in 0..MAX_MOVES {
                // a cast of what is below 256: a `TryFrom` would bring an error that never comes
                slots[slot_of(state, controller, environment)] = next(
                    state,
                    controller,
                    environment,
                ) as u8;
            }
        }
    }
}

impl Moves {
    /// Asks for the moves at each of so many states, up to one with too many moves, and for where they lead; for none if there are more than 256 states.
    fn gather<C: Fn(u16) -> u16, E: Fn(u16) -> u16, N: Fn(u16, u16, u16) -> u16>(
        states: u16,
        controller_moves: C,
        environment_moves: E,
        next: N,
    ) -> Moves
        requires controller { C.IsAlwaysCallable controller_moves }
        requires environment { E.IsAlwaysCallable environment_moves }
        requires next { N.IsAlwaysCallable next }
        requires bound { states ≤ max_states → (w a b v : ℕ) → N.post next w a b v
            → v < max_states }
        ensures controller { (p : ℕ → ℕ) → ((w n : ℕ) → C.post controller_moves w n → n ≡ p w) → Answers p result.states result.controller }
        ensures environment { (q : ℕ → ℕ) → ((w n : ℕ) → E.post environment_moves w n → n ≡ q w) → Answers q result.states result.environment }
        ensures next { (to : ℕ → ℕ → ℕ → ℕ) → ((w a b v : ℕ) → N.post next w a b v → v ≡ to w a b) → LeadsTo to result.states result.next }
    {
        let mut moves = Moves {
            states: 0,
            controller: [0; STATE_SLOTS],
            environment: [0; STATE_SLOTS],
            next: [0; NEXT_SLOTS],
        };
        if states > MAX_STATES {
            return moves;
        }
        write_numbers(&mut moves.controller, states, controller_moves);
        write_numbers(&mut moves.environment, states, environment_moves);
        let few = count_few(&moves.controller, &moves.environment, states);
        write_next_states(&mut moves.next, few, next);
        moves.states = few;
        moves
    }

    /// How many moves the controller has at the state, if that was gathered.
    fn controller_moves(&self, state: u16) -> Option<u16>
        ensures { (p : ℕ → ℕ) → Answers p self.now.states self.now.controller → IfSome result (λ n. n ≡ p state) }
    {
        if state < self.states {
            Some(self.controller[usize::from(state)])
        } else {
            None
        }
    }

    /// How many moves the environment has at the state, if that was gathered.
    fn environment_moves(&self, state: u16) -> Option<u16>
        ensures { (q : ℕ → ℕ) → Answers q self.now.states self.now.environment → IfSome result (λ n. n ≡ q state) }
    {
        if state < self.states {
            Some(self.environment[usize::from(state)])
        } else {
            None
        }
    }

    /// Where the moves lead from the state, if that was gathered.
    fn next(&self, state: u16, controller: u16, environment: u16) -> Option<u16>
        ensures { (to : ℕ → ℕ → ℕ → ℕ) → LeadsTo to self.now.states self.now.next → IfSome result (λ v. v ≡ to state controller environment) }
    {
        let place = usize::from(state);
        if state < self.states
            && controller < self.controller[place]
            && environment < self.environment[place]
        {
            Some(u16::from(self.next[slot_of(state, controller, environment)]))
        } else {
            None
        }
    }
}

/// An arena, and what it answers on its first states and moves.
#[derive(Drop)]
pub struct Gathered<'a, A: Arena> {
    arena: &'a A,
    old_states: u16,
    new_states: u16,
    old: Moves,
    new: Moves,
    ghost old_count: { old_states ≡ (A.Arena.view arena.now).old_states },
    ghost new_count: { new_states ≡ (A.Arena.view arena.now).new_states },
    ghost old_controller: { Answers (A.Arena.view arena.now).old_controller_moves old.states old.controller },
    ghost old_environment: { Answers (A.Arena.view arena.now).old_environment_moves old.states old.environment },
    ghost old_next: { LeadsTo (A.Arena.view arena.now).old_next old.states old.next },
    ghost new_controller: { Answers (A.Arena.view arena.now).new_controller_moves new.states new.controller },
    ghost new_environment: { Answers (A.Arena.view arena.now).new_environment_moves new.states new.environment },
    ghost new_next: { LeadsTo (A.Arena.view arena.now).new_next new.states new.next },
}

impl<'a, A: Arena> Gathered<'a, A> {
    /// Gathers from the arena.
    pub fn new(arena: &'a A) -> Gathered<'a, A>
        ensures { result.arena.now ≡ arena.now }
    {
        let old_states = arena.old_states();
        let new_states = arena.new_states();
        Gathered {
            arena,
            old_states,
            new_states,
            old: Moves::gather(
                old_states,
                |state| arena.old_controller_moves(state),
                |state| arena.old_environment_moves(state),
                |state, controller, environment| arena.old_next(state, controller, environment),
            ),
            new: Moves::gather(
                new_states,
                |state| arena.new_controller_moves(state),
                |state| arena.new_environment_moves(state),
                |state, controller, environment| arena.new_next(state, controller, environment),
            ),
        }
    }

    /// What the arena below answers.
    #[cold]
    #[inline(never)]
    fn old_controller_moves_below(&self, state: u16) -> u16
        ensures { result ≡ (A.Arena.view self.now.arena.now).old_controller_moves state }
    {
        self.arena.old_controller_moves(state)
    }

    /// What the arena below answers.
    #[cold]
    #[inline(never)]
    fn old_environment_moves_below(&self, state: u16) -> u16
        ensures { result ≡ (A.Arena.view self.now.arena.now).old_environment_moves state }
    {
        self.arena.old_environment_moves(state)
    }

    /// What the arena below answers.
    #[cold]
    #[inline(never)]
    fn old_next_below(&self, state: u16, controller: u16, environment: u16) -> u16
        ensures { result ≡ (A.Arena.view self.now.arena.now).old_next state controller environment }
    {
        self.arena.old_next(state, controller, environment)
    }

    /// What the arena below answers.
    #[cold]
    #[inline(never)]
    fn new_controller_moves_below(&self, state: u16) -> u16
        ensures { result ≡ (A.Arena.view self.now.arena.now).new_controller_moves state }
    {
        self.arena.new_controller_moves(state)
    }

    /// What the arena below answers.
    #[cold]
    #[inline(never)]
    fn new_environment_moves_below(&self, state: u16) -> u16
        ensures { result ≡ (A.Arena.view self.now.arena.now).new_environment_moves state }
    {
        self.arena.new_environment_moves(state)
    }

    /// What the arena below answers.
    #[cold]
    #[inline(never)]
    fn new_next_below(&self, state: u16, controller: u16, environment: u16) -> u16
        ensures { result ≡ (A.Arena.view self.now.arena.now).new_next state controller environment }
    {
        self.arena.new_next(state, controller, environment)
    }
}

impl<A: Arena> Arena for Gathered<'_, A> {
    ghost view = { λ g. A.Arena.view g.arena.now };

    ghost closed = { λ g. A.Arena.closed g.arena.now };

    fn old_states(&self) -> u16 {
        self.old_states
    }

    fn new_states(&self) -> u16 {
        self.new_states
    }

    fn comparable(&self) -> bool {
        self.arena.comparable()
    }

    fn alike(&self, pair: (u16, u16)) -> bool {
        self.arena.alike(pair)
    }

    fn old_controller_moves(&self, state: u16) -> u16 {
        match self.old.controller_moves(state) {
            Some(moves) => moves,
            None => self.old_controller_moves_below(state),
        }
    }

    fn old_environment_moves(&self, state: u16) -> u16 {
        match self.old.environment_moves(state) {
            Some(moves) => moves,
            None => self.old_environment_moves_below(state),
        }
    }

    fn new_controller_moves(&self, state: u16) -> u16 {
        match self.new.controller_moves(state) {
            Some(moves) => moves,
            None => self.new_controller_moves_below(state),
        }
    }

    fn new_environment_moves(&self, state: u16) -> u16 {
        match self.new.environment_moves(state) {
            Some(moves) => moves,
            None => self.new_environment_moves_below(state),
        }
    }

    fn old_next(&self, state: u16, controller: u16, environment: u16) -> u16 {
        match self.old.next(state, controller, environment) {
            Some(next) => next,
            None => self.old_next_below(state, controller, environment),
        }
    }

    fn new_next(&self, state: u16, controller: u16, environment: u16) -> u16 {
        match self.new.next(state, controller, environment) {
            Some(next) => next,
            None => self.new_next_below(state, controller, environment),
        }
    }
}
