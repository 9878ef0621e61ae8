//! The arena of two systems and a likeness.
ghost use Rattle.std.specs.Prelude.{◌≡◌};
ghost use Rattle.arena.specs.Exchange.{exchange, exchange_closed, alike_on_all};

use crate::arena::Arena;
use likeness::Likeness;
use systems::{MAX_CHANNELS, System};

/// The exchange of an old system for a new one: both lent, with the likeness that compares their readings.
#[derive_where(Clone, Copy)]
pub struct Exchange<'a, S, T, L> {
    pub old: &'a S,
    pub new: &'a T,
    pub likeness: &'a L,
}

impl<S: System, T: System, L: Likeness> Exchange<'_, S, T, L> {
    /// Whether the old state and the new one are alike on the channel.
    fn alike_on(&self, pair: (u16, u16), channel: u8) -> bool
        ensures { result ≡ L.Likeness.relation self.now.likeness.now channel ((S.System.meaning self.now.old.now).reading pair.0 channel) ((T.System.meaning self.now.new.now).reading pair.1 channel) }
    {
        let (old_state, new_state) = pair;
        self.likeness.alike(
            channel,
            self.old.reading(old_state, channel),
            self.new.reading(new_state, channel),
        )
    }

    /// Whether the old state and the new one are alike on every channel of the old system.
    fn alike_on_all(&self, pair: (u16, u16)) -> bool
        ensures { result ≡ alike_on_all (S.System.meaning self.now.old.now) (T.System.meaning self.now.new.now) (L.Likeness.relation self.now.likeness.now) pair.0 pair.1 }
    {
        (0..self.old.channels()).all(|channel| self.alike_on(pair, channel))
    }
}

impl<S: System, T: System, L: Likeness> Arena for Exchange<'_, S, T, L> {
    ghost view = { λ e. exchange (S.System.meaning e.old.now) (T.System.meaning e.new.now) (L.Likeness.relation e.likeness.now) };

    ghost closed = { λ e. exchange_closed (S.System.meaning e.old.now) (T.System.meaning e.new.now) (L.Likeness.relation e.likeness.now) (S.System.lawful e.old.now) (T.System.lawful e.new.now) };

    fn old_states(&self) -> u16 {
        self.old.states()
    }

    fn new_states(&self) -> u16 {
        self.new.states()
    }

    fn comparable(&self) -> bool {
        self.old.channels() == self.new.channels() && u16::from(self.old.channels()) <= MAX_CHANNELS
    }

    fn alike(&self, pair: (u16, u16)) -> bool {
        self.alike_on_all(pair)
    }

    fn old_controller_moves(&self, state: u16) -> u16 {
        self.old.controller_moves(state)
    }

    fn old_environment_moves(&self, state: u16) -> u16 {
        self.old.environment_moves(state)
    }

    fn new_controller_moves(&self, state: u16) -> u16 {
        self.new.controller_moves(state)
    }

    fn new_environment_moves(&self, state: u16) -> u16 {
        self.new.environment_moves(state)
    }

    fn old_next(&self, state: u16, controller: u16, environment: u16) -> u16 {
        self.old.next(state, controller, environment)
    }

    fn new_next(&self, state: u16, controller: u16, environment: u16) -> u16 {
        self.new.next(state, controller, environment)
    }
}
