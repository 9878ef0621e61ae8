//! A buffer of records that wait to be sent.
ghost use Rattle.std.specs.Prelude.{◌≡◌, ◌<◌};
ghost use Rattle.systems.specs.Buffer.{buffer};
ghost use Rattle.systems.specs.BufferLaws.{buffer_lawful};

use crate::system::System;

/// A buffer that holds up to `capacity` records: its states count them, and its one channel shows how many there are.
#[derive(Clone, Copy)]
pub struct Buffer {
    capacity: u8,
    // said here, since the laws of systems are to hold of every number in the field
    ghost ok: { capacity < 256 },
}

// What the moves are numbered, also those that no answer below depends on.
const _: () = prove!(Buffer::WAIT == 0 && Buffer::TAKE == 1 && Buffer::SEND == 2);

const _: () = prove!(Buffer::RADIO_UP == 0 && Buffer::RADIO_DOWN == 1);

impl Buffer {
    // Moves are numbers and no enum, since a system is asked by number.

    /// The controller waits.
    pub const WAIT: u16 = 0;

    /// The controller takes a record into the buffer; a full buffer stays full.
    pub const TAKE: u16 = 1;

    /// The controller sends a record, which leaves the buffer only if the radio is up.
    pub const SEND: u16 = 2;

    /// How many moves the controller has.
    const CONTROLLER_MOVES: u16 = 3;

    /// The environment has the radio up.
    pub const RADIO_UP: u16 = 0;

    /// The environment has the radio down.
    pub const RADIO_DOWN: u16 = 1;

    /// How many moves the environment has.
    const ENVIRONMENT_MOVES: u16 = 2;

    /// The buffer with room for so many records.
    pub fn new(capacity: u8) -> Buffer
        ensures { result.capacity ≡ capacity }
    {
        Buffer { capacity }
    }
}

impl System for Buffer {
    ghost meaning = { λ s. buffer s.capacity };

    ghost lawful = { λ s. buffer_lawful s.capacity s.ok };

    fn states(&self) -> u16 {
        u16::from(self.capacity) + 1
    }

    fn channels(&self) -> u8 {
        1
    }

    fn reading(&self, state: u16, channel: u8) -> i16 {
        if state >= self.states() || channel >= self.channels() {
            return 0;
        }
        // a cast of what is at most 255: a `TryFrom` would bring an error that never comes
        state as i16
    }

    fn controller_moves(&self, state: u16) -> u16 {
        if state >= self.states() {
            return 0;
        }
        Self::CONTROLLER_MOVES
    }

    fn environment_moves(&self, state: u16) -> u16 {
        if state >= self.states() {
            return 0;
        }
        Self::ENVIRONMENT_MOVES
    }

    fn next(&self, state: u16, controller: u16, environment: u16) -> u16 {
        if controller >= self.controller_moves(state)
            || environment >= self.environment_moves(state)
        {
            return 0;
        }
        match (controller, environment) {
            (Self::TAKE, _) => (state + 1).min(u16::from(self.capacity)),
            (Self::SEND, Self::RADIO_UP) => state.saturating_sub(1),
            _ => state,
        }
    }
}
