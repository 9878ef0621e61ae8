//! The numbers of a system, put into bytes one behind the other.
ghost use Rattle.std.specs.Prelude.{[], ◌∷◌};
ghost use Rattle.codec.specs.Sequence.{Cursor};
ghost use Rattle.files.specs.Flattening.{readings_flattened, move_flattened, next_flattened, row_flattened, rows_flattened, flattened};
ghost use Rattle.files.specs.Wrote.{Put, Wrote};

use crate::small::SmallSystem;
use codec::{Writer, file_reading};
use systems::System;

/// Puts a number.
fn put_number(number: u16, writer: &mut Writer)
    ensures { Wrote writer.old (number ∷ []) writer.new }
{
    writer.put(number);
}

// State and writer are two parameters: a struct of both would be made anew for each row.
impl<S: System> SmallSystem<'_, S> {
    /// Puts the readings at a state.
    fn put_readings(&self, state: u16, writer: &mut Writer)
        ensures { Wrote writer.old
            (readings_flattened (S.System.meaning self.now.system.now) state) writer.new }
    {
        for channel in 0..self.system.channels() {
            put_number(file_reading(self.system.reading(state, channel)), writer);
        }
    }

    /// Puts the next state of a pair of moves.
    fn put_next_state(&self, state: u16, controller: u16, environment: u16, writer: &mut Writer)
        ensures { Wrote writer.old
            ((S.System.meaning self.now.system.now).next state controller environment ∷ [])
            writer.new }
    {
        put_number(self.system.next(state, controller, environment), writer);
    }

    /// Puts the next states of a controller move at a state.
    fn put_move(&self, state: u16, controller: u16, writer: &mut Writer)
        ensures { Wrote writer.old
            (move_flattened (S.System.meaning self.now.system.now) state controller) writer.new }
    {
        for environment in 0..self.system.environment_moves(state) {
            self.put_next_state(state, controller, environment, writer);
        }
    }

    /// Puts all next states at a state.
    fn put_next_states(&self, state: u16, writer: &mut Writer)
        ensures { Wrote writer.old
            (next_flattened (S.System.meaning self.now.system.now) state) writer.new }
    {
        for controller in 0..self.system.controller_moves(state) {
            self.put_move(state, controller, writer);
        }
    }

    /// Puts the row of a state.
    fn put_row(&self, state: u16, writer: &mut Writer)
        ensures { Wrote writer.old
            (row_flattened (S.System.meaning self.now.system.now) state) writer.new }
    {
        self.put_readings(state, writer);
        put_number(self.system.controller_moves(state), writer);
        put_number(self.system.environment_moves(state), writer);
        self.put_next_states(state, writer);
    }

    /// Puts the rows of all states.
    fn put_rows(&self, writer: &mut Writer)
        ensures { Wrote writer.old (rows_flattened (S.System.meaning self.now.system.now) (S.System.meaning self.now.system.now).states) writer.new }
    {
        for state in 0..self.system.states() {
            self.put_row(state, writer);
        }
    }

    /// Puts the whole system at the front of the bytes, and answers how many bytes it takes.
    pub(crate) fn put(&self, bytes: &mut [u8]) -> usize
        ensures { Put (record { bytes = bytes.old; place = 0 })
            (flattened (S.System.meaning self.now.system.now))
            (record { bytes = bytes.new; place = result }) }
    {
        let mut writer = Writer::new(bytes);
        put_number(self.system.states(), &mut writer);
        put_number(u16::from(self.system.channels()), &mut writer);
        self.put_rows(&mut writer);
        writer.place()
    }
}
