//! Numbers and systems drawn by a fixed generator.
use std::alloc::{AllocError, Global};
use systems::{RowMut, row_range, words_taken, write_header};

/// What a drawn system looks like.
#[derive(Clone, Copy)]
pub(crate) struct Shape {
    pub(crate) states: u16,
    pub(crate) channels: u16,
    /// At most so many moves of the controller at a state.
    pub(crate) controller: u16,
    /// At most so many moves of the environment at a state.
    pub(crate) environment: u16,
    /// So many different readings, from the first on.
    pub(crate) readings: u16,
    pub(crate) first: i16,
}

/// A generator of numbers that look random: the same numbers in every run.
#[derive(Drop)]
pub(crate) struct Generator {
    last: u32,
}

/// The part of the words that holds the row of a state, where they reach so far.
fn row_words(words: &mut [u16], channels: u16, state: u16) -> Option<&mut [u16]> {
    let range = row_range(channels, state);
    if range.end <= words.len() {
        Some(&mut words[range])
    } else {
        None
    }
}

impl Generator {
    /// The generator's multiplier and increment.
    const FACTOR: u32 = 1_664_525;

    const INCREMENT: u32 = 1_013_904_223;

    /// A generator that starts from the seed.
    pub(crate) fn new(seed: u32) -> Generator {
        Generator { last: seed }
    }

    /// The next number below the bound; 0 where there is none.
    pub(crate) fn below(&mut self, bound: u16) -> u16 {
        self.last = self
            .last
            .wrapping_mul(Generator::FACTOR)
            .wrapping_add(Generator::INCREMENT);
        if bound == 0 {
            return 0;
        }
        // a cast of what is below a number of 16 bits: a `TryFrom` would bring an error that never comes
        ((self.last >> 16) % u32::from(bound)) as u16
    }

    /// Draws what a channel shows.
    fn draw_reading(&mut self, shape: Shape) -> i16 {
        let above = i16::try_from(self.below(shape.readings)).unwrap_or(i16::MAX);
        shape.first.saturating_add(above)
    }

    /// Draws the next states of a row with so many moves.
    fn draw_next_states(
        &mut self,
        row: &mut RowMut,
        states: u16,
        controller: u16,
        environment: u16,
    ) {
        for a in 0..controller {
            for b in 0..environment {
                row.set_next(a, b, self.below(states));
            }
        }
    }

    /// Draws the row of a state.
    fn draw_row(&mut self, row: &mut RowMut, shape: Shape) {
        for channel in 0..shape.channels {
            row.set_reading(channel, self.draw_reading(shape));
        }
        let controller = self.below(shape.controller).saturating_add(1);
        let environment = self.below(shape.environment).saturating_add(1);
        row.set_moves(controller, environment);
        self.draw_next_states(row, shape.states, controller, environment);
    }

    /// The words of a stored system of the shape, drawn.
    pub(crate) fn draw_system(
        &mut self,
        heap: Global,
        shape: Shape,
    ) -> Result<Vec<u16>, AllocError> {
        let mut words = vec![in heap; 0u16; words_taken(shape.states, shape.channels)]?;
        write_header(&mut words, shape.states, shape.channels);
        for state in 0..shape.states {
            if let Some(row) = row_words(&mut words, shape.channels, state) {
                self.draw_row(&mut RowMut::new(row, shape.channels), shape);
            }
        }
        Ok(words)
    }

    /// The words of a near copy of the system: one next state is drawn anew, in half of the cases.
    pub(crate) fn draw_near_copy(
        &mut self,
        heap: Global,
        words: &[u16],
        shape: Shape,
    ) -> Result<Vec<u16>, AllocError> {
        let mut words = words.to_vec(heap)?;
        let state = self.below(shape.states);
        let next = self.below(shape.states);
        if self.below(2) == 0 {
            if let Some(row) = row_words(&mut words, shape.channels, state) {
                RowMut::of(row, shape.channels).set_next(0, 0, next);
            }
        }
        Ok(words)
    }
}
