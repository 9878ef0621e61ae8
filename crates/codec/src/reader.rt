//! Numbers, bytes and parts that stand one behind the other in bytes.
ghost use Rattle.std.specs.Prelude.{◌≡◌, ◌+◌, is_some, if◌then◌else◌, option_copied};
ghost use Rattle.codec.specs.Sequence.{after, byte_at, number_alone, number_at, part_at, value_at};

use crate::number::{NumberFault, read_number};
use std::marker::Model;

/// Bytes, and the place in them where what comes next begins.
///
/// A place counts bytes from the front, from 0, and may lie at the end of the bytes or behind it, where nothing comes.
#[derive(Drop)]
pub struct Reader<'a> {
    bytes: &'a [u8],
    place: usize,
}

impl<'a> Model for Reader<'a> {
    ghost use Rattle.codec.specs.Sequence.{Cursor};

    ghost Value = { Cursor };

    ghost view = { λ reader. record { bytes = reader.bytes.now; place = reader.place } };
}

#[tactic(auto, unfolding(crate::specs::Sequence::value_at, crate::specs::Sequence::after))]
impl<'a> Reader<'a> {
    /// Reads the bytes from the place on.
    pub fn new(bytes: &'a [u8], place: usize) -> Reader<'a>
        ensures { result ≡ record { bytes = bytes.now; place = place } }
    {
        Reader { bytes, place }
    }

    /// Where what comes next begins.
    pub fn place(&self) -> usize
        ensures { result ≡ self.now.place }
    {
        self.place
    }

    /// Takes the next byte; where there is none, stays.
    pub fn byte(&mut self) -> Option<u8>
        ensures byte { result ≡ byte_at self.old.bytes self.old.place }
        ensures place { self.new ≡ (if is_some result
            then record self.old { place = self.old.place + 1 } else self.old) }
    {
        let byte = *self.bytes.get(self.place)?;
        self.place += 1;
        Some(byte)
    }

    /// Takes so many bytes; where there are fewer, stays.
    pub fn part(&mut self, count: usize) -> Option<&'a [u8]>
        ensures part { option_copied result ≡ part_at self.old.bytes self.old.place count }
        ensures place { self.new ≡ (if is_some result
            then record self.old { place = self.old.place + count } else self.old) }
    {
        let part = self.bytes.get(self.place..)?.get(..count)?;
        self.place += count;
        Some(part)
    }

    /// Reads the next number; where there is none, stays.
    ///
    /// # Errors
    ///
    /// That of `read_number` on the bytes from the place on.
    pub fn number(&mut self) -> Result<u16, NumberFault>
        ensures answer { result ≡ number_alone (number_at self.old.bytes self.old.place) }
        ensures place { self.new ≡ record self.old { place = after self.old.bytes self.old.place } }
    {
        let rest = self.bytes.get(self.place..).unwrap_or(&[]);
        let (value, rest) = read_number(rest)?;
        self.place = self.bytes.len() - rest.len();
        Ok(value)
    }

    /// Reads the next number; where there is none, stays and answers 0.
    ///
    /// It serves where the bytes were tested, so that every number is there.
    pub fn number_or_zero(&mut self) -> u16
        ensures value { result ≡ value_at self.old.bytes self.old.place }
        ensures place { self.new ≡ record self.old { place = after self.old.bytes self.old.place } }
    {
        self.number().unwrap_or(0)
    }
}
