//! Numbers put into bytes one behind the other.
ghost use Rattle.std.specs.Prelude.{◌≡◌};
ghost use Rattle.codec.specs.Put.{put_number, written};

use crate::number::{encoded_len, write_number};

/// Bytes, and the place in them where the next number goes.
// No `Model`: the lender of the bytes would not know any more what they hold afterwards.
#[derive(Drop)]
pub struct Writer<'a> {
    bytes: &'a mut [u8],
    place: usize,
}

impl<'a> Writer<'a> {
    /// Writes from the front of the bytes on.
    pub fn new(bytes: &'a mut [u8]) -> Writer<'a>
        ensures same_bytes { result.bytes.ghost_name ≡ bytes.entry.ghost_name }
        ensures written { written result ≡ record { bytes = bytes.old; place = 0 } }
    {
        Writer { bytes, place: 0 }
    }

    /// Where the next number goes.
    pub fn place(&self) -> usize
        ensures { result ≡ self.now.place }
    {
        self.place
    }

    /// Puts the number at the place if it fits there, and moves behind it, whether it fits or not.
    ///
    /// So over no bytes at all this only measures. No place is above `usize::MAX`, where the last ones end.
    pub fn put(&mut self, number: u16)
        ensures same_bytes { self.new.bytes.ghost_name ≡ self.old.bytes.ghost_name }
        ensures written { written self.new ≡ put_number (written self.old) number }
    {
        let place = self.place;
        let bytes = &mut *self.bytes;
        // a test and a range: after a write through what `get_mut` gives, a proof knows no byte any more
        if place <= bytes.len() {
            let _ = write_number(number, &mut bytes[place..]);
        }
        self.place = place.saturating_add(encoded_len(number));
    }
}
