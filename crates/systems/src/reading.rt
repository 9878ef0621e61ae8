//! The word that holds a reading.
ghost use Rattle.std.specs.Prelude.{◌≡◌};
ghost use Rattle.systems.specs.Layout.{biased, unbiased};

/// A reading is stored with this added.
pub const READING_BIAS: i32 = 32_768;

/// The word that holds reading 0.
// A cast, since no `From` goes into a constant.
pub(crate) const ZERO_WORD: u16 = READING_BIAS as u16;

/// The word that holds the reading.
pub(crate) fn word_of_reading(reading: i16) -> u16
    ensures { result ≡ biased reading }
{
    // a cast of what is 0 to 65,535: a `TryFrom` would bring an error that never comes
    (i32::from(reading) + READING_BIAS) as u16
}

/// The reading that the word holds.
pub(crate) fn reading_of_word(word: u16) -> i16
    ensures { result ≡ unbiased word }
{
    // a cast of what is -32,768 to 32,767, as above
    (i32::from(word) - READING_BIAS) as i16
}
