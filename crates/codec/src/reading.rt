//! Readings as the numbers that a file holds for them.
ghost use Rattle.std.specs.Prelude.{◌≡◌};
ghost use Rattle.codec.specs.Filing.{filed, unfiled};

/// The number that files the reading.
pub fn file_reading(reading: i16) -> u16
    ensures answer { result ≡ filed reading }
    ensures inverse { unfiled result ≡ reading }
{
    // casts of what fits: a `TryFrom` would bring an error that never comes
    let doubled = 2 * i32::from(reading);
    if reading < 0 {
        (-doubled - 1) as u16
    } else {
        doubled as u16
    }
}

/// The reading that the number files.
#[tactic(auto, using(std::proofs::lemmas::Int::ints, std::proofs::lemmas::Bool::Decides::nat_tests, crate::proofs::Filed::filed_back))]
pub fn unfile_reading(number: u16) -> i16
    ensures answer { result ≡ unfiled number }
    ensures inverse { filed result ≡ number }
{
    // a cast of what is at most 32,767: a `TryFrom` would bring an error that never comes
    let half = (number / 2) as i16;
    if number % 2 == 0 { half } else { -half - 1 }
}
