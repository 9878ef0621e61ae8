//! The question that every likeness answers.
ghost use Rattle.std.specs.Prelude.{◌≡◌, ℕ, Bool};
ghost use Rattle.systems.specs.Meaning.{Reading};

/// A likeness of readings, channel by channel.
pub trait Likeness {
    // whether two readings on a channel are alike
    ghost relation: { Self → ℕ → Reading → Reading → Bool };

    /// Whether the readings are alike on the channel. Asking refuses nothing and changes nothing.
    fn alike(&self, channel: u8, old: i16, new: i16) -> bool
        ensures { result ≡ relation self.now channel old new };
}
