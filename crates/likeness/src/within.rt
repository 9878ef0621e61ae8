//! The likeness of readings that differ little.
ghost use Rattle.std.specs.Prelude.{◌≡◌, ◌<◌, ◌≤◌, replicate, Some, None, IfErr, IfOk, MatchResult};
ghost use Rattle.likeness.specs.Within.{Mild, first_too_wide, max_tolerance, set_answer, tolerance_channels, tolerance_of, tolerance_refusal, tolerances_after, within};
ghost use Rattle.likeness.specs.declared.within.ToleranceFault.TheVariants.{TooWide};

use crate::likeness::Likeness;
use systems::{LayoutFault, MAX_CHANNELS};

/// The widest tolerance.
pub const MAX_TOLERANCE: u16 = 1_000;

/// How many channels, from channel 0 on, can have a tolerance: as many as a system has whose readings are compared.
// A cast, since no `From` goes into a constant.
pub const TOLERANCE_CHANNELS: usize = MAX_CHANNELS as usize;

/// Why a tolerance is not set, and the number of that refusal.
#[derive(Clone, Copy, Debug, PartialEq, Eq)]
pub enum ToleranceFault {
    /// The channel can have no tolerance.
    NoChannel = LayoutFault::Channels as isize,
    /// The tolerance is wider than the widest.
    TooWide = 27,
}

impl ToleranceFault {
    /// The number of the refusal.
    pub fn number(self) -> u8
        ensures { result ≡ tolerance_refusal self }
    {
        // a cast, which gives the numbers above
        self as u8
    }
}

/// Why tolerances are not set all at once.
#[derive(Clone, Copy, Debug, PartialEq, Eq)]
pub struct TooWideOn {
    /// The first channel whose tolerance is wider than the widest.
    pub channel: usize,
}

impl TooWideOn {
    /// The number of the refusal.
    pub fn number(self) -> u8
        ensures { result ≡ tolerance_refusal TooWide }
    {
        ToleranceFault::TooWide.number()
    }
}

/// On each channel, readings are alike that differ by at most the tolerance of the channel.
///
/// A channel that can have no tolerance has tolerance 0.
#[derive(Clone, Copy)]
pub struct Within {
    tolerances: [u16; TOLERANCE_CHANNELS],
    ghost ok: { Mild tolerances },
}

/// Checks that the tolerance can be set on the channel: first the tolerance, then the channel.
fn check_tolerance(channel: u8, tolerance: u16) -> Result<(), ToleranceFault>
    ensures { result ≡ set_answer channel tolerance }
{
    if tolerance > MAX_TOLERANCE {
        return Err(ToleranceFault::TooWide);
    }
    if usize::from(channel) >= TOLERANCE_CHANNELS {
        return Err(ToleranceFault::NoChannel);
    }
    Ok(())
}

/// The first channel whose tolerance is wider than the widest.
fn first_too_wide(tolerances: &[u16; TOLERANCE_CHANNELS]) -> Option<usize>
    ensures { result ≡ first_too_wide tolerances.now }
{
    tolerances
        .iter()
        .position(|tolerance| *tolerance > MAX_TOLERANCE)
}

impl Within {
    /// Tolerance 0 on every channel.
    pub fn new() -> Within
        ensures { result.tolerances ≡ replicate tolerance_channels 0 }
    {
        Within {
            tolerances: [0; TOLERANCE_CHANNELS],
        }
    }

    /// The same tolerance on every channel that can have one.
    pub fn uniform(tolerance: u16) -> Result<Within, ToleranceFault>
        ensures granted { IfOk result (λ within.
            (tolerance ≤ max_tolerance)
            × (within.tolerances ≡ replicate tolerance_channels tolerance)) }
        ensures refused { IfErr result (λ fault. (max_tolerance < tolerance) × (fault ≡ TooWide)) }
    {
        if tolerance > MAX_TOLERANCE {
            return Err(ToleranceFault::TooWide);
        }
        Ok(Within {
            tolerances: [tolerance; TOLERANCE_CHANNELS],
        })
    }

    /// These tolerances of the channels that can have one; refused where one is too wide.
    pub fn per_channel(tolerances: [u16; TOLERANCE_CHANNELS]) -> Result<Within, TooWideOn>
        ensures granted { IfOk result (λ within. within.tolerances ≡ tolerances) }
        ensures answer { MatchResult result (λ _. first_too_wide tolerances ≡ None) (λ fault. first_too_wide tolerances ≡ Some fault.channel) }
    {
        match first_too_wide(&tolerances) {
            Some(channel) => Err(TooWideOn { channel }),
            None => Ok(Within { tolerances }),
        }
    }

    /// The tolerance of the channel.
    pub fn tolerance(&self, channel: u8) -> u16
        ensures { result ≡ tolerance_of self.now.tolerances channel }
    {
        self.tolerances
            .get(usize::from(channel))
            .copied()
            .unwrap_or(0)
    }

    /// Sets the tolerance of the channel, and of no other. A refused call changes nothing.
    pub fn set(&mut self, channel: u8, tolerance: u16) -> Result<(), ToleranceFault>
        ensures answer { result ≡ set_answer channel tolerance }
        ensures after { self.new.tolerances ≡ tolerances_after self.old.tolerances channel tolerance }
    {
        check_tolerance(channel, tolerance)?;
        // by index: after a write through what `get_mut` gives, a proof knows no element any more
        self.tolerances[usize::from(channel)] = tolerance;
        Ok(())
    }
}

impl Likeness for Within {
    ghost relation = { λ s. within s.tolerances };

    fn alike(&self, channel: u8, old: i16, new: i16) -> bool {
        old.abs_diff(new) <= self.tolerance(channel)
    }
}
