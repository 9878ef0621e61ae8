//! The likeness of wave heights with the same sea state.
ghost use Rattle.std.specs.Prelude.{◌≡◌};
ghost use Rattle.likeness.specs.SeaState.{InClass, class_of, same_sea_state};

use crate::exact::Exact;
use crate::likeness::Likeness;

/// Where the classes 0 to 8 end, in centimetres, after WMO code table 3700. Each end belongs to its class.
const CLASS_ENDS: [i16; 9] = [0, 10, 50, 125, 250, 400, 600, 900, 1_400];

/// On one channel, heights in centimetres are alike that have the same sea state class; on the others, equal readings.
#[derive(Clone, Copy)]
pub struct SeaState {
    channel: u8,
}

/// The sea state class of a height in centimetres, 0 to 9: how many class ends lie below the height.
///
/// Class 9 lies above the last end, and a negative height has class 0.
pub fn sea_state_class(height: i16) -> u8
    ensures answer { result ≡ class_of height }
    ensures rule { InClass height result }
{
    let mut class = 0;
    for end in CLASS_ENDS {
        if end < height {
            class += 1;
        }
    }
    class
}

impl SeaState {
    /// The likeness whose heights are on the channel.
    pub fn on(channel: u8) -> SeaState
        ensures { result.channel ≡ channel }
    {
        SeaState { channel }
    }
}

impl Likeness for SeaState {
    ghost relation = { λ s. same_sea_state s.channel };

    fn alike(&self, channel: u8, old: i16, new: i16) -> bool {
        if channel == self.channel {
            sea_state_class(old) == sea_state_class(new)
        } else {
            Exact.alike(channel, old, new)
        }
    }
}
