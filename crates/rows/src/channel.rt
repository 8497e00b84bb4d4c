// One of the sixteen channels of a row.
ghost use Rattle.std.specs.Prelude.{◌≡◌, ◌<◌, ◌≤◌, MatchResult};
ghost use Rattle.rows.specs.Limits.{channels};
ghost use Rattle.rows.specs.declared.refusal.Refusal.TheVariants.{NoChannel};

use crate::refusal::Refusal;

pub(crate) const CHANNELS: usize = 16;

// No `AtMost`: it is an index, made of a byte, and refused alike wherever it is made.
#[derive(Clone, Copy)]
pub struct Channel {
    index: u8,
    ghost within: { index < channels },
}

impl TryFrom<u8> for Channel {
    type Error = Refusal;

    ghost try_from_gives = { λ index made. MatchResult made (λ c. c.index ≡ index) (λ refusal. (channels ≤ index) × (refusal ≡ NoChannel)) };

    fn try_from(index: u8) -> Result<Channel, Refusal> {
        if usize::from(index) < CHANNELS {
            Ok(Channel { index })
        } else {
            Err(Refusal::NoChannel)
        }
    }
}

impl From<Channel> for u8 {
    ghost from_gives = { λ channel number. number ≡ channel.index };

    fn from(channel: Channel) -> u8 {
        channel.index
    }
}

impl Channel {
    pub fn index(self) -> usize
        ensures { result ≡ self.index }
    {
        usize::from(self.index)
    }
}
