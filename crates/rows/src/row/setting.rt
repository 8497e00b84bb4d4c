// How a row is made, set, read and cleared.
ghost use Rattle.std.specs.Prelude.{◌≡◌};
ghost use Rattle.rows.specs.Limits.{pair_on, InRange};
ghost use Rattle.rows.specs.Rows.{nothing_set, setting, after_setting};

use super::Row;
use crate::channel::{CHANNELS, Channel};
use crate::pair::Pair;
use crate::refusal::Refusal;
use crate::time::Time;

// A pair by a rule of the project, and no `None`: unheard, since its first number is above its second.
const UNSET: Pair = Pair {
    first: 1,
    second: 0,
};

impl Row {
    // Nothing is set on any channel.
    pub fn new() -> Row
        ensures { result.pairs ≡ nothing_set }
    {
        Row {
            pairs: [UNSET; CHANNELS],
        }
    }

    pub fn set(&mut self, channel: u8, pair: Pair) -> Result<(), Refusal>
        ensures answer { result ≡ setting channel pair }
        ensures after { self.new.pairs ≡ after_setting self.old.pairs channel pair }
    {
        let place = Channel::try_from(channel)?.index();
        Time::new(pair.first)
            .and(Time::new(pair.second))
            .ok_or(Refusal::BadPair)?;
        self.pairs[place] = pair;
        Ok(())
    }

    pub fn pair(&self, channel: Channel) -> Pair
        ensures value { result ≡ pair_on self.now.pairs channel.index }
        ensures in_range { InRange result }
    {
        self.pairs[channel.index()]
    }

    // Every pair returns to unset, as it does after an instant.
    pub fn clear(&mut self)
        ensures { self.new.pairs ≡ nothing_set }
    {
        self.pairs = [UNSET; CHANNELS];
    }
}
