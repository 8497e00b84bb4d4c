// How a reference is made, advanced and read.
ghost use Rattle.std.specs.Prelude.{◌≡◌};
ghost use Rattle.clocks.specs.References.{unheard_on, heard_on, reference_fresh, reference_next, reference_truth, MadeOn};
ghost use Rattle.clocks.specs.Lemmas.References.{reference_keeps};

use super::Reference;
use crate::clock::Clock;
use crate::interval::Interval;
use rows::channel::Channel;
use rows::fault::{Cause, Fault};
use rows::refusal::Refusal;
use rows::row::Row;

// Nothing is heard on the channel.
fn unheard(channel: Channel) -> Fault
    ensures { result ≡ unheard_on channel.index }
{
    Fault::new(Cause::Unheard, channel.into())
}

fn heard(row: &Row, channel: Channel) -> Result<Interval, Fault>
    ensures { result ≡ heard_on row.now.pairs channel.index }
{
    let pair = row.pair(channel);
    Interval::new(pair.first, pair.second).ok_or(unheard(channel))
}

impl Reference {
    // A fresh reference on the channel.
    pub fn new(channel: u8) -> Result<Reference, Refusal>
        ensures { MadeOn channel result }
    {
        let channel = Channel::try_from(channel)?;
        Ok(Reference {
            channel,
            reading: Err(unheard(channel)),
        })
    }
}

impl Clock for Reference {
    ghost fresh = { reference_fresh };

    ghost next = { reference_next };

    ghost reading = { λ r. r.reading };

    ghost truth = { reference_truth };

    ghost keeps = { reference_keeps };

    fn restart(&mut self) {
        self.reading = Err(unheard(self.channel));
    }

    fn advance(&mut self, row: &Row) {
        self.reading = heard(row, self.channel);
    }

    fn query(&self) -> Result<Interval, Fault> {
        self.reading
    }
}
