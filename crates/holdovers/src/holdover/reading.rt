// How a holdover is made, advanced and read.
ghost use Rattle.std.specs.Prelude.{◌≡◌};
ghost use Rattle.holdovers.specs.Bases.{count_on};
ghost use Rattle.holdovers.specs.Holdovers.{holdover_fresh, holdover_next, holdover_truth, Answers};
ghost use Rattle.holdovers.specs.Lemmas.Holdovers.{holdover_keeps};

use super::Holdover;
use crate::held::Held;
use clocks::clock::Clock;
use clocks::interval::Interval;
use rows::channel::Channel;
use rows::fault::{Cause, Fault};
use rows::rate::Rate;
use rows::refusal::Refusal;
use rows::row::Row;
use rows::time::Time;

// The count on the channel, if its pair is one.
fn heard_count(row: &Row, channel: Channel) -> Option<Time>
    ensures { result ≡ count_on row.now.pairs channel.index }
{
    let pair = row.pair(channel);
    Time::new(pair.first).filter(|first| first.value() == pair.second)
}

impl<C: Clock + Drop> Holdover<C> {
    // A fresh holdover; the clock below is made fresh first, or dropped with a refusal.
    pub fn new(below: C, channel: u8, rate: u64) -> Result<Holdover<C>, Refusal>
        ensures { Answers C.Clock below channel rate result }
    {
        let channel = Channel::try_from(channel)?;
        let rate = Rate::try_from(rate)?;
        // No reading yet: `restart` works it out.
        let mut holdover = Holdover {
            below,
            channel,
            rate,
            held: Held::without_base(Err(Fault::new(Cause::Unheard, 0))),
        };
        holdover.restart();
        Ok(holdover)
    }
}

impl<C: Clock> Clock for Holdover<C> {
    ghost fresh = { holdover_fresh C.Clock };

    ghost next = { holdover_next C.Clock };

    ghost reading = { λ h. h.held.reading };

    ghost truth = { holdover_truth C.Clock };

    // A law takes the members of a bound written out.
    ghost keeps = { holdover_keeps (record { fresh = C.fresh; next = C.next; reading = C.reading; truth = C.truth }) C.keeps };

    fn restart(&mut self) {
        self.below.restart();
        self.held = Held::without_base(self.below.query());
    }

    fn advance(&mut self, row: &Row) {
        self.below.advance(row);
        let heard = heard_count(row, self.channel);
        self.held = self.held.held_over(self.rate, heard, self.below.query());
    }

    fn query(&self) -> Result<Interval, Fault> {
        self.held.reading
    }
}
