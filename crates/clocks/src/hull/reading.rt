// How a hull is made, advanced and read.
ghost use Rattle.std.specs.Prelude.{◌≡◌};
ghost use Rattle.clocks.specs.Hulls.{kept_over, read_over, hull_made, hull_next, hull_truth, NeverFalls};
ghost use Rattle.clocks.specs.Lemmas.Hulls.{hull_keeps};

use super::Hull;
use crate::clock::Clock;
use crate::interval::{Interval, passed_up};
use rows::fault::{Cause, Fault};
use rows::row::Row;

// The kept time after a reading of the clock below.
fn kept_over(kept: u64, below: Result<Interval, Fault>) -> u64
    ensures { result ≡ kept_over kept below }
{
    below.map_or(kept, |i| kept.max(i.earliest))
}

// The hull's reading over one of the clock below.
fn read_over(kept: u64, below: Result<Interval, Fault>) -> Result<Interval, Fault>
    ensures { result ≡ read_over kept below }
{
    let i = passed_up(below)?;
    Interval::new(kept, i.latest).ok_or(Fault::new(Cause::Crossed, 0))
}

impl<C: Clock> Hull<C> {
    // A fresh hull, whose earliest end never falls; the clock below is made fresh first.
    #[tactic(auto, using(crate::specs::Lemmas::Hulls::hull_rises))]
    pub fn new(below: C) -> Hull<C>
        ensures made { result ≡ hull_made C.Clock below }
        ensures rises { NeverFalls C.Clock result }
    {
        // No reading yet: `restart` works it out.
        let mut hull = Hull {
            below,
            kept: 0,
            reading: Err(Fault::new(Cause::Crossed, 0)),
        };
        hull.restart();
        hull
    }
}

impl<C: Clock> Clock for Hull<C> {
    ghost fresh = { λ h. hull_made C.Clock h.below };

    ghost next = { hull_next C.Clock };

    ghost reading = { λ h. h.reading };

    ghost truth = { hull_truth C.Clock };

    // A law takes the members of a bound written out.
    ghost keeps = { hull_keeps (record { fresh = C.fresh; next = C.next; reading = C.reading; truth = C.truth }) C.keeps };

    fn restart(&mut self) {
        self.below.restart();
        self.kept = 0;
        self.reading = read_over(0, self.below.query());
    }

    fn advance(&mut self, row: &Row) {
        self.below.advance(row);
        let below = self.below.query();
        self.kept = kept_over(self.kept, below);
        self.reading = read_over(self.kept, below);
    }

    fn query(&self) -> Result<Interval, Fault> {
        self.reading
    }
}
