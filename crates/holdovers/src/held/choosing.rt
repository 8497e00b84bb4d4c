// Which interval a holdover reads, and what it then goes on from.
ghost use Rattle.std.specs.Prelude.{◌≡◌};
ghost use Rattle.clocks.specs.Intervals.{width};
ghost use Rattle.holdovers.specs.Holdovers.{without_base, adopted_with, own_with, held_over};

use super::Held;
use crate::base::Base;
use clocks::interval::{Interval, passed_up};
use rows::fault::Fault;
use rows::rate::Rate;
use rows::time::Time;

fn width_of(interval: Interval) -> u64
    ensures { result ≡ width interval }
{
    interval.latest - interval.earliest
}

impl Held {
    // No base, and what the clock below reads.
    pub(crate) fn without_base(below: Result<Interval, Fault>) -> Held
        ensures { result ≡ without_base below }
    {
        Held {
            base: None,
            reading: passed_up(below),
        }
    }

    // An adopted interval makes the base.
    fn adopted(interval: Interval, count: Time) -> Held
        ensures { result ≡ adopted_with (Some count) interval }
    {
        Held {
            base: Some(Base::adopted(interval, count)),
            reading: Ok(interval),
        }
    }

    // The own interval is read, and the base has the count that was heard.
    fn going_on(self, own: Interval, count: Time) -> Held
        ensures { result ≡ own_with self.base (Some count) own }
    {
        Held {
            base: self.base.map(|base| base.moved_to(count)),
            reading: Ok(own),
        }
    }

    // What is kept of an instant at which a count was heard.
    fn counted(self, rate: Rate, count: Time, below: Result<Interval, Fault>) -> Held
        ensures { result ≡ held_over rate self.base (Some count) below }
    {
        let own = self.base.and_then(|base| base.own_at(rate, count));
        match (own, below) {
            (Some(own), Ok(lower)) if width_of(lower) < width_of(own) => {
                Held::adopted(lower, count)
            }
            (Some(own), _) => self.going_on(own, count),
            (None, Ok(lower)) => Held::adopted(lower, count),
            (None, Err(_)) => Held::without_base(below),
        }
    }

    // What is kept of an instant, after the clock below advanced to its reading.
    pub(crate) fn held_over(
        self,
        rate: Rate,
        heard: Option<Time>,
        below: Result<Interval, Fault>,
    ) -> Held
        ensures { result ≡ held_over rate self.base heard below }
    {
        let Some(count) = heard else {
            return Held::without_base(below);
        };
        self.counted(rate, count, below)
    }
}
