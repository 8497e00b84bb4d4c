// How a base is made and moved, and the own interval, worked out anew from it at every instant.
ghost use Rattle.std.specs.Prelude.{◌≡◌, ◌-◌};
ghost use Rattle.holdovers.specs.Bases.{drift_over, own_interval, own_at, based_on, moved_to};

use super::Base;
use clocks::interval::Interval;
use rows::rate::Rate;
use rows::time::Time;

impl Base {
    // The base that an interval makes, adopted at the count.
    pub(crate) fn adopted(interval: Interval, count: Time) -> Base
        ensures { Some result ≡ based_on interval (Some count) }
    {
        Base {
            earliest: interval.earliest,
            latest: interval.latest,
            origin: count.value(),
            last: count.value(),
        }
    }

    // The same base, with the count that was heard last.
    pub(crate) fn moved_to(self, count: Time) -> Base
        ensures { Some result ≡ moved_to (Some self) (Some count) }
    {
        Base {
            last: count.value(),
            ..self
        }
    }

    // How much the count has grown since the interval was adopted.
    fn growth_from_origin(self, count: Time) -> u64
        ensures { result ≡ count - self.origin }
    {
        count.value().saturating_sub(self.origin)
    }

    // How far the count may have run off since the interval was adopted.
    // The rate is the holdover's and the count the instant's: no struct would hold both.
    fn drift_at(self, rate: Rate, count: Time) -> u64
        ensures { result ≡ drift_over rate (count - self.origin) }
    {
        let grown = self.growth_from_origin(count);
        rate.value() * grown / 1_000_000
    }

    // Ends that no number holds lie behind the last time, so there is no such interval.
    fn own_interval(self, rate: Rate, count: Time) -> Option<Interval>
        ensures { result ≡ own_interval rate self count }
    {
        let grown = self.growth_from_origin(count);
        let drift = self.drift_at(rate, count);
        let earliest = self.earliest.checked_add(grown)?;
        let latest = self.latest.checked_add(grown)?.checked_add(drift)?;
        Interval::new(earliest.saturating_sub(drift), latest)
    }

    // The own interval at the count, unless the count fell.
    pub(crate) fn own_at(self, rate: Rate, count: Time) -> Option<Interval>
        ensures { result ≡ own_at rate (Some self) (Some count) }
    {
        if count.value() < self.last {
            None
        } else {
            self.own_interval(rate, count)
        }
    }
}
