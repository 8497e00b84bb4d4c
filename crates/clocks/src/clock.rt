// What a clock is: the trait that every clock and every layer keeps.
ghost use Rattle.std.specs.Prelude.{◌≡◌, Bool, List};
ghost use Rattle.rows.specs.declared.pair.Pair.{Pair};
ghost use Rattle.clocks.specs.History.{Instant};
ghost use Rattle.clocks.specs.Intervals.{Reading};
ghost use Rattle.clocks.specs.Meaning.{Keeps};

use crate::interval::Interval;
use rows::fault::Fault;
use rows::row::Row;

pub trait Clock {
    // The clock made fresh.
    ghost fresh: { Self → Self };

    // The clock after one instant more.
    ghost next: { Self → List Pair → Self };

    // Its reading, by what it holds now.
    ghost reading: { Self → Reading };

    // Whether it is true after these instants, by the clock as made.
    ghost truth: { Self → List Instant → Bool };

    fn restart(&mut self)
        ensures { self.new ≡ fresh self.old };

    fn advance(&mut self, row: &Row)
        ensures { self.new ≡ next self.old row.now.pairs };

    fn query(&self) -> Result<Interval, Fault>
        ensures { result ≡ reading self.now };

    ghost keeps: { (made : Self) → Keeps fresh next reading truth made };
}
