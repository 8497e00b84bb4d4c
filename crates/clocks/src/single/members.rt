// How a bank of one is made, advanced and read.
ghost use Rattle.std.specs.Prelude.{◌≡◌};
ghost use Rattle.clocks.specs.Banks.{single_made, single_next, single_reading, single_truth};
ghost use Rattle.clocks.specs.Lemmas.Banks.{single_keeps};

use super::Single;
use crate::bank::Bank;
use crate::clock::Clock;
use crate::interval::Interval;
use rows::fault::{Cause, Fault};
use rows::row::Row;

impl<C: Clock> Single<C> {
    // A bank of the clock, made fresh.
    pub fn new(clock: C) -> Single<C>
        ensures { result ≡ single_made C.Clock clock }
    {
        let mut bank = Single { clock };
        bank.restart();
        bank
    }
}

impl<C: Clock> Bank for Single<C> {
    ghost size = { λ s. 1 };

    ghost fresh = { λ s. single_made C.Clock s.clock };

    ghost next = { single_next C.Clock };

    ghost reading = { single_reading C.Clock };

    ghost truth = { single_truth C.Clock };

    // A law takes the members of a bound written out.
    ghost keeps = { single_keeps (record { fresh = C.fresh; next = C.next; reading = C.reading; truth = C.truth }) C.keeps };

    fn count(&self) -> u8 {
        1
    }

    fn restart(&mut self) {
        self.clock.restart();
    }

    fn advance(&mut self, row: &Row) {
        self.clock.advance(row);
    }

    fn query(&self, member: u8) -> Result<Interval, Fault> {
        if member < 1 {
            self.clock.query()
        } else {
            Err(Fault::new(Cause::Unheard, member))
        }
    }
}
