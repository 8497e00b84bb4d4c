// How two banks are joined, advanced and read.
ghost use Rattle.std.specs.Prelude.{◌≡◌};
ghost use Rattle.clocks.specs.Banks.{joined_fresh, joined_next, joined_reading, joined_truth, Joins};
ghost use Rattle.clocks.specs.Lemmas.Banks.{joined_keeps};

use super::Joined;
use crate::bank::Bank;
use crate::interval::Interval;
use rows::fault::{Cause, Fault};
use rows::row::Row;

impl<A: Bank, B: Bank> Joined<A, B> {
    // Both banks in one, made fresh; members past the 255th are not reached.
    pub fn new(first: A, second: B) -> Joined<A, B>
        ensures { Joins A.Bank B.Bank first second result }
    {
        let split = first.count();
        let count = split.saturating_add(second.count());
        let mut bank = Joined {
            first,
            second,
            split,
            count,
        };
        bank.restart();
        bank
    }
}

impl<A: Bank, B: Bank> Bank for Joined<A, B> {
    ghost size = { λ j. j.count };

    ghost fresh = { joined_fresh A.Bank B.Bank };

    ghost next = { joined_next A.Bank B.Bank };

    ghost reading = { joined_reading A.Bank B.Bank };

    ghost truth = { joined_truth A.Bank B.Bank };

    // A law takes the members of a bound written out.
    ghost keeps = { joined_keeps (record { size = A.size; fresh = A.fresh; next = A.next; reading = A.reading; truth = A.truth }) (record { size = B.size; fresh = B.fresh; next = B.next; reading = B.reading; truth = B.truth }) A.keeps B.keeps };

    fn count(&self) -> u8 {
        self.count
    }

    fn restart(&mut self) {
        self.first.restart();
        self.second.restart();
    }

    fn advance(&mut self, row: &Row) {
        self.first.advance(row);
        self.second.advance(row);
    }

    fn query(&self, member: u8) -> Result<Interval, Fault> {
        if member >= self.count {
            Err(Fault::new(Cause::Unheard, member))
        } else if member < self.split {
            self.first.query(member)
        } else {
            self.second.query(member - self.split)
        }
    }
}
