// How a fuse is made, advanced and read.
ghost use Rattle.std.specs.Prelude.{◌≡◌};
ghost use Rattle.fuses.specs.Fuses.{need, usual_tolerance, members, fuse_made, fuse_next, fuse_truth, Means, Tolerates};
ghost use Rattle.fuses.specs.Sharing.{intervals_of, fused};
ghost use Rattle.fuses.specs.Lemmas.Fuses.{fuse_keeps};

use super::Fuse;
use super::bounds::Bounds;
use super::gather::{Times, gather};
use super::rising::Rising;
use clocks::bank::Bank;
use clocks::clock::Clock;
use clocks::interval::Interval;
use rows::fault::{Cause, Fault};
use rows::row::Row;

// What a fuse tolerates that is made without a number.
const USUAL_TOLERANCE: u8 = 1;

impl<B: Bank> Fuse<B> {
    // A fresh fuse that tolerates one member that errs.
    // `Means` stands on the functions that give a reading: a field for it would stand in each definition of a fuse.
    pub fn new(bank: B) -> Fuse<B>
        ensures made { result ≡ fuse_made B.Bank bank usual_tolerance }
        ensures meaning { Means B.Bank result }
        ensures tolerates { Tolerates B.Bank result }
    {
        Fuse::tolerating(bank, USUAL_TOLERANCE)
    }

    // A fresh fuse that tolerates so many members that err; the bank is made fresh first.
    #[tactic(auto, using(crate::specs::Lemmas::Fuses::fuse_means))]
    pub fn tolerating(bank: B, tolerated: u8) -> Fuse<B>
        ensures made { result ≡ fuse_made B.Bank bank tolerated }
        ensures meaning { Means B.Bank result }
        ensures tolerates { Tolerates B.Bank result }
    {
        // No reading yet: `restart` works it out.
        let mut fuse = Fuse {
            bank,
            tolerated,
            reading: Err(Fault::new(Cause::TooFew, 0)),
        };
        fuse.restart();
        fuse
    }

    // How many members have to agree; unheard ones do not lower it.
    fn need(&self) -> u8
        ensures { result ≡ need (B.Bank.size self.now.bank) self.now.tolerated }
    {
        self.bank.count().saturating_sub(self.tolerated).max(1)
    }

    // What the members agree on as they stand.
    fn agreed(&self) -> Result<Interval, Fault>
        ensures { result ≡ fused (need (B.Bank.size self.now.bank) self.now.tolerated) (intervals_of (members B.Bank self.now.bank)) }
    {
        let mut begins = Times::new();
        let mut ends = Times::new();
        gather(&self.bank, &mut begins, &mut ends);
        let bounds = Bounds {
            begins: Rising::sorted(begins.as_mut_slice()),
            ends: Rising::sorted(ends.as_mut_slice()),
        };
        bounds.fused(self.need())
    }
}

impl<B: Bank> Clock for Fuse<B> {
    ghost fresh = { λ f. fuse_made B.Bank f.bank f.tolerated };

    ghost next = { fuse_next B.Bank };

    ghost reading = { λ f. f.reading };

    ghost truth = { fuse_truth B.Bank };

    // A law takes the members of a bound written out.
    ghost keeps = { fuse_keeps (record { size = B.size; fresh = B.fresh; next = B.next; reading = B.reading; truth = B.truth }) B.keeps };

    fn restart(&mut self) {
        self.bank.restart();
        self.reading = self.agreed();
    }

    #[tactic(auto, using(crate::specs::Lemmas::Fuses::fuse_means))]
    fn advance(&mut self, row: &Row)
        ensures after { self.new ≡ fuse_next B.Bank self.old row.now.pairs }
        ensures meaning { Means B.Bank self.new }
    {
        self.bank.advance(row);
        self.reading = self.agreed();
    }

    fn query(&self) -> Result<Interval, Fault> {
        self.reading
    }
}
