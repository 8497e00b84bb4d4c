// What a bank of clocks is: members, numbered from 0, each with the meaning of a clock.
ghost use Rattle.std.specs.Prelude.{◌≡◌, ℕ, Bool, List};
ghost use Rattle.rows.specs.declared.pair.Pair.{Pair};
ghost use Rattle.clocks.specs.History.{Instant};
ghost use Rattle.clocks.specs.Intervals.{Reading};
ghost use Rattle.clocks.specs.Meaning.{KeepsMembers};

use crate::interval::Interval;
use rows::fault::Fault;
use rows::row::Row;

// With `restart` and `advance` in one trait above `Clock` and this one, each type would need two impls.
pub trait Bank {
    // How many members it has, from 1 to 255.
    ghost size: { Self → ℕ };

    // The bank with every member made fresh.
    ghost fresh: { Self → Self };

    // The bank after one instant more.
    ghost next: { Self → List Pair → Self };

    // A member's reading, by what the bank holds now.
    ghost reading: { Self → ℕ → Reading };

    // Whether a member is true after these instants, by the bank as made.
    ghost truth: { Self → ℕ → List Instant → Bool };

    fn count(&self) -> u8
        ensures { result ≡ size self.now };

    fn restart(&mut self)
        ensures { self.new ≡ fresh self.old };

    fn advance(&mut self, row: &Row)
        ensures { self.new ≡ next self.old row.now.pairs };

    // One member's reading; a number that names no member is unheard.
    fn query(&self, member: u8) -> Result<Interval, Fault>
        ensures { result ≡ reading self.now member };

    ghost keeps: { KeepsMembers size fresh next reading truth };
}
