// The smallest clock of one's own: it never has a reading, so it is always true.
ghost use Rattle.std.specs.Prelude.{true, Err};
ghost use Rattle.clocks.specs.References.{unheard_on};
ghost use Rattle.std.proofs.Common.{rules};

use clocks::clock::Clock;
use clocks::interval::Interval;
use rows::fault::{Cause, Fault};
use rows::row::Row;

#[derive(Drop)]
pub struct Silent;

impl Clock for Silent {
    ghost fresh = { λ c. c };

    ghost next = { λ c pairs. c };

    ghost reading = { λ c. Err (unheard_on 0) };

    ghost truth = { λ c instants. true };

    ghost keeps = { Prim.search rules };

    fn restart(&mut self) {}

    fn advance(&mut self, _row: &Row) {}

    fn query(&self) -> Result<Interval, Fault> {
        Err(Fault::new(Cause::Unheard, 0))
    }
}
