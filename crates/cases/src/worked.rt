// The worked cases, stated together.
ghost use Rattle.std.specs.Prelude.{◌≡◌};
ghost use Rattle.clocks.specs.Intervals.{span};
ghost use Rattle.cases.specs.Worked.{WorkedCases};

use clocks::interval::Interval;

// The reading of the first case; every case holds of the definitions.
#[tactic(auto, using(crate::proofs::Cases::worked))]
pub fn worked_cases() -> Option<Interval>
    ensures reading { result ≡ span 105 110 }
    ensures all { WorkedCases }
{
    Interval::new(105, 110)
}
