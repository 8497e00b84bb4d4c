// How an interval is made, and how a layer hands a reading on.
ghost use Rattle.std.specs.Prelude.{◌≡◌};
ghost use Rattle.clocks.specs.Intervals.{span, passed_up};

use super::Interval;
use rows::fault::Fault;
use rows::time::Time;

impl Interval {
    // The interval from one time to another, if there is one.
    pub fn new(earliest: u64, latest: u64) -> Option<Interval>
        ensures { result ≡ span earliest latest }
    {
        let _ = Time::new(latest)?;
        if earliest <= latest {
            Some(Interval { earliest, latest })
        } else {
            None
        }
    }
}

// A reading as the layer above hands it on: a fault is one deeper there.
pub fn passed_up(below: Result<Interval, Fault>) -> Result<Interval, Fault>
    ensures { result ≡ passed_up below }
{
    below.map_err(Fault::deeper)
}
