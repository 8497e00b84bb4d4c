// What came of a command.
ghost use Rattle.std.specs.Prelude.{◌≡◌};
ghost use Rattle.rows.specs.Details.{values};
ghost use Rattle.runs.specs.declared.event.Answer.TheVariants.{Reading};
ghost use Rattle.runs.specs.Outcomes.{outcome_number, outcome_details};

use crate::command::Command;
use clocks::interval::Interval;
use rows::details::Details;
use rows::refusal::Refusal;

// What an accepted command answers; `None` would not say that it is done.
#[derive(Clone, Copy, PartialEq, Eq, Debug)]
pub enum Answer {
    Done,
    // Plain numbers: an `Interval` here would ask more of whoever shows an outcome.
    Reading { earliest: u64, latest: u64 },
}

impl From<Interval> for Answer {
    ghost from_gives = { λ i answer. answer ≡ Reading i.earliest i.latest };

    fn from(interval: Interval) -> Answer {
        Answer::Reading {
            earliest: interval.earliest,
            latest: interval.latest,
        }
    }
}

pub type Outcome = Result<Answer, Refusal>;

// A command with its outcome.
#[derive(Clone, Copy, PartialEq, Eq, Debug)]
pub struct Event {
    pub command: Command,
    pub outcome: Outcome,
}

// `Outcome` is the library's `Result`, so this and the next are no methods of it.
pub fn outcome_number(outcome: Outcome) -> u8
    ensures { result ≡ outcome_number outcome }
{
    match outcome {
        Ok(_) => 0,
        Err(refusal) => refusal.number(),
    }
}

pub fn outcome_details(outcome: Outcome) -> Details
    ensures { values result ≡ outcome_details outcome }
{
    match outcome {
        Ok(Answer::Done) => Details::Empty,
        Ok(Answer::Reading { earliest, latest }) => Details::Two(earliest, latest),
        Err(refusal) => refusal.details(),
    }
}
