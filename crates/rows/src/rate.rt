// How far a count may run off, in parts per million.
ghost use Rattle.std.specs.Prelude.{◌≡◌, ◌<◌, ◌≤◌, MatchResult};
ghost use Rattle.rows.specs.Limits.{greatest_rate};
ghost use Rattle.rows.specs.declared.refusal.Refusal.TheVariants.{BadRate};

use crate::at_most::AtMost;
use crate::refusal::Refusal;

const GREATEST_RATE: u64 = 1_000;

pub type Rate = AtMost<GREATEST_RATE>;

impl TryFrom<u64> for Rate {
    type Error = Refusal;

    ghost try_from_gives = { λ parts made. MatchResult made (λ rate. (rate ≡ parts) × (parts ≤ greatest_rate)) (λ refusal. (greatest_rate < parts) × (refusal ≡ BadRate)) };

    fn try_from(parts: u64) -> Result<Rate, Refusal> {
        Rate::new(parts).ok_or(Refusal::BadRate)
    }
}
