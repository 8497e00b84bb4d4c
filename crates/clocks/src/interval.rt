// An interval of times, both ends included.
ghost use Rattle.std.specs.Prelude.{◌≤◌};
ghost use Rattle.rows.specs.Limits.{last_time};

mod making;

pub use making::passed_up;

#[derive(Clone, Copy)]
pub struct Interval {
    pub earliest: u64,
    pub latest: u64,
    ghost ordered: { earliest ≤ latest },
    ghost within: { latest ≤ last_time },
}
