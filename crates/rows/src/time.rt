// A time in whole microseconds, from 0 to the last time.
use crate::at_most::AtMost;

// 2^52 - 1, nearly 143 years.
pub const LAST_TIME: u64 = 4_503_599_627_370_495;

pub type Time = AtMost<LAST_TIME>;
