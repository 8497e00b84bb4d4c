// A row: a pair of times on each of the sixteen channels.
ghost use Rattle.rows.specs.Limits.{Timely};

use crate::channel::CHANNELS;
use crate::pair::Pair;

mod setting;

// No `Model`: its invariant would be hidden from whoever is lent a row.
#[derive(Drop)]
pub struct Row {
    pairs: [Pair; CHANNELS],
    ghost within: { Timely pairs },
}
