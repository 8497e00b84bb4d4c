// A hull: a clock whose earliest end never falls, over any clock.
use crate::interval::Interval;
use rows::fault::Fault;

mod reading;

#[derive(Drop)]
pub struct Hull<C> {
    below: C,
    kept: u64,
    reading: Result<Interval, Fault>,
}
