// What a holdover keeps of an instant: its base and its reading.
use crate::base::Base;
use clocks::interval::Interval;
use rows::fault::Fault;

mod choosing;

#[derive(Clone, Copy)]
pub(crate) struct Held {
    pub(crate) base: Option<Base>,
    pub(crate) reading: Result<Interval, Fault>,
}
