// A reference: a clock that reads the pair on a channel.
use crate::interval::Interval;
use rows::channel::Channel;
use rows::fault::Fault;

mod reading;

#[derive(Drop)]
pub struct Reference {
    channel: Channel,
    reading: Result<Interval, Fault>,
}
