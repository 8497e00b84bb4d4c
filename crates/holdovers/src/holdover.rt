// A holdover over any clock, on a channel and at a rate.
use crate::held::Held;
use rows::channel::Channel;
use rows::rate::Rate;

mod reading;

#[derive(Drop)]
pub struct Holdover<C> {
    below: C,
    channel: Channel,
    rate: Rate,
    held: Held,
}
