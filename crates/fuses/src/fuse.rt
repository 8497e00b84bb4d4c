// A fuse over any bank.
use clocks::interval::Interval;
use rows::fault::Fault;

mod bounds;
mod gather;
mod reading;
mod rising;

#[derive(Drop)]
pub struct Fuse<B> {
    bank: B,
    // How many members may err.
    tolerated: u8,
    reading: Result<Interval, Fault>,
}
