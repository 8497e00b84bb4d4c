// Two plain numbers on a channel; a row keeps them within the range of times.
#[derive(Clone, Copy, PartialEq, Eq, Debug)]
pub struct Pair {
    pub first: u64,
    pub second: u64,
}
