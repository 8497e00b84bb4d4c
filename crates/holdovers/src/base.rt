// What a holdover goes on from: an interval, the count then, and the last count heard.
mod own;

// Four plain numbers by a rule of the project.
#[derive(Clone, Copy)]
pub(crate) struct Base {
    pub(crate) earliest: u64,
    pub(crate) latest: u64,
    // The count when the interval was adopted.
    pub(crate) origin: u64,
    pub(crate) last: u64,
}
