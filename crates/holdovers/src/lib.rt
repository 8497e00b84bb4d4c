// A holdover: a clock that goes on by a count while it has nothing narrower to read.
#![tactic(auto)]

mod base;
mod held;
pub mod holdover;
