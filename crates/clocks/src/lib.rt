// Clocks that answer intervals: what a clock and a bank of clocks mean, references, banks and hulls.
#![tactic(auto)]

pub mod bank;
pub mod clock;
pub mod hull;
pub mod interval;
pub mod joined;
pub mod reference;
pub mod single;
