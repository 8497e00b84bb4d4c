// Times, channels, rates, the row of pairs, clock faults, and why a command is turned away.
#![tactic(auto)]

pub mod at_most;
pub mod channel;
pub mod details;
pub mod fault;
pub mod pair;
pub mod rate;
pub mod refusal;
pub mod row;
pub mod time;
