// Commands, what they answer, and the run of a list of them.
#![tactic(auto)]

pub mod command;
pub mod event;
pub mod machine;
