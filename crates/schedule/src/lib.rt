// Schedules: commands as bytes, read and written.
#![tactic(auto)]

pub mod encoder;
pub mod form;
pub mod reader;
pub mod stop;
