// A fuse: one clock made of a bank, of which some members may err.
#![tactic(auto)]

pub mod fuse;
