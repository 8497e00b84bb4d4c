// The store: shards over a bank of clocks, and a row.
#![tactic(auto)]

pub mod store;
