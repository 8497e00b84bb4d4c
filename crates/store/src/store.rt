// A store over a bank of clocks, one clock for each shard.
use rows::row::Row;

mod calls;

// No `Model`: what is known of the row would be hidden from whoever is lent a store.
#[derive(Drop)]
pub struct Store<B> {
    clocks: B,
    row: Row,
}
