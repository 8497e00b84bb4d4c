// How a store is made, set, advanced and queried.
ghost use Rattle.std.specs.Prelude.{◌≡◌};
ghost use Rattle.rows.specs.Rows.{setting};
ghost use Rattle.store.specs.States.{state_of, shards, fresh_state, after_set, after_instant, queried};

use super::Store;
use clocks::bank::Bank;
use clocks::interval::Interval;
use rows::pair::Pair;
use rows::refusal::Refusal;
use rows::row::Row;

const MOST_SHARDS: u8 = 8;

impl<B: Bank> Store<B> {
    // A fresh store; every clock is made fresh first.
    pub fn new(mut clocks: B) -> Store<B>
        ensures { state_of result ≡ fresh_state B.Bank clocks }
    {
        clocks.restart();
        Store {
            clocks,
            row: Row::new(),
        }
    }

    // Sets the pair of a channel.
    pub fn set(&mut self, channel: u8, pair: Pair) -> Result<(), Refusal>
        ensures answer { result ≡ setting channel pair }
        ensures after { state_of self.new ≡ after_set (state_of self.old) channel pair }
    {
        self.row.set(channel, pair)
    }

    // Every clock advances by the row, and then the row is cleared.
    pub fn instant(&mut self)
        ensures { state_of self.new ≡ after_instant B.Bank (state_of self.old) }
    {
        self.clocks.advance(&self.row);
        self.row.clear();
    }

    // What the shard's clock reads.
    pub fn query(&self, shard: u8) -> Result<Interval, Refusal>
        ensures { result ≡ queried B.Bank (state_of self.now) shard }
    {
        if shard >= self.shards() {
            return Err(Refusal::NoShard);
        }
        Ok(self.clocks.query(shard)?)
    }

    fn shards(&self) -> u8
        ensures { result ≡ shards B.Bank self.now.clocks }
    {
        self.clocks.count().min(MOST_SHARDS)
    }
}
