// What is known of a row or a store that is lent: its pairs hold times, before a setting and after, refused or not.
ghost use Rattle.std.specs.Prelude.{◌≡◌};
ghost use Rattle.rows.specs.Limits.{Timely};
ghost use Rattle.rows.specs.Rows.{setting, after_setting};
ghost use Rattle.store.specs.States.{state_of, after_set};

use clocks::bank::Bank;
use rows::pair::Pair;
use rows::refusal::Refusal;
use rows::row::Row;
use store::store::Store;

pub fn set_row(row: &mut Row, channel: u8, pair: Pair) -> Result<(), Refusal>
    ensures answer { result ≡ setting channel pair }
    ensures after { row.new.pairs ≡ after_setting row.old.pairs channel pair }
    ensures were_times { Timely row.old.pairs }
    ensures are_times { Timely row.new.pairs }
{
    row.set(channel, pair)
}

pub fn set_store<B: Bank>(store: &mut Store<B>, channel: u8, pair: Pair) -> Result<(), Refusal>
    ensures answer { result ≡ setting channel pair }
    ensures after { state_of store.new ≡ after_set (state_of store.old) channel pair }
    ensures were_times { Timely (state_of store.old).pairs }
    ensures are_times { Timely (state_of store.new).pairs }
{
    store.set(channel, pair)
}
