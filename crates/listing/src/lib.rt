// The listing of a schedule: a line for each command, and their text.
#![tactic(auto)]

ghost use Rattle.std.specs.Prelude.{IfOk, string_bytes};
ghost use Rattle.rows.specs.Exactly.{Exactly};
ghost use Rattle.listing.specs.Lines.{Lists};

pub mod line;
pub mod lines;
mod text;

use clocks::bank::Bank;
use lines::add_lines;
use runs::machine::run;
use schedule::reader::read;
use std::alloc::{AllocError, Global};
use store::store::Store;
use text::text_of;

// The listing of a schedule, run over a fresh store.
pub fn listing<B: Bank + Drop>(heap: Global, clocks: B, bytes: &[u8]) -> Result<String, AllocError>
    ensures { IfOk result (λ s. Exactly (Lists B.Bank clocks bytes.now) (string_bytes s)) }
{
    let mut commands = Vec::new(heap);
    let stop = read(bytes, &mut commands)?;
    let mut store = Store::new(clocks);
    let mut log = Vec::new(heap);
    run(&mut store, &commands, &mut log)?;
    let mut lines = Vec::new(heap);
    add_lines(&log, stop, &mut lines)?;
    text_of(heap, &lines)
}
