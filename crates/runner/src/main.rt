// The program: a schedule from standard input, its listing to standard output.
#![tactic(auto)]

mod shards;

use schedule::reader::LONGEST;
use shards::listing_over_shards;
use std::io;
use std::io::{Read, Write};

// One byte past the longest file tells that the file is longer.
const ENOUGH: u64 = LONGEST as u64 + 1;

fn main(rt: HostRuntime) -> io::Result<()> {
    let heap = rt.alloc();
    let mut bytes = Vec::new(heap);
    rt.stdin().take(ENOUGH).read_to_end(&mut bytes)?;
    let text = listing_over_shards(heap, &bytes)?;
    rt.stdout().write_all(text.as_bytes())
}
