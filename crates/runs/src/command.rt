// The commands, with their operands as plain numbers.
use rows::pair::Pair;

// Plain numbers by a rule of the project: a command is checked when it is carried out.
#[derive(Clone, Copy, PartialEq, Eq, Debug)]
pub enum Command {
    // Sets the pair of a channel.
    Set { channel: u8, pair: Pair },
    // Makes an instant: the clocks advance, and every pair returns to unset.
    Instant,
    // Queries the clock of a shard.
    Query { shard: u8 },
}
