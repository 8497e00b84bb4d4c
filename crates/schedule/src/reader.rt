// Bytes taken apart into commands.
ghost use Rattle.std.specs.Prelude.{◌≡◌, ℕ, ◌^◌, ◌<◌, ◌≤◌, List, ◌++◌, length, Some, Ok, MatchOption};
ghost use Rattle.std.specs.Int.{w64, to_be_bytes};
ghost use Rattle.std.specs.Result as results;
ghost use Rattle.rows.specs.Exactly.{Exactly};
ghost use Rattle.rows.specs.Lent.{Added, NoRoom};
ghost use Rattle.schedule.specs.declared.stop.Stop.TheVariants.{NotALetter, CutShort};
ghost use Rattle.schedule.specs.Encoding.{width_of, encoding, Encodable};
ghost use Rattle.schedule.specs.Reading.{NoWholeCommand, Reads, seen, longest, Schedules};

use crate::form::width_of;
use crate::stop::Stop;
use rows::pair::Pair;
use runs::command::Command;
use std::alloc::AllocError;

// The most bytes that a file may have: a longer one is not read.
pub const LONGEST: usize = 65536;

// The number that the first eight bytes spell, the highest first, and the rest.
// Taken apart by a slice pattern, as commands are, by a rule of the project.
fn leading_number(bytes: &[u8]) -> Option<(u64, &[u8])>
    ensures { MatchOption result (length bytes.now < 8) (λ x. (x.0 < 2 ^ 64) × (bytes.now ≡ to_be_bytes w64 x.0 ++ x.1.now)) }
{
    let [a, b, c, d, e, f, g, h, rest @ ..] = bytes else {
        return None;
    };
    Some((u64::from_be_bytes([*a, *b, *c, *d, *e, *f, *g, *h]), rest))
}

// The command that the bytes begin with, if all its bytes are there, and the rest.
// One pattern of all 18 bytes of P would be more than the prover follows by itself.
fn leading_command(bytes: &[u8]) -> Option<(Command, &[u8])>
    ensures { MatchOption result (NoWholeCommand bytes.now) (λ x. Encodable x.0 × (bytes.now ≡ encoding x.0 ++ x.1.now)) }
{
    match bytes {
        [b'P', channel, rest @ ..] => {
            let (first, rest) = leading_number(rest)?;
            let (second, rest) = leading_number(rest)?;
            let channel = *channel;
            let pair = Pair { first, second };
            Some((Command::Set { channel, pair }, rest))
        }
        [b'I', rest @ ..] => Some((Command::Instant, rest)),
        [b'N', shard, rest @ ..] => Some((Command::Query { shard: *shard }, rest)),
        _ => None,
    }
}

// Why bytes that begin with this letter are no command.
fn stop_at(letter: u8, left: usize) -> Stop
    ensures { MatchOption (width_of letter) (result ≡ NotALetter letter) (λ _. result ≡ CutShort letter left) }
{
    match width_of(letter) {
        Some(_) => Stop::CutShort { letter, left },
        None => Stop::NotALetter { byte: letter },
    }
}

// The command that the bytes begin with, and the rest; none where there are no bytes.
pub fn decode(bytes: &[u8]) -> Option<Result<(Command, &[u8]), Stop>>
    ensures exact { Exactly (Reads bytes.now) (seen result) }
    ensures back { (c : Command) (rest : List ℕ) → Encodable c → bytes.now ≡ encoding c ++ rest → seen result ≡ Some (Ok (c, rest)) }
{
    let [letter, ..] = bytes else {
        return None;
    };
    Some(leading_command(bytes).ok_or_else(|| stop_at(*letter, bytes.len())))
}

// Adds the commands of a file, and says why it was read no further, unless it was read to its end.
pub fn read(bytes: &[u8], commands: &mut Vec<Command>) -> Result<Option<Stop>, AllocError>
    ensures { results.MatchResult result (λ stop. (found : List Command) × Added commands.old found commands.new × Exactly (Schedules bytes.now) (found, stop)) (λ _. (length bytes.now ≤ longest) × NoRoom commands.old (length bytes.now) commands.new) }
{
    if bytes.len() > LONGEST {
        return Ok(Some(Stop::TooLong));
    }
    // A command has one byte at least.
    commands.reserve(bytes.len())?;
    // An iterator over the rest would be one more type, and the loop would stay.
    let mut rest = bytes;
    while let Some(next) = decode(rest) {
        match next {
            Ok((command, after)) => {
                commands.push_reserved(command);
                rest = after;
            }
            Err(stop) => return Ok(Some(stop)),
        }
    }
    Ok(None)
}
