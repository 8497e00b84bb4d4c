// A command's bytes.
ghost use Rattle.std.specs.Prelude.{◌≡◌, ◌+◌, ◌≤◌, [], ◌∷◌, length, vec_len, vec_capacity, MatchResult, OnOk};
ghost use Rattle.std.specs.Int.{w64, to_be_bytes};
ghost use Rattle.rows.specs.Lent.{Added, NoRoom};
ghost use Rattle.schedule.specs.Encoding.{form_of, encoding, Encodable};

use crate::form::form_of;
use runs::command::Command;
use std::alloc::AllocError;

// Adds the bytes that reading turns back into the command, whatever follows them.
pub fn encode(command: &Command, bytes: &mut Vec<u8>) -> Result<(), AllocError>
    ensures { MatchResult result (λ _. Encodable command.now × Added bytes.old (encoding command.now) bytes.new) (λ _. NoRoom bytes.old (length (encoding command.now)) bytes.new) }
{
    match command {
        Command::Set { channel, pair } => {
            begin(command, bytes)?;
            bytes.push_reserved(*channel);
            append(bytes, pair.first);
            append(bytes, pair.second);
        }
        Command::Instant => begin(command, bytes)?,
        Command::Query { shard } => {
            begin(command, bytes)?;
            bytes.push_reserved(*shard);
        }
    }
    Ok(())
}

// Makes room for the command's bytes, and adds its letter: with this room nothing after it fails.
#[tactic(auto, using(crate::proofs::Widths::width_is))]
fn begin(command: &Command, bytes: &mut Vec<u8>) -> Result<(), AllocError>
    ensures items { MatchResult result (λ _. Added bytes.old ((form_of command.now).letter ∷ []) bytes.new) (λ _. NoRoom bytes.old (length (encoding command.now)) bytes.new) }
    ensures room { OnOk result ((vec_len bytes.new ≡ vec_len bytes.old + 1) × (vec_len bytes.old + length (encoding command.now) ≤ vec_capacity bytes.new)) }
{
    let form = form_of(command);
    bytes.reserve(form.width)?;
    bytes.push_reserved(form.letter);
    Ok(())
}

// Eight bytes more, the highest first.
fn append(bytes: &mut Vec<u8>, number: u64)
    requires { vec_len bytes.old + 8 ≤ vec_capacity bytes.old }
    ensures items { Added bytes.old (to_be_bytes w64 number) bytes.new }
    ensures len { vec_len bytes.new ≡ vec_len bytes.old + 8 }
    ensures capacity { vec_capacity bytes.new ≡ vec_capacity bytes.old }
{
    for byte in number.to_be_bytes() {
        bytes.push_reserved(byte);
    }
}
