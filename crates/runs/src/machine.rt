// One command, and a list of commands, over a store.
ghost use Rattle.std.specs.Prelude.{◌≡◌, length, MatchResult};
ghost use Rattle.rows.specs.Lent.{Added, NoRoom};
ghost use Rattle.store.specs.States.{state_of};
ghost use Rattle.runs.specs.Machine.{outcome_of, state_after, performed, events_of, state_after_all};

use crate::command::Command;
use crate::event::{Answer, Event, Outcome};
use clocks::bank::Bank;
use std::alloc::AllocError;
use store::store::Store;

fn execute<B: Bank>(store: &mut Store<B>, command: Command) -> Outcome
    ensures answer { result ≡ outcome_of B.Bank (state_of store.old) command }
    ensures after { state_of store.new ≡ state_after B.Bank (state_of store.old) command }
{
    match command {
        Command::Set { channel, pair } => {
            store.set(channel, pair)?;
            Ok(Answer::Done)
        }
        Command::Instant => {
            store.instant();
            Ok(Answer::Done)
        }
        Command::Query { shard } => store.query(shard).map(Answer::from),
    }
}

// Carries out one command.
pub fn perform<B: Bank>(store: &mut Store<B>, command: Command) -> Event
    ensures event { result ≡ performed B.Bank (state_of store.old) command }
    ensures after { state_of store.new ≡ state_after B.Bank (state_of store.old) command }
{
    Event {
        command,
        outcome: execute(store, command),
    }
}

// Carries out the commands one after the other and adds their events; without room for these it does nothing.
pub fn run<B: Bank>(
    store: &mut Store<B>,
    commands: &[Command],
    log: &mut Vec<Event>,
) -> Result<(), AllocError>
    ensures log { MatchResult result (λ _. Added log.old (events_of B.Bank (state_of store.old) commands.now) log.new) (λ _. NoRoom log.old (length commands.now) log.new) }
    ensures after { MatchResult result (λ _. state_of store.new ≡ state_after_all B.Bank (state_of store.old) commands.now) (λ _. state_of store.new ≡ state_of store.old) }
{
    log.reserve(commands.len())?;
    for command in commands {
        log.push_reserved(perform(store, *command));
    }
    Ok(())
}
