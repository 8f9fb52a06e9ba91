//! What a command reads and changes.

ghost use Rattle.std.specs.Prelude.{IfOk, OnErr};
ghost use Rattle.example_server.specs.Sessions.{Performs, PerformFails};

use crate::command::Command;
use crate::connection::{Connection, answer_connection};
use crate::reply::Reply;
use crate::store::{Store, answer_keys};
use std::alloc::{AllocError, Global};

/// What a command reads and changes.
#[derive(Drop)]
pub struct State {
    /// What the keys hold.
    pub store: Store,
    /// What is known of the client.
    pub connection: Connection,
}

/// Answers a command. Fails only with out of memory; the state is then as it was, but that `HSET`
/// may have taken the hash away.
pub fn perform(alloc: Global, state: &mut State, command: Command) -> Result<Reply, AllocError>
    ensures answers { IfOk result (Performs state.old state.new command) }
    ensures kept { OnErr result (PerformFails state.old state.new command) }
{
    match command {
        Command::Keys(command) => answer_keys(alloc, &mut state.store, command),
        Command::Connection(command) => { answer_connection(alloc, &mut state.connection, command) }
        Command::Refused(refusal) => Ok(Reply::Refused(refusal)),
    }
}
