//! What the server knows of its client, and the commands about it.

ghost use Rattle.std.specs.Prelude.{◌≡◌, IfOk, OnOk, OnErr};
ghost use Rattle.example_server.specs.Connections.{connection_after, connection_reply, shown_name};

use crate::command::ConnectionCommand;
use crate::reply::Reply;
use resp_core::{Bytes, ProtocolVersion};
use std::alloc::{AllocError, Global};

/// What the server knows of its client.
#[derive(Drop)]
pub struct Connection {
    /// The name of the client; empty where it has none.
    pub name: Bytes,
    /// The version in which it is answered.
    pub protocol: ProtocolVersion,
}

/// Answers a command about the connection. Fails only with out of memory, and changes nothing then.
pub fn answer_connection(
    alloc: Global,
    connection: &mut Connection,
    command: ConnectionCommand,
) -> Result<Reply, AllocError>
    ensures reply { IfOk result (λ reply. reply ≡ connection_reply connection.old command) }
    ensures after { OnOk result (connection.new ≡ connection_after connection.old command) }
    ensures unchanged { OnErr result (connection.new ≡ connection.old) }
{
    match command {
        ConnectionCommand::Ping(None) => Ok(Reply::Pong),
        ConnectionCommand::Ping(Some(message)) => Ok(Reply::Found(Some(message))),
        ConnectionCommand::Echo(message) => Ok(Reply::Found(Some(message))),
        ConnectionCommand::Hello(version) => Ok(hello(connection, version)),
        ConnectionCommand::Id => Ok(Reply::Count(1)),
        ConnectionCommand::GetName => Ok(Reply::Found(name_of(alloc, connection)?)),
        ConnectionCommand::SetName(name) => {
            connection.name = name;
            Ok(Reply::Okay)
        }
        ConnectionCommand::Select | ConnectionCommand::SetInfo => Ok(Reply::Okay),
        ConnectionCommand::Commands => Ok(Reply::NoCommands),
        ConnectionCommand::Documents => Ok(Reply::NoDocuments),
    }
}

/// Chooses a version of the protocol, if one is named.
fn hello(connection: &mut Connection, version: Option<ProtocolVersion>) -> Reply
    ensures reply { result ≡ connection_reply connection.old (ConnectionCommand.Hello version) }
    ensures after { connection.new
        ≡ connection_after connection.old (ConnectionCommand.Hello version) }
{
    if let Some(version) = version {
        connection.protocol = version;
    }
    Reply::Greeting(connection.protocol)
}

/// The name of the client, if it has one.
fn name_of(alloc: Global, connection: &Connection) -> Result<Option<Bytes>, AllocError>
    ensures { IfOk result (λ name. name ≡ shown_name connection.now.name) }
{
    if connection.name.is_empty() {
        return Ok(None);
    }
    Ok(Some(Bytes::from_slice(alloc, connection.name.as_slice())?))
}
