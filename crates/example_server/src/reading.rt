//! Requests, out of the words that a client sends.
//!
//! Which request words make is tested, by the commands of `stdin`; a clause says it of the word
//! that names a version alone.

ghost use Rattle.std.specs.Prelude.{pos, IfOk};
ghost use Rattle.example_server.specs.Integers.{Writes};
ghost use Rattle.example_server.specs.Replies.{number_of};

use crate::command::{Command, ConnectionCommand, KeyCommand, Request};
use crate::expire_options::expire_options;
use crate::integers::integer_of;
use crate::names::CommandName;
use crate::refusal::Refusal;
use crate::set_options::set_options;
use resp_core::{Bytes, ProtocolVersion};
use std::alloc::{AllocError, Global};

/// The request of these words.
pub fn request_of(alloc: Global, words: Vec<Vec<u8>>) -> Result<Request, AllocError> {
    let mut words = words;
    let Some(first) = words.first() else {
        return Ok(Request::Unread(Refusal::UnknownCommand(words)));
    };
    let Some(name) = CommandName::of_command(first.as_slice()) else {
        return Ok(Request::Unread(Refusal::UnknownCommand(words)));
    };
    words.remove(0);
    if !name.has_subcommands() || words.is_empty() {
        return request_named(alloc, name, words);
    }
    let word = words.remove(0);
    match name.of_subcommand(word.as_slice()) {
        Some(subcommand) => request_named(alloc, subcommand, words),
        None => Ok(Request::Unread(Refusal::UnknownSubcommand(name, word))),
    }
}

/// The request of this name and these arguments.
fn request_named(
    alloc: Global,
    name: CommandName,
    arguments: Vec<Vec<u8>>,
) -> Result<Request, AllocError> {
    let request = match name {
        CommandName::Multi => none(&arguments, Request::Multi),
        CommandName::Exec => Some(exec(&arguments)),
        CommandName::Discard => none(&arguments, Request::Discard),
        CommandName::Quit => Some(Request::Quit),
        CommandName::HSet => hset(alloc, arguments)?.map(Request::Perform),
        _ => command_named(name, arguments).map(Request::Perform),
    };
    Ok(request.unwrap_or(Request::Unread(Refusal::WrongNumber(name))))
}

/// The command of this name and these arguments, if it takes as many.
fn command_named(name: CommandName, arguments: Vec<Vec<u8>>) -> Option<Command> {
    match name {
        CommandName::Get => Some(Command::Keys(KeyCommand::Get(only(arguments)?))),
        CommandName::Set => set(arguments),
        CommandName::Del => Some(Command::Keys(KeyCommand::Del(some(arguments)?))),
        CommandName::Exists => Some(Command::Keys(KeyCommand::Exists(some(arguments)?))),
        CommandName::Incr => Some(Command::Keys(KeyCommand::Incr(only(arguments)?))),
        CommandName::Expire => expire(arguments),
        CommandName::HGetAll => Some(Command::Keys(KeyCommand::HGetAll(only(arguments)?))),
        _ => connection_command(name, arguments),
    }
}

/// The command about the connection of this name and these arguments.
fn connection_command(name: CommandName, arguments: Vec<Vec<u8>>) -> Option<Command> {
    let command = match name {
        CommandName::Ping => return Some(ping(arguments)),
        CommandName::Echo => ConnectionCommand::Echo(Bytes::from(only(arguments)?)),
        CommandName::Hello => return Some(hello(arguments)),
        CommandName::Select => return select(arguments),
        CommandName::ClientId => none(&arguments, ConnectionCommand::Id)?,
        CommandName::ClientGetName => none(&arguments, ConnectionCommand::GetName)?,
        CommandName::ClientSetName => return Some(set_name(only(arguments)?)),
        CommandName::ClientSetInfo => return set_info(arguments),
        CommandName::Command => ConnectionCommand::Commands,
        CommandName::CommandDocs => ConnectionCommand::Documents,
        _ => return None,
    };
    Some(Command::Connection(command))
}

fn exec(arguments: &Vec<Vec<u8>>) -> Request {
    if arguments.is_empty() {
        Request::Exec
    } else {
        Request::ExecWithArguments
    }
}

/// What is asked for with no argument.
fn none<T: Drop>(arguments: &Vec<Vec<u8>>, request: T) -> Option<T> {
    if arguments.is_empty() {
        Some(request)
    } else {
        None
    }
}

/// The one argument.
fn only(arguments: Vec<Vec<u8>>) -> Option<Vec<u8>> {
    let mut arguments = arguments;
    if arguments.len() == 1 {
        arguments.pop()
    } else {
        None
    }
}

/// With two arguments or more it is a command that is refused, so a transaction can queue it.
fn ping(arguments: Vec<Vec<u8>>) -> Command {
    let mut arguments = arguments;
    if arguments.len() <= 1 {
        Command::Connection(ConnectionCommand::Ping(arguments.pop().map(Bytes::from)))
    } else {
        Command::Refused(Refusal::WrongNumber(CommandName::Ping))
    }
}

/// One argument or more.
fn some(arguments: Vec<Vec<u8>>) -> Option<Vec<Vec<u8>>> {
    if arguments.is_empty() {
        None
    } else {
        Some(arguments)
    }
}

fn set(arguments: Vec<Vec<u8>>) -> Option<Command> {
    let mut arguments = arguments.into_iter();
    let key = arguments.next()?;
    let value = Bytes::from(arguments.next()?);
    match set_options(arguments) {
        Ok(options) => Some(Command::Keys(KeyCommand::Set(key, value, options))),
        Err(refusal) => Some(Command::Refused(refusal)),
    }
}

fn expire(arguments: Vec<Vec<u8>>) -> Option<Command> {
    let mut arguments = arguments.into_iter();
    let key = arguments.next()?;
    let seconds = arguments.next()?;
    match expire_options(seconds.as_slice(), arguments) {
        Ok((time, reach)) => Some(Command::Keys(KeyCommand::Expire(key, time, reach))),
        Err(refusal) => Some(Command::Refused(refusal)),
    }
}

fn hset(alloc: Global, arguments: Vec<Vec<u8>>) -> Result<Option<Command>, AllocError> {
    if arguments.len() < 3 {
        return Ok(None);
    }
    let mut arguments = arguments.into_iter();
    let Some(key) = arguments.next() else {
        return Ok(None);
    };
    let mut fields = Vec::new(alloc);
    let mut field = None;
    for word in arguments {
        match field {
            Some(name) => {
                fields.push((name, Bytes::from(word)))?;
                field = None;
            }
            None => field = Some(word),
        }
    }
    Ok(Some(match field {
        Some(_) => Command::Refused(Refusal::WrongNumber(CommandName::HSet)),
        None => Command::Keys(KeyCommand::HSet(key, fields)),
    }))
}

fn hello(arguments: Vec<Vec<u8>>) -> Command {
    let mut arguments = arguments.into_iter();
    let version = match arguments.next() {
        Some(version) => version_of(version.as_slice()).map(Some),
        None => Ok(None),
    };
    match (version, arguments.next()) {
        (Err(refusal), _) => Command::Refused(refusal),
        (Ok(_), Some(option)) => Command::Refused(Refusal::HelloOption(option)),
        (Ok(version), None) => Command::Connection(ConnectionCommand::Hello(version)),
    }
}

fn version_of(word: &[u8]) -> Result<ProtocolVersion, Refusal>
    ensures { IfOk result (λ version. Writes word.now (pos (number_of version))) }
{
    match integer_of(word) {
        Some(2) => Ok(ProtocolVersion::RESP2),
        Some(3) => Ok(ProtocolVersion::RESP3),
        Some(_) => Err(Refusal::NoSuchVersion),
        None => Err(Refusal::VersionNotInteger),
    }
}

fn select(arguments: Vec<Vec<u8>>) -> Option<Command> {
    Some(match integer_of(only(arguments)?.as_slice()) {
        Some(0) => Command::Connection(ConnectionCommand::Select),
        Some(_) => Command::Refused(Refusal::NoSuchDatabase),
        None => Command::Refused(Refusal::NotInteger),
    })
}

fn set_name(name: Vec<u8>) -> Command {
    if name.as_slice().iter().all(|byte| byte.is_ascii_graphic()) {
        Command::Connection(ConnectionCommand::SetName(Bytes::from(name)))
    } else {
        Command::Refused(Refusal::ClientName)
    }
}

fn set_info(arguments: Vec<Vec<u8>>) -> Option<Command> {
    if arguments.len() == 2 {
        Some(Command::Connection(ConnectionCommand::SetInfo))
    } else {
        None
    }
}
