//! Commands read back from the bytes that send them.

ghost use Rattle.std.specs.Prelude.{◌≡◌, All, IfOk, false, length};
ghost use Rattle.resp_cluster.specs.Gathered.{request_of};

use resp_command::Cmd;
use resp_containers::Items;
use resp_parse::Parser;
use resp_value::{ErrorKind, RedisError, RedisResult, Value};
use std::alloc::Global;

/// The commands that these bytes send, so many of them. Refuses, with kind `Client`, bytes that
/// aren't as [`Cmd::write_packed_command`] writes them.
pub(crate) fn commands_in(alloc: Global, bytes: &[u8], count: usize) -> RedisResult<Vec<Cmd>>
    ensures sent { IfOk result (λ commands. request_of commands.items ≡ bytes.now) }
    ensures counted { IfOk result (λ commands. length commands.items ≡ count) }
    ensures awaited { IfOk result (λ commands. All (λ c. c.no_response ≡ false) commands.items) }
{
    let commands = read_commands(alloc, bytes, count)?;
    let again = packed(alloc, commands.as_slice())?;
    if again.as_slice() == bytes {
        Ok(commands)
    } else {
        Err(not_packed())
    }
}

/// So many commands that values in these bytes make.
fn read_commands(alloc: Global, bytes: &[u8], count: usize) -> RedisResult<Vec<Cmd>>
    ensures counted { IfOk result (λ commands. length commands.items ≡ count) }
    ensures awaited { IfOk result (λ commands. All (λ c. c.no_response ≡ false) commands.items) }
{
    let mut parser = Parser::new(alloc);
    parser.feed(bytes)?;
    let mut commands = Vec::new(alloc);
    for read in 0..count {
        let Some(Value::Array(words)) = parser.take_value()? else {
            return Err(not_packed());
        };
        commands.push(command_of(alloc, words)?)?;
    }
    Ok(commands)
}

/// The command of these words.
fn command_of(alloc: Global, words: Items<Value>) -> RedisResult<Cmd>
    ensures { IfOk result (λ command. command.no_response ≡ false) }
{
    let mut command = Cmd::new(alloc);
    for word in words.into_vec() {
        let Value::BulkString(arg) = word else {
            return Err(not_packed());
        };
        command.push_arg(arg.as_slice())?;
    }
    Ok(command)
}

/// The bytes that send these commands.
fn packed(alloc: Global, commands: &[Cmd]) -> RedisResult<Vec<u8>>
    ensures { IfOk result (λ bytes. bytes.items ≡ request_of commands.now) }
{
    let mut bytes = Vec::new(alloc);
    for command in commands {
        command.write_packed_command(&mut bytes)?;
    }
    Ok(bytes)
}

fn not_packed() -> RedisError {
    RedisError::from((
        ErrorKind::Client,
        "the bytes are no packed commands, so many as replies are wanted",
    ))
}
