//! Errors that tell their command.

ghost use Rattle.resp_command.specs.CommandErrors.{IsNameOf, NamedQuery};
ghost use Rattle.resp_containers.specs.Lossy.{lossy};
ghost use Rattle.std.specs.Prelude.{◌≡◌, ◌⊎◌, []};

use crate::args_iter::Arg;
use crate::command::Cmd;
use crate::connection::ConnectionLike;
use resp_from::FromRedisValue;
use resp_value::{RedisError, Text};
use std::alloc::Global;
use std::error::Error;
use std::fmt;

/// What a query was refused with, and the name of its command: shown as `GET: ` and the error.
#[derive(Debug, Drop)]
pub struct CommandError {
    /// The command's first argument, with U+FFFD for what is no UTF-8. It is empty where memory ran
    /// out for it, and of an empty command.
    pub name: Text,
    /// What the query was refused with.
    pub error: RedisError,
}

impl Cmd {
    /// Sends the command and converts its reply, as [`Cmd::query`] does; an error tells the name of
    /// the command, too. `?` in a function that answers a `RedisResult` gives the error alone.
    pub fn query_named<T: FromRedisValue>(
        &self,
        con: &mut dyn ConnectionLike,
    ) -> Result<T, CommandError>
        ensures { NamedQuery (connection con.old) (connection con.new) self.now T.of_value result }
    {
        match self.query(con) {
            Ok(answer) => Ok(answer),
            Err(error) => Err(CommandError {
                name: self.name(),
                error,
            }),
        }
    }

    /// The first argument as text, or none where memory runs out.
    fn name(&self) -> Text
        ensures { IsNameOf self.now.args result }
    {
        match self.args_iter().next() {
            Some(Arg::Simple(name)) => lossy_text(self.alloc, name),
            Some(Arg::Cursor) | None => Text::from(String::new(self.alloc)),
        }
    }
}

/// Bytes as text, or none where memory runs out.
fn lossy_text(alloc: Global, bytes: &[u8]) -> Text
    ensures { (result ≡ lossy bytes.now) ⊎ (result ≡ []) }
{
    match Text::from_utf8_lossy(alloc, bytes) {
        Ok(text) => text,
        Err(_) => Text::from(String::new(alloc)),
    }
}

impl fmt::Display for CommandError {
    fn fmt<W: fmt::Write>(&self, f: &mut fmt::Formatter<W>) -> fmt::Result {
        let CommandError { name, error } = self;
        write!(f, "{name}: {error}")
    }
}

impl Error for CommandError {}

impl From<CommandError> for RedisError {
    ghost use Rattle.std.specs.Prelude.{◌≡◌};

    ghost from_gives = { λ named e. e ≡ named.error };

    fn from(named: CommandError) -> RedisError {
        named.error
    }
}
