//! The first step of a command.

ghost use Rattle.std.specs.Prelude.{◌≡◌, ◌∷◌, [], IfOk};
ghost use Rattle.resp_errors.specs.Memory.{OnlyMemory};
ghost use Rattle.resp_command.specs.Command.{new_command};

use crate::command::Cmd;
use resp_args::RedisWrite;
use resp_value::RedisResult;
use std::alloc::Global;

/// A command of this name, without arguments so far. Fails only with `OutOfMemory`.
pub fn cmd(alloc: Global, name: &str) -> RedisResult<Cmd>
    ensures named { IfOk result (λ c. c ≡ record new_command { args = name.now ∷ [] }) }
    ensures memory { OnlyMemory result }
{
    let mut command = Cmd::new(alloc);
    command.write_arg(name.as_bytes())?;
    Ok(command)
}
