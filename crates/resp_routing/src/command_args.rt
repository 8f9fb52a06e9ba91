//! Arguments of commands that are values.

ghost use Rattle.std.specs.Prelude.{◌≡◌, [], IfOk};
ghost use Rattle.resp_routing.specs.CommandArgs.{args_with, bytes_of};
ghost use Rattle.resp_command.specs.ShownArgs.{referent};
ghost use Rattle.resp_routing.specs.Commands.{words};

use resp_command::{Arg, Cmd};
use std::alloc::{AllocError, Global};

/// The arguments of a command in order, the name first, as [`route_of`](crate::route_of) and the
/// other functions want them. Each cursor argument stands as these bytes. Fails only when out of
/// memory.
pub fn args_of<'a>(
    alloc: Global,
    command: &'a Cmd,
    cursor: &'a [u8],
) -> Result<Vec<&'a [u8]>, AllocError>
    ensures shown { IfOk result (λ args. words args.items ≡ args_with cursor.now command.now) }
    ensures plain { command.now.cursors ≡ [] → IfOk result (λ args. words args.items
        ≡ command.now.args) }
{
    let mut shown = command.args_iter();
    let mut args = Vec::with_capacity(alloc, shown.len())?;
    while let Some(arg) = shown.next() {
        args.push(bytes_of(arg, cursor))?;
    }
    Ok(args)
}

/// The bytes of an argument.
pub(crate) fn bytes_of<'a>(arg: Arg<&'a [u8]>, cursor: &'a [u8]) -> &'a [u8]
    ensures { result.now ≡ bytes_of cursor.now (referent arg.entry) }
{
    match arg {
        Arg::Simple(bytes) => bytes,
        Arg::Cursor => cursor,
    }
}
