//! Where a command that is a value goes.

ghost use Rattle.std.specs.Prelude.{◌≡◌, ◌≢◌, ◌∷◌, IfOk, IfErr, IfSome, map};
ghost use Rattle.resp_command.specs.ShownArgs.{args_left};
ghost use Rattle.resp_routing.specs.CommandArgs.{args_with, bytes_of};
ghost use Rattle.resp_routing.specs.Routes.{HasNoRoute, IsFirstOf, IsRoute};

use crate::command_args::{args_of, bytes_of};
use crate::commands::CommandInfo;
use crate::errors::RoutingError;
use crate::lookup::{GET, info_of_two, is_get};
use crate::routes::{Route, route_of};
use crate::slots::get_slot;
use crate::table::COMMANDS;
use resp_command::{ArgsIter, Cmd};
use std::alloc::Global;

/// Where a command goes: the same as [`route_of`] says of its arguments, where each cursor argument
/// stands as these bytes. Takes no memory where its one key is its first argument after the name.
pub fn route_of_cmd(alloc: Global, command: &Cmd, cursor: &[u8]) -> Result<Route, RoutingError>
    ensures routed { IfOk result (λ route. IsRoute (args_with cursor.now command.now) route) }
    ensures refused { IfErr result (λ e. e ≢ RoutingError.OutOfMemory
        → HasNoRoute (args_with cursor.now command.now) e) }
{
    if let Some(slot) = slot_of_first(command, cursor) {
        return Ok(Route::Slot(slot));
    }
    match args_of(alloc, command, cursor) {
        Ok(args) => route_of(alloc, args.as_slice()),
        Err(_) => Err(RoutingError::OutOfMemory),
    }
}

/// The slot of a command whose one key is its first argument after the name.
fn slot_of_first(command: &Cmd, cursor: &[u8]) -> Option<u16>
    ensures { IfSome result (λ slot. IsRoute (args_with cursor.now command.now)
        (Route.Slot slot)) }
{
    let mut shown = command.args_iter();
    let count = shown.len();
    let name = next_arg(&mut shown, cursor)?;
    let key = next_arg(&mut shown, cursor)?;
    // Apart, so that what is asked of this row is known when it is compiled.
    if is_get(name) {
        slot_by(&COMMANDS[GET], count, key)
    } else {
        slot_by(info_of_two(name, key)?, count, key)
    }
}

/// The slot of this key, if it is the one key of a command with this row and so many arguments, and
/// its first after the name.
#[inline(always)]
fn slot_by(row: &CommandInfo, count: usize, key: &[u8]) -> Option<u16>
    ensures { IfSome result (λ slot. IsFirstOf row.now count key.now slot) }
{
    if row.arity.takes(count) && row.keys.is_first() {
        Some(get_slot(key))
    } else {
        None
    }
}

/// The bytes of the next argument, if there is one.
fn next_arg<'a>(shown: &mut ArgsIter<'a>, cursor: &'a [u8]) -> Option<&'a [u8]>
    ensures { IfSome result (λ arg. map (bytes_of cursor.now) (args_left shown.old)
        ≡ arg.now ∷ map (bytes_of cursor.now) (args_left shown.new)) }
{
    match shown.next() {
        Some(arg) => Some(bytes_of(arg, cursor)),
        None => None,
    }
}
