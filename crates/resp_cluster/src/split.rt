//! Commands whose keys are in several slots.

ghost use Rattle.std.specs.Prelude.{◌≡◌, ◌≢◌, ◌<◌, ◌%◌, ◌++◌, ◌∷◌, IfOk, IfErr, OnOk, All, length};
ghost use Rattle.resp_errors.specs.Memory.{OnlyMemory};
ghost use Rattle.resp_command.specs.Command.{new_command};
ghost use Rattle.resp_routing.specs.Commands.{words};
ghost use Rattle.resp_routing.specs.Slots.{IsSlot};
ghost use Rattle.resp_cluster.specs.Gathered.{of_node};
ghost use Rattle.resp_cluster.specs.Splits.{AreEntries, BySlot, HasAt, IsSplit};
ghost use Rattle.resp_cluster.specs.Splits.{entries_in, command_of, key_of, merge_of, width_of};

use resp_command::Cmd;
use resp_errors::RedisResult;
use resp_routing::{
    CommandInfo, FindKeys, Keys, RequestPolicy, ResponsePolicy, RoutingError, get_slot,
};
use std::alloc::{AllocError, Global};

/// How the replies to the parts of a command are put together.
#[derive(Clone, Copy, PartialEq, Eq, Debug, Drop)]
pub enum Merge {
    /// The values of their arrays, each in the place of its key: `MGET`.
    Values,
    /// The sum of their numbers: `DEL`, `UNLINK`, `EXISTS`, `TOUCH`.
    Sum,
    /// `OK`, where all are: `MSET`.
    AllSucceeded,
}

/// The parts of a command, one for each slot that its keys are in.
#[derive(Drop)]
pub(crate) struct Parts {
    /// The commands.
    pub commands: Vec<Cmd>,
    /// For each key, in order, the position of the command that has it.
    pub places: Vec<usize>,
}

/// How the parts of a command are put together; None where it can't be split.
pub(crate) fn merge_of(command: &CommandInfo) -> Option<Merge>
    ensures { result ≡ merge_of command.now }
{
    match (command.request_policy, command.response_policy) {
        (Some(RequestPolicy::MultiShard), None) => Some(Merge::Values),
        (Some(RequestPolicy::MultiShard), Some(ResponsePolicy::AggSum)) => Some(Merge::Sum),
        (Some(RequestPolicy::MultiShard), Some(ResponsePolicy::AllSucceeded)) => {
            Some(Merge::AllSucceeded)
        }
        _ => None,
    }
}

/// How many arguments an entry has: its key, and its value where values stand between keys.
pub(crate) fn width_of(keys: &Keys) -> usize
    ensures width { result ≡ width_of keys.now }
    ensures some { 0 < result }
{
    match keys {
        Keys::One(spec) => match spec.find {
            FindKeys::EverySecond => 2,
            _ => 1,
        },
        _ => 1,
    }
}

/// The arguments in entries of this many. Refused with `WrongArity` where some are left.
pub(crate) fn entries<'a, 'b>(
    alloc: Global,
    args: &'a [&'b [u8]],
    width: usize,
) -> Result<Vec<&'a [&'b [u8]]>, RoutingError>
    requires { 0 < width }
    ensures entries { IfOk result (λ entries. AreEntries width (words args.now)
        (entries_in entries.items)) }
    ensures refused { IfErr result (λ e. e ≢ RoutingError.OutOfMemory
        → (e ≡ RoutingError.WrongArity) × (length args.now % width ≢ 0)) }
{
    let mut entries = Vec::new(alloc);
    let mut left = args;
    while left.len() >= width {
        entries.push(&left[..width])?;
        left = &left[width..];
    }
    if left.is_empty() {
        Ok(entries)
    } else {
        Err(RoutingError::WrongArity)
    }
}

/// The slots of the entries' keys, each once, and for each entry the position of its slot.
fn by_slot(alloc: Global, entries: &[&[&[u8]]]) -> Result<(Vec<u16>, Vec<usize>), AllocError>
    ensures { IfOk result (λ found. BySlot found.0.items found.1.items (entries_in entries.now)) }
{
    let mut slots = Vec::new(alloc);
    let mut places = Vec::with_capacity(alloc, entries.len())?;
    for entry in entries {
        places.push(place_of(&mut slots, slot_of(entry))?)?;
    }
    Ok((slots, places))
}

/// The slot of an entry's key, that of no bytes where it has none.
fn slot_of(entry: &[&[u8]]) -> u16
    ensures { IsSlot (key_of (words entry.now)) result }
{
    match entry {
        [key, ..] => get_slot(key),
        [] => get_slot(b""),
    }
}

/// The position of a slot, which is added where it isn't there.
fn place_of(slots: &mut Vec<u16>, slot: u16) -> Result<usize, AllocError>
    ensures { IfOk result (λ place. HasAt slots.old.items slot slots.new.items place) }
{
    for place in 0..slots.len() {
        if slots[place] == slot {
            return Ok(place);
        }
    }
    slots.push(slot)?;
    Ok(slots.len() - 1)
}

/// The command of a part: the name, and then the entries of that part.
fn part_of(
    alloc: Global,
    name: &[u8],
    entries: &[&[&[u8]]],
    places: &[usize],
    part: usize,
) -> RedisResult<Cmd>
    requires { length places.now ≡ length entries.now }
    ensures given { IfOk result (λ command. command ≡ command_of name.now places.now (entries_in entries.now) part) }
    ensures memory { OnlyMemory result }
{
    let mut command = Cmd::new(alloc);
    command.push_arg(name)?;
    for at in 0..entries.len() {
        if places[at] == part {
            push_all(&mut command, entries[at])?;
        }
    }
    Ok(command)
}

/// Adds arguments to a command.
fn push_all(command: &mut Cmd, args: &[&[u8]]) -> RedisResult<()>
    ensures added { OnOk result (command.new
        ≡ record command.old { args = command.old.args ++ words args.now }) }
    ensures memory { OnlyMemory result }
{
    for arg in args {
        command.push_arg(*arg)?;
    }
    Ok(())
}

/// A command in parts, one for each slot that the keys of its entries are in.
pub(crate) fn split(alloc: Global, name: &[u8], entries: &[&[&[u8]]]) -> RedisResult<Parts>
    ensures split { IfOk result (λ parts. IsSplit name.now (entries_in entries.now) parts.commands.items
        parts.places.items) }
    ensures memory { OnlyMemory result }
{
    let (slots, places) = by_slot(alloc, entries)?;
    let mut commands = Vec::with_capacity(alloc, slots.len())?;
    for part in 0..slots.len() {
        commands.push(part_of(alloc, name, entries, places.as_slice(), part)?)?;
    }
    Ok(Parts { commands, places })
}
