//! Finding a command in the table.

ghost use Rattle.std.specs.Prelude.{◌≡◌, ◌∷◌, [], IsTrue, true, codes};
ghost use Rattle.std.specs.Str.{str_eq_ignore_ascii_case};
ghost use Rattle.std.specs.List.{find};
ghost use Rattle.std.specs.Option.{option_copied};
ghost use Rattle.resp_routing.specs.Commands.{command_in, command_of, is_named, takes, unpadded};
ghost use Rattle.resp_routing.specs.Commands.{words};
ghost use Rattle.resp_routing.specs.Places.{are_in_place};

use crate::commands::{Arity, CommandInfo, Keys};
use crate::places::place_of;
use crate::table::COMMANDS;

/// Where the table has the row of `GET`.
pub(crate) const GET: usize = 134;

/// Where the table has the row of `SET`.
const SET: usize = 265;

/// What is known of a command, given its arguments, the name first; None of one that [`COMMANDS`]
/// doesn't have.
///
/// The case of ASCII letters in names is no matter. A command that has subcommands is told by its
/// first two arguments, and by the name alone where there is no second.
pub fn command_info(args: &[&[u8]]) -> Option<&'static CommandInfo>
    ensures { option_copied result ≡ command_of (words args.now) }
{
    match args {
        [] => None,
        [name] => row_named(&COMMANDS, name, &[]),
        [name, word, ..] => info_of_two(name, word),
    }
}

/// The same, given the first two arguments. The names that are sent most are told by their letters,
/// which is quicker than by their place.
#[inline]
pub(crate) fn info_of_two(name: &[u8], word: &[u8]) -> Option<&'static CommandInfo>
    ensures { option_copied result ≡ command_of (name.now ∷ word.now ∷ []) }
{
    if is_get(name) {
        Some(&COMMANDS[GET])
    } else if is_set(name) {
        Some(&COMMANDS[SET])
    } else {
        info_in(&COMMANDS, name, word)
    }
}

/// Whether this is the name of the command `GET`.
pub(crate) fn is_get(name: &[u8]) -> bool
    ensures { IsTrue result → IsTrue (str_eq_ignore_ascii_case (codes "get") name.now) }
{
    matches!(name, [b'G' | b'g', b'E' | b'e', b'T' | b't'])
}

/// Whether this is the name of the command `SET`.
fn is_set(name: &[u8]) -> bool
    ensures { IsTrue result → IsTrue (str_eq_ignore_ascii_case (codes "set") name.now) }
{
    matches!(name, [b'S' | b's', b'E' | b'e', b'T' | b't'])
}

/// The row in this table of a command with these first two arguments.
#[tactic(auto, unfolding(crate::specs::Commands::command_in))]
fn info_in(table: &'static [CommandInfo], name: &[u8], word: &[u8]) -> Option<&'static CommandInfo>
    requires { are_in_place 0 table.now ≡ true }
    ensures { option_copied result ≡ command_in table.now (name.now ∷ word.now ∷ []) }
{
    let command = row_named(table, name, &[])?;
    match command.keys {
        Keys::OfSubcommand => row_named(table, name, word),
        _ => Some(command),
    }
}

/// The row of this command and subcommand, which is empty where there is none.
fn row_named(
    table: &'static [CommandInfo],
    name: &[u8],
    subcommand: &[u8],
) -> Option<&'static CommandInfo>
    requires { are_in_place 0 table.now ≡ true }
    ensures { option_copied result ≡ find (is_named name.now subcommand.now) table.now }
{
    let row = table.get(place_of(name, subcommand))?;
    if row.is_named(name, subcommand) {
        Some(row)
    } else {
        None
    }
}

impl CommandInfo {
    fn is_named(&self, name: &[u8], subcommand: &[u8]) -> bool
        ensures { result ≡ is_named name.now subcommand.now self.now }
    {
        without_padding(&self.name).eq_ignore_ascii_case(name)
            && without_padding(&self.subcommand).eq_ignore_ascii_case(subcommand)
    }
}

/// The name without the spaces after it.
fn without_padding(name: &[u8]) -> &[u8]
    ensures { result.now ≡ unpadded name.now }
{
    for (length, byte) in name.iter().enumerate() {
        if *byte == b' ' {
            return &name[..length];
        }
    }
    name
}

impl Arity {
    /// Whether a command of this arity may have so many arguments.
    pub fn takes(&self, count: usize) -> bool
        ensures { result ≡ takes self.now count }
    {
        match self {
            Arity::Exactly(wanted) => count == *wanted,
            Arity::AtLeast(least) => count >= *least,
        }
    }
}
