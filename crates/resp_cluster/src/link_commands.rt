//! Commands that change what a link is.

ghost use Rattle.std.specs.Prelude.{◌≡◌, ◌∷◌, [], IfNone, IfSome};
ghost use Rattle.resp_command.specs.ShownArgs.{args_left};
ghost use Rattle.resp_cluster.specs.Cluster.{routed_args};
ghost use Rattle.resp_cluster.specs.LinkCommands.{is_link_command, is_of_modes, is_of_sessions};
ghost use Rattle.resp_cluster.specs.LinkCommands.{as_bytes, is_alone, is_of_transactions};

use resp_command::{Arg, ArgsIter, Cmd};

/// Whether this is one, by its name, in letters of either case.
pub(crate) fn is_link_command(command: &Cmd) -> bool
    ensures { result ≡ is_link_command (routed_args command.now) }
{
    let mut shown = command.args_iter();
    match next_arg(&mut shown) {
        Some(name) => is_of_transactions(name) || is_of_modes(name) || is_of_sessions(name),
        None => false,
    }
}

/// Whether this is a command of this name, in letters of either case, without arguments.
pub(crate) fn is_alone(command: &Cmd, name: &[u8]) -> bool
    ensures { result ≡ is_alone name.now (routed_args command.now) }
{
    let mut shown = command.args_iter();
    let Some(word) = next_arg(&mut shown) else {
        return false;
    };
    match next_arg(&mut shown) {
        Some(_) => false,
        None => word.eq_ignore_ascii_case(name),
    }
}

/// The bytes of the next argument, if there is one; a cursor argument counts as 0.
fn next_arg<'a>(shown: &mut ArgsIter<'a>) -> Option<&'a [u8]>
    ensures some { IfSome result (λ arg. as_bytes (args_left shown.old)
        ≡ arg.now ∷ as_bytes (args_left shown.new)) }
    ensures none { IfNone result (args_left shown.old ≡ []) }
{
    match shown.next() {
        Some(Arg::Simple(arg)) => Some(arg),
        Some(Arg::Cursor) => Some(b"0"),
        None => None,
    }
}

#[tactic(auto, unfolding(crate::specs::LinkCommands::is_of_transactions))]
fn is_of_transactions(name: &[u8]) -> bool
    ensures { result ≡ is_of_transactions name.now }
{
    name.eq_ignore_ascii_case(b"DISCARD")
        || name.eq_ignore_ascii_case(b"EXEC")
        || name.eq_ignore_ascii_case(b"MULTI")
        || name.eq_ignore_ascii_case(b"UNWATCH")
        || name.eq_ignore_ascii_case(b"WATCH")
}

#[tactic(auto, unfolding(crate::specs::LinkCommands::is_of_modes))]
fn is_of_modes(name: &[u8]) -> bool
    ensures { result ≡ is_of_modes name.now }
{
    name.eq_ignore_ascii_case(b"ASKING")
        || name.eq_ignore_ascii_case(b"MONITOR")
        || name.eq_ignore_ascii_case(b"READONLY")
        || name.eq_ignore_ascii_case(b"READWRITE")
}

#[tactic(auto, unfolding(crate::specs::LinkCommands::is_of_sessions))]
fn is_of_sessions(name: &[u8]) -> bool
    ensures { result ≡ is_of_sessions name.now }
{
    name.eq_ignore_ascii_case(b"AUTH")
        || name.eq_ignore_ascii_case(b"HELLO")
        || name.eq_ignore_ascii_case(b"QUIT")
        || name.eq_ignore_ascii_case(b"RESET")
        || name.eq_ignore_ascii_case(b"SELECT")
}
