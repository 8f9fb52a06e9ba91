//! One command of a client, passed on or refused.

ghost use Rattle.std.specs.Prelude.{◌≡◌, OnOk};
ghost use Rattle.resp_core.specs.Connections.{packed};
ghost use Rattle.resp_core.specs.Arguments.{args_of};
ghost use Rattle.example_snippets.specs.Proxied.{handling_of};
ghost use Rattle.example_snippets.specs.Relayed.{Relays};
ghost use Rattle.example_snippets.specs.declared.proxy.commands.Handling.TheVariants.{Forward, Refuse};

use crate::proxy::commands::{ClientState, Handling, handling_of};
use crate::proxy::forwarding::{forward, relay};
use crate::proxy::reply::{PING, end_subscribing, is_error, refusal};
use resp_core::{ConnectionLike, ProtocolVersion, RedisResult, pack_command};
use resp_encode::encode;
use std::alloc::Global;

/// Passes a client's command on, and appends what the client is sent for it. The words are the
/// command's name and its arguments.
///
/// A command that has no single reply is refused with an error in its name, and nothing is sent on:
/// `handling_of` says which. `HELLO`, `RESET` and `QUIT` change what is known of the client by the
/// reply. The pushes that answer `SUBSCRIBE` are set aside, for `hand_on_pushes`.
///
/// Fails as the connection does, and where a reply has no bytes in the client's version.
pub fn pass_on(
    alloc: Global,
    upstream: &mut dyn ConnectionLike,
    client: &mut ClientState,
    words: &[Vec<u8>],
    replies: &mut Vec<u8>,
) -> RedisResult<()>
    ensures refused { handling_of client.old words.now ≡ Refuse
        → connection upstream.new ≡ connection upstream.old }
    ensures own_reply { handling_of client.old words.now ≡ Forward → OnOk result
        (Relays (connection upstream.old) (connection upstream.new) (packed (args_of words.now))
        client.old.protocol replies.old.items replies.new.items result) }
{
    match handling_of(client, words) {
        Handling::Refuse => refuse(alloc, client.protocol, words, replies),
        Handling::Forward => {
            let request = pack_command(alloc, words)?;
            relay_noting(upstream, client, words, request.as_slice(), replies)
        }
        other => pass_on_other(alloc, upstream, client, other, words, replies),
    }
}

/// Appends the refusal of a command.
fn refuse(
    alloc: Global,
    protocol: ProtocolVersion,
    words: &[Vec<u8>],
    replies: &mut Vec<u8>,
) -> RedisResult<()> {
    encode(&refusal(alloc, words)?, protocol, replies)
}

/// Passes a command on that has one reply, and notes where a transaction begins and ends.
fn relay_noting(
    upstream: &mut dyn ConnectionLike,
    client: &mut ClientState,
    words: &[Vec<u8>],
    request: &[u8],
    replies: &mut Vec<u8>,
) -> RedisResult<()>
    ensures relayed { Relays (connection upstream.old) (connection upstream.new) request.now
        client.old.protocol replies.old.items replies.new.items result }
{
    let before = replies.len();
    let protocol = client.protocol;
    relay(upstream, request, protocol, replies)?;
    client.note_transaction(words, replies.as_slice().get(before) == Some(&b'-'));
    Ok(())
}

/// Passes a command on that isn't just relayed.
fn pass_on_other(
    alloc: Global,
    upstream: &mut dyn ConnectionLike,
    client: &mut ClientState,
    handling: Handling,
    words: &[Vec<u8>],
    replies: &mut Vec<u8>,
) -> RedisResult<()> {
    let request = request_of(alloc, handling, words)?;
    let reply = forward(upstream, request.as_slice())?;
    if handling == Handling::Subscribe {
        return end_subscribing(upstream, client.protocol, &reply, replies);
    }
    client.note(handling, words, is_error(&reply));
    encode(&reply, client.protocol, replies)
}

/// The bytes of a command, with `PING` after `SUBSCRIBE`.
fn request_of(alloc: Global, handling: Handling, words: &[Vec<u8>]) -> RedisResult<Vec<u8>> {
    let mut request = pack_command(alloc, words)?;
    if handling == Handling::Subscribe {
        request.extend_from_slice(PING)?;
    }
    Ok(request)
}
