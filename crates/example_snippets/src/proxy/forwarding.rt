//! One request and its reply, handed on.

ghost use Rattle.std.specs.Prelude.{◌≡◌, ◌≢◌, ◌++◌, OnOk, false};
ghost use Rattle.resp_core.specs.Connections.{PackedCall, routes};
ghost use Rattle.example_snippets.specs.Relayed.{Relays};

use crate::proxy::reply::Reply;
use resp_core::{ConnectionLike, ProtocolVersion, RedisResult};
use resp_encode::encode;

/// Sends the bytes of a command on as they are, and hands the reply to it back.
///
/// Fails as the connection does; a server error is a reply as others are.
pub fn forward(upstream: &mut dyn ConnectionLike, request: &[u8]) -> Reply
    ensures call { PackedCall (connection upstream.old) (connection upstream.new) request.now
        result }
    ensures sent { (connection upstream.old).broken ≡ false
        → (connection upstream.old).policy ≢ routes → OnOk result
        ((connection upstream.new).sent ≡ (connection upstream.old).sent ++ request.now) }
{
    upstream.req_packed_command(request)
}

/// Sends the bytes of a client's command on as they are, and appends what the client is sent for
/// the reply, in its version of the protocol, whichever the server speaks.
///
/// Fails as the connection does, and where a reply has no bytes in that version, as an error with
/// CR LF in it in RESP2; nothing is appended then.
pub fn relay(
    upstream: &mut dyn ConnectionLike,
    request: &[u8],
    protocol: ProtocolVersion,
    replies: &mut Vec<u8>,
) -> RedisResult<()>
    ensures relayed { Relays (connection upstream.old) (connection upstream.new) request.now
        protocol replies.old.items replies.new.items result }
{
    match forward(upstream, request) {
        Ok(reply) => encode(&reply, protocol, replies),
        Err(error) => Err(error),
    }
}
