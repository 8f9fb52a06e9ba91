//! Connections.
//!
//! The trait lies beside [`Cmd`](crate::Cmd), since each names the other: a connection takes a
//! command, and a command's query takes a connection.

ghost use Rattle.std.specs.Prelude.{◌≡◌, ◌≢◌, ◌+◌, Ok, IfOk, length, not};
ghost use Rattle.resp_command.specs.Connection.{Connection, routes};
ghost use Rattle.resp_command.specs.Call.{Call, CommandCall, PackedCall, AnswersFrom};

use crate::command::Cmd;
use resp_value::{RedisResult, Value};

/// A connection to a server: something that takes requests and answers replies.
///
/// Each request is refused, in this order: where the connection broke before; for an empty
/// command, but several packed commands may be none; for a command that subscribes or unsubscribes
/// and whose reply is waited for, since none comes; for a fault of sending or flushing; for a fault
/// of receiving; for an early end; for bytes that are no reply. `OutOfMemory` may come at any
/// place. After a refusal of the last four, and on `OutOfMemory` once sending was begun, the
/// connection is broken: permanently, unless it is one that reconnects. That has another take its
/// place before it sends the next request, and sends none twice.
///
/// A connection that routes, as to the nodes of a cluster, makes each call over a link that it
/// chooses and that works, and is then what that link is. Or it parts several commands over such
/// links, but not a transaction: each reply is then one that such a link gave to its command. Or it
/// refuses the call, by any error. Where it parts or refuses, nothing is said of what it is then.
///
/// Pushes that stand before the last reply to a request are set aside, and count as no reply.
pub trait ConnectionLike {
    /// What is known of it: what was sent, what is incoming, whether it is broken.
    ghost connection: { Self → Connection };

    /// Sends a command and answers its reply, or `Nil` at once where none is waited for.
    ///
    /// `SUBSCRIBE`, `UNSUBSCRIBE` and these after `P` or `S` are answered by messages alone. Where a
    /// reply to one is waited for, it isn't sent, and refused with kind `Client`, `a subscription has
    /// no reply: set_no_response, then next_push`. Packed commands aren't looked into.
    fn req_command(&mut self, cmd: &Cmd) -> RedisResult<Value>
        ensures { CommandCall (connection self.old) (connection self.new) cmd.now result
            (λ reply. result ≡ Ok reply) };

    /// Sends a packed command and answers its reply. No bytes are an empty command.
    fn req_packed_command(&mut self, bytes: &[u8]) -> RedisResult<Value>
        ensures { PackedCall (connection self.old) (connection self.new) bytes.now result };

    /// Sends packed commands, drops the first replies, `offset` of them, and answers the next,
    /// `count` of them.
    fn req_packed_commands(
        &mut self,
        bytes: &[u8],
        offset: usize,
        count: usize,
    ) -> RedisResult<Vec<Value>>
        ensures call { Call (connection self.old) (connection self.new) ⊥ ⊥ bytes.now
            (offset + count) result (AnswersFrom (λ vs. vs.items) offset result) }
        ensures counted { IfOk result (λ vs. length vs.items ≡ count) };

    /// Whether several commands may be sent at once.
    fn supports_pipelining(&self) -> bool
        ensures { result ≡ (connection self.now).pipelines };

    /// Whether the connection isn't broken.
    fn is_open(&self) -> bool
        ensures { result ≡ not (connection self.now).broken };
}

/// A connection that doesn't route: each call goes over its one link, or, where that broke, over
/// another in its place.
pub trait Unrouted: ConnectionLike {
    /// It never routes.
    ghost unrouted: { (c : Self) → (Self.connection c).policy ≢ routes };
}
