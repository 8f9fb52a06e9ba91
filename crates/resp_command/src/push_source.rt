//! Connections that wait for pushes.

ghost use Rattle.resp_command.specs.NextPush.{NextPush};

use crate::connection::ConnectionLike;
use resp_value::{PushInfo, RedisResult};

/// A connection that also waits for pushes, as a subscriber does.
pub trait PushSource: ConnectionLike {
    /// Waits for a push: hands out the oldest that was set aside, or else reads the next value.
    /// Sends nothing, and opens no connection.
    ///
    /// Under RESP2 a subscriber is sent arrays in place of pushes. While nothing is asked, an array
    /// whose first element is the bulk string `message`, `subscribe` or `unsubscribe`, or one of
    /// these after `p` or `s`, is answered as the push of that kind would be.
    ///
    /// A server's error is answered as that error, as by a query: it refuses a request whose reply
    /// isn't waited for, such as a subscription. The connection works on.
    ///
    /// Any other value is a reply that nobody asked for: it is refused with kind `Io`, `reply
    /// without a request`, and the connection is then broken, since a later command might take such
    /// a reply for its own. Bytes that are no value, an early end and a failure of the source are
    /// refused as after a command, and break the connection too; so does `OutOfMemory`. A broken
    /// connection is refused with `link is broken`, once no push is left; so is one that
    /// reconnects, since a subscription is lost with the connection that it was made over.
    ///
    /// The bytes of pushes that were set aside count for the limit on them until the last of them
    /// is handed out. A push that is read here counts for nothing.
    fn next_push(&mut self) -> RedisResult<PushInfo>
        ensures { NextPush (Self.connection self.old) (Self.connection self.new) result };
}
