//! A subscriber, over a link that waits for pushes.

use resp_core::{
    ByteLink, ConnectionLike, PushInfo, PushKind, Reading, RedisResult, Value, Writing, cmd,
};
use std::alloc::Global;
use std::io::{Stdin, Stdout};

/// A link over standard input and output.
pub type Link = ByteLink<Reading<Stdin>, Writing<Stdout>>;

/// Asks for RESP3, in which messages come as pushes, and subscribes to a channel. The server
/// answers the second command by a push and by no reply, so none is waited for.
pub fn subscribe(alloc: Global, con: &mut dyn ConnectionLike, channel: &str) -> RedisResult<()> {
    cmd(alloc, "HELLO")?.arg(3)?.exec(con)?;
    cmd(alloc, "SUBSCRIBE")?
        .arg(channel)?
        .set_no_response(true)
        .exec(con)
}

/// The text of a message, if the push is one: it holds the channel and the text.
pub fn message_of(push: &PushInfo) -> Option<&[u8]> {
    if push.kind != PushKind::Message {
        return None;
    }
    match push.payload.as_slice() {
        [_channel, Value::BulkString(text)] => Some(text.as_slice()),
        _ => None,
    }
}
