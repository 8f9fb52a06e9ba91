//! Replies whose body is handed on as it comes.

use resp_parse::BulkHeader;
use resp_value::Value;

/// What a call answers that hands on the body of its reply.
#[derive(Debug, Drop)]
pub enum Streamed {
    /// The reply was a bulk string, whose body of so many bytes was handed on.
    Body(usize),
    /// Another reply.
    Reply(Value),
}

/// A reply that comes next.
#[derive(Drop)]
pub(crate) enum Incoming {
    /// A bulk string, whose header stands first in the bytes that are held.
    Bulk(BulkHeader),
    /// Another reply, which was taken.
    Reply(Value),
}
