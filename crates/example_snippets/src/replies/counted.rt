//! A connection of a caller's own around a link.
//!
//! It counts its requests and passes them on, so its meaning is that of the link. No proof file is
//! needed.

use resp_core::{ByteLink, Cmd, ConnectionLike, Reading, RedisResult, Value, Writing};
use std::alloc::Global;
use std::io::Cursor;

/// A link over bytes in memory.
pub type MemoryLink = ByteLink<Reading<Cursor<Vec<u8>>>, Writing<Vec<u8>>>;

/// Counts the requests to a link.
#[derive(Drop)]
pub struct Counted {
    link: MemoryLink,
    requests: u64,
}

impl Counted {
    /// No request so far, over a link on which these bytes come in.
    pub fn new(alloc: Global, incoming: Vec<u8>) -> Counted {
        Counted {
            link: ByteLink::new(alloc, Cursor::new(incoming), Vec::new(alloc)),
            requests: 0,
        }
    }

    /// How many requests were made, refused ones included.
    pub fn requests(&self) -> u64 {
        self.requests
    }

    /// The bytes that were sent, by move.
    pub fn into_sent(self) -> Vec<u8> {
        let Counted { link, requests: _ } = self;
        let (_source, sink) = link.into_ends();
        sink.into_inner()
    }
}

impl ConnectionLike for Counted {
    ghost connection = { λ c. ⟦<MemoryLink as ConnectionLike>⟧.connection c.link };

    fn req_command(&mut self, cmd: &Cmd) -> RedisResult<Value> {
        self.requests = self.requests.saturating_add(1);
        self.link.req_command(cmd)
    }

    fn req_packed_command(&mut self, bytes: &[u8]) -> RedisResult<Value> {
        self.requests = self.requests.saturating_add(1);
        self.link.req_packed_command(bytes)
    }

    fn req_packed_commands(
        &mut self,
        bytes: &[u8],
        offset: usize,
        count: usize,
    ) -> RedisResult<Vec<Value>> {
        self.requests = self.requests.saturating_add(1);
        self.link.req_packed_commands(bytes, offset, count)
    }

    fn supports_pipelining(&self) -> bool {
        self.link.supports_pipelining()
    }

    fn is_open(&self) -> bool {
        self.link.is_open()
    }
}
