//! A source of a user's own: it gives stored bytes in pieces, as a slow network does.
//!
//! It keeps the history of the bytes that came from it, so contracts say as much of a link over it
//! as of one over a reader. No proof file is needed.

use resp_core::{History, IoKind, ReplySource};

/// Gives stored bytes, at most so many at a time, and then ends.
#[derive(Drop)]
pub struct InPieces {
    bytes: Vec<u8>,
    given: usize,
    size: usize,
    came: History,
}

impl InPieces {
    /// A source that will give these bytes, `size` of them at a time; of 0, none.
    pub fn new(bytes: Vec<u8>, size: usize) -> InPieces {
        InPieces {
            bytes,
            given: 0,
            size,
            came: History::new(),
        }
    }
}

impl ReplySource for InPieces {
    ghost use Rattle.std.specs.Prelude.{None};

    ghost source = { λ s. record { came = s.came; to_come = None; failures = 0 } };

    fn fill(&mut self, buf: &mut [u8]) -> Result<usize, IoKind> {
        let (_, rest) = self.bytes.split_at(self.given.min(self.bytes.len()));
        let n = rest.len().min(self.size).min(buf.len());
        buf[..n].copy_from_slice(&rest[..n]);
        self.came.append(&buf[..n]);
        self.given = self.given.saturating_add(n);
        Ok(n)
    }
}
