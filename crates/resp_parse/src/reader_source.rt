//! A reader as a source of replies.

ghost use Rattle.std.specs.Prelude.{◌≡◌, ◌+◌, ◌-◌, ◌^◌, min, []};
ghost use Rattle.resp_parse.specs.Source.{fresh_source, FailureCounted};

use crate::history::History;
use crate::source::ReplySource;
use resp_value::IoKind;
use std::io::Read;

/// A reader as a source of replies, which counts the reader's failures.
///
/// Contracts see all bytes that came from it, whichever reader it is, and those that it has yet to
/// give where the reader tells them, as one over memory does.
#[derive(Drop)]
pub struct Reading<R> {
    reader: R,
    came: History,
    failures: u64,
}

impl<R: Read> Reading<R> {
    /// A source over this reader, which has not failed yet.
    pub fn new(reader: R) -> Reading<R>
        ensures source { ⟦<Reading<R> as ReplySource>⟧.source result
            ≡ fresh_source (R.remaining reader) }
    {
        Reading {
            reader,
            came: History::new(),
            failures: 0,
        }
    }

    /// The reader, with what it has left.
    pub fn into_inner(self) -> R
        ensures left { R.remaining result ≡ (⟦<Reading<R> as ReplySource>⟧.source self).to_come }
    {
        let Reading {
            reader,
            came: _,
            failures: _,
        } = self;
        reader
    }
}

impl<R: Read> ReplySource for Reading<R> {
    ghost source = { λ s. record {
      came = s.came;
      to_come = R.remaining s.reader;
      failures = s.failures;
    } };

    fn fill(&mut self, buf: &mut [u8]) -> Result<usize, IoKind> {
        match self.reader.read(buf) {
            Ok(n) => {
                self.came.append(&buf[..n]);
                Ok(n)
            }
            Err(error) => {
                self.failures = self.failures.saturating_add(1);
                Err(IoKind::from(error.kind()))
            }
        }
    }
}
