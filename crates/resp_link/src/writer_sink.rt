//! A writer as a sink of requests.

ghost use Rattle.std.specs.Prelude.{◌≡◌, ◌+◌, ◌-◌, ◌^◌, min, false, length};
ghost use Rattle.resp_parse.specs.Source.{FailureCounted};
ghost use Rattle.resp_link.specs.Sink.{fresh_sink};

use crate::sink::CommandSink;
use resp_parse::History;
use resp_value::IoKind;
use std::io::Write;

/// Any writer as a [`CommandSink`].
///
/// It counts the failures of the writer. Contracts see all bytes that it took, whichever writer it
/// is, and those that it holds where the writer tells them, as memory does. A write of nothing is the
/// fault `WriteZero`.
#[derive(Drop)]
pub struct Writing<W> {
    writer: W,
    sent: History,
    unflushed: bool,
    failures: u64,
}

impl<W: Write> Writing<W> {
    /// A sink over a writer, with no failures so far.
    pub fn new(writer: W) -> Writing<W>
        ensures { ⟦<Writing<W> as CommandSink>⟧.sink result ≡ fresh_sink (W.contents writer) }
    {
        Writing {
            writer,
            sent: History::new(),
            unflushed: false,
            failures: 0,
        }
    }

    /// The writer, by move.
    pub fn into_inner(self) -> W
        ensures holds { W.contents result ≡ (⟦<Writing<W> as CommandSink>⟧.sink self).holds }
    {
        let Writing {
            writer,
            sent: _,
            unflushed: _,
            failures: _,
        } = self;
        writer
    }
}

impl<W: Write> CommandSink for Writing<W> {
    ghost sink = { λ s. record {
      sent = s.sent;
      holds = W.contents s.writer;
      unflushed = s.unflushed;
      failures = s.failures;
    } };

    fn send(&mut self, bytes: &[u8]) -> Result<usize, IoKind> {
        self.unflushed = true;
        match self.writer.write(bytes) {
            Ok(n) => {
                if n == 0 && !bytes.is_empty() {
                    count_failure(&mut self.failures);
                    return Err(IoKind::WriteZero);
                }
                self.sent.append(&bytes[..n]);
                Ok(n)
            }
            Err(error) => {
                count_failure(&mut self.failures);
                Err(IoKind::from(error.kind()))
            }
        }
    }

    fn flush(&mut self) -> Result<(), IoKind> {
        match self.writer.flush() {
            Ok(()) => {
                self.unflushed = false;
                Ok(())
            }
            Err(error) => {
                count_failure(&mut self.failures);
                Err(IoKind::from(error.kind()))
            }
        }
    }
}

fn count_failure(failures: &mut u64)
    ensures { FailureCounted failures.old failures.new }
{
    *failures = failures.saturating_add(1);
}
