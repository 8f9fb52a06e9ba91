//! Where requests go.

ghost use Rattle.resp_link.specs.Sink.{Sink, Sends, Flushes, SendsAll};

use resp_value::IoKind;

/// A place to send bytes to.
pub trait CommandSink {
    /// What is known of it: all bytes that it said it took, those that it holds where it tells them,
    /// whether some of them may wait to be flushed, and how many calls have failed.
    ghost sink: { Self → Sink };

    /// Sends a prefix of the bytes, at least one of any, and answers how many. An `Err` sends
    /// nothing and raises the count of failures by one, up to the greatest `u64`.
    fn send(&mut self, bytes: &[u8]) -> Result<usize, IoKind>
        ensures sends { Sends (sink self.old) (sink self.new) bytes.now result };

    /// Passes on what waits. An `Err` raises the count of failures.
    fn flush(&mut self) -> Result<(), IoKind>
        ensures flushes { Flushes (sink self.old) (sink self.new) result };
}

/// Sends all of the bytes and flushes.
pub fn send_all<K: CommandSink>(sink: &mut K, bytes: &[u8]) -> Result<(), IoKind>
    ensures { SendsAll (K.sink sink.old) (K.sink sink.new) bytes.now result }
{
    let mut done: usize = 0;
    while done < bytes.len() {
        done += sink.send(&bytes[done..])?;
    }
    sink.flush()
}
