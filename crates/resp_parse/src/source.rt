//! Where replies come from.

ghost use Rattle.resp_parse.specs.Source.{Source, Fills};

use resp_value::IoKind;

/// A source of bytes, such as the reading end of a connection.
///
/// What a source has to say of itself, its [`Self::source`], is for contracts: all bytes that came
/// from it, those that it has yet to give where it tells them, and how often it has failed.
pub trait ReplySource {
    ghost source: { Self → Source };

    /// Puts bytes at the start of the buffer and answers how many; 0 of a buffer that isn't empty
    /// is the end.
    ///
    /// An `Err` takes no byte from the source and counts one failure more, up to the greatest
    /// `u64`; an `Ok` counts none.
    fn fill(&mut self, buf: &mut [u8]) -> Result<usize, IoKind>
        ensures fills { Fills (source self.old) (source self.new) buf.old buf.new result };
}
