//! What is wrong with bytes that are no request, in the words of a server.

ghost use Rattle.std.specs.Prelude.{◌≡◌, IfOk};
ghost use Rattle.example_server.specs.ProtocolErrors.{is_line_end, spaced, text_of, told};

use std::alloc::{AllocError, Global};

/// Why nothing more can be read of what a client sends.
#[derive(Clone, Copy)]
pub enum ProtocolError {
    /// An inline command has more than 65,536 bytes.
    LongInline,
    /// The line of a count has more.
    LongCount,
    /// The line of a length has more.
    LongLength,
    /// A count is no integer of 32 bits.
    Count,
    /// A length is no integer from 0 to 512 MiB.
    Length,
    /// This byte stands where a bulk string should begin.
    NoBulkString(u8),
    /// A quote isn't closed, or no white space follows it.
    Quotes,
}

impl ProtocolError {
    /// What a client is told, as a server of Redis 7.0 words it.
    pub fn reply(&self, alloc: Global) -> Result<Vec<u8>, AllocError>
        ensures { IfOk result (λ reply. reply.items ≡ told self.now) }
    {
        let mut reply = Vec::from_slice(alloc, b"-ERR Protocol error: ")?;
        reply.extend_from_slice(self.text().as_bytes())?;
        if let ProtocolError::NoBulkString(byte) = self {
            reply.push(shown(*byte))?;
            reply.push(b'\'')?;
        }
        reply.extend_from_slice(b"\r\n")?;
        Ok(reply)
    }

    fn text(&self) -> &'static str
        ensures { result.now ≡ text_of self.now }
    {
        match self {
            ProtocolError::LongInline => "too big inline request",
            ProtocolError::LongCount => "too big mbulk count string",
            ProtocolError::LongLength => "too big bulk count string",
            ProtocolError::Count => "invalid multibulk length",
            ProtocolError::Length => "invalid bulk length",
            ProtocolError::NoBulkString(_) => "expected '$', got '",
            ProtocolError::Quotes => "unbalanced quotes in request",
        }
    }
}

/// A space in place of a CR or LF.
fn shown(byte: u8) -> u8
    ensures { result ≡ spaced byte }
{
    if is_line_end(byte) { b' ' } else { byte }
}

/// Whether it is a CR or LF.
pub fn is_line_end(byte: u8) -> bool
    ensures { result ≡ is_line_end byte }
{
    byte == b'\r' || byte == b'\n'
}
