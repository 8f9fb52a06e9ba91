//! Lines, and what the headers of requests announce.

ghost use Rattle.std.specs.Prelude.{◌≡◌, ◌≤◌, ◌<◌, ◌+◌, drop, length, IfSome, position};
ghost use Rattle.example_server.specs.Lines.{HasBulkString, HasHeader, array_of, bulk_string_of};
ghost use Rattle.example_server.specs.Lines.{count_in, end_at, header_text, is_end, largest};
ghost use Rattle.example_server.specs.Lines.{line_of};
ghost use Rattle.example_server.specs.Lines.{size_in, sized_bulk_string};

use crate::integers::integer_of;
use crate::protocol_error::ProtocolError;

/// How many bytes a line has at most.
const LONGEST: usize = 65_536;

/// How many bytes a bulk string has at most.
const LARGEST: i64 = 536_870_912;

/// What is known of the end of a line.
#[derive(Clone, Copy)]
pub enum Line {
    /// It stands here.
    EndsAt(usize),
    /// It may still come.
    Unended,
    /// It is too far away.
    TooLong,
}

/// The end of the line that the bytes begin with, where so many bytes follow it.
///
/// A line with a NUL before its end has none, as for a server, which looks for it in a C string.
pub fn first_line(bytes: &[u8], end: u8, after: usize) -> Line
    requires { after ≤ 1 }
    ensures { result ≡ line_of end after bytes.now }
{
    let at = end_of(bytes, end);
    if at + after < bytes.len() && bytes[at] == end && at + after <= LONGEST {
        Line::EndsAt(at)
    } else if bytes.len() > LONGEST {
        Line::TooLong
    } else {
        Line::Unended
    }
}

/// Where the first byte is that ends a line, or a NUL; the number of bytes where none is.
#[tactic(auto, using(crate::proofs::LineEnds::nowhere))]
pub fn end_of(bytes: &[u8], end: u8) -> usize
    ensures value { result ≡ end_at end bytes.now }
    ensures bound { result ≤ length bytes.now }
{
    match first_end(bytes, end) {
        Some(at) => at,
        None => bytes.len(),
    }
}

fn first_end(bytes: &[u8], end: u8) -> Option<usize>
    ensures value { result ≡ position (is_end end) bytes.now }
{
    bytes.iter().position(|byte| *byte == end || *byte == 0)
}

/// What the header of an array announces.
#[derive(Clone, Copy)]
pub enum Array {
    /// So many words, after so many bytes.
    Announced(usize, usize),
    /// Its line isn't whole.
    Unfinished,
    /// It can't be read.
    Wrong(ProtocolError),
}

/// What the header of an array announces; a negative count is 0.
#[tactic(auto, using(crate::proofs::Continuing::line_bound))]
pub fn array_header(bytes: &[u8]) -> Array
    ensures value { result ≡ array_of bytes.now }
    ensures bound { HasHeader bytes.now result }
{
    match first_line(bytes, b'\r', 1) {
        Line::EndsAt(at) => match count(text(bytes, at)) {
            Some(count) => Array::Announced(count, at + 2),
            None => Array::Wrong(ProtocolError::Count),
        },
        Line::Unended => Array::Unfinished,
        Line::TooLong => Array::Wrong(ProtocolError::LongCount),
    }
}

/// A bulk string.
#[derive(Clone, Copy)]
pub enum BulkString {
    /// It has so many bytes, after those of its header.
    Whole(usize, usize),
    /// It isn't whole.
    Unfinished,
    /// It can't be read.
    Wrong(ProtocolError),
}

/// Where the bulk string stands that the bytes begin with, and then two bytes, whichever they are.
#[tactic(auto, using(crate::proofs::Continuing::line_bound))]
pub fn bulk_string(bytes: &[u8]) -> BulkString
    ensures value { result ≡ bulk_string_of bytes.now }
    ensures bound { HasBulkString bytes.now result }
{
    match first_line(bytes, b'\r', 1) {
        Line::EndsAt(at) => bulk_string_after(bytes, at),
        Line::Unended => BulkString::Unfinished,
        Line::TooLong => BulkString::Wrong(ProtocolError::LongLength),
    }
}

/// The same, where the line of its header ends here.
fn bulk_string_after(bytes: &[u8], at: usize) -> BulkString
    requires { at + 1 < length bytes.now }
    ensures value { result ≡ sized_bulk_string at bytes.now }
    ensures bound { HasBulkString bytes.now result }
{
    if bytes[0] != b'$' {
        return BulkString::Wrong(ProtocolError::NoBulkString(bytes[0]));
    }
    let Some(size) = size(text(bytes, at)) else {
        return BulkString::Wrong(ProtocolError::Length);
    };
    if bytes.len() - (at + 2) < size + 2 {
        BulkString::Unfinished
    } else {
        BulkString::Whole(at + 2, size)
    }
}

/// The text of a header's line, between its first byte and its end.
fn text(bytes: &[u8], at: usize) -> &[u8]
    requires { at ≤ length bytes.now }
    ensures { result.now ≡ header_text at bytes.now }
{
    if at == 0 { &[] } else { &bytes[1..at] }
}

/// The count that a text writes.
fn count(text: &[u8]) -> Option<usize>
    ensures { result ≡ count_in text.now }
{
    let count = integer_of(text)?;
    if count > 2_147_483_647 {
        None
    } else {
        Some(if count < 0 { 0 } else { count as usize })
    }
}

/// The length that a text writes.
fn size(text: &[u8]) -> Option<usize>
    ensures value { result ≡ size_in text.now }
    ensures bound { IfSome result (λ size. size ≤ largest) }
{
    let size = integer_of(text)?;
    if size < 0 || size > LARGEST {
        None
    } else {
        Some(size as usize)
    }
}

/// The bytes after so many; none where there are fewer.
pub fn rest(bytes: &[u8], at: usize) -> &[u8]
    ensures { result.now ≡ drop at bytes.now }
{
    bytes.get(at..).unwrap_or(&[])
}
