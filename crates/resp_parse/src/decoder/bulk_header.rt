//! The header of a bulk string.

ghost use Rattle.resp_parse.specs.Resume.{IsLooked};
ghost use Rattle.resp_parse.specs.BulkBodies.{Starts};

use crate::decoder::Counter;
use crate::line::first_line;
use crate::number::length_of;

/// The header of a bulk string with a body.
#[derive(Debug, Drop)]
pub struct BulkHeader {
    /// How many bytes it has: the type byte, the digits, CR and LF.
    pub header_len: usize,
    /// How many bytes the body has, its CR and LF aside.
    pub body_len: usize,
}

/// What bytes begin with.
#[derive(Drop)]
pub(crate) enum Start {
    /// A bulk string with a body.
    Bulk(BulkHeader),
    /// Another value, or none.
    Other,
    /// A line that hasn't ended, or nothing.
    Unknown,
}

/// What the bytes begin with. The first `looked` bytes hold no CR LF.
pub(crate) fn start_of(bytes: &[u8], looked: usize) -> Start
    requires looked { IsLooked bytes.now looked }
    ensures starts { Starts bytes.now result }
{
    let Some((first, after)) = bytes.split_first() else {
        return Start::Unknown;
    };
    if *first != b'$' {
        return Start::Other;
    }
    let Some(line) = first_line(after, looked, &mut Counter::new()) else {
        return Start::Unknown;
    };
    let Ok(text) = std::str::from_utf8(&after[..line.len]) else {
        return Start::Other;
    };
    match length_of(text) {
        Ok(body_len) => Start::Bulk(BulkHeader {
            header_len: line.len + 3,
            body_len,
        }),
        Err(_) => Start::Other,
    }
}
