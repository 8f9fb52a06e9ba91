//! Requests, out of the bytes that a client sends.

ghost use Rattle.std.specs.Prelude.{◌≡◌, ◌++◌, [], ◌<◌, IfOk, OnOk, OnErr, drop};
ghost use Rattle.example_server.specs.Requests.{IsArray, IsInline, Takes, ahead, between, in_array};
ghost use Rattle.example_server.specs.Requests.{pending};

use crate::inline::words;
use crate::lines::{Array, BulkString, Line, array_header, bulk_string, first_line, rest};
use crate::protocol_error::ProtocolError;
use resp_core::Bytes;
use std::alloc::{AllocError, Global};
use std::mem;

/// The bytes of a client from which no request was taken yet.
#[derive(Drop)]
pub struct Requests {
    alloc: Global,
    /// The bytes, and how many of them are used.
    pub bytes: Vec<u8>,
    pub at: usize,
    /// The words of an array whose bulk strings aren't all there, and how many are to come.
    pub words: Vec<Bytes>,
    pub missing: usize,
}

/// What was taken.
#[derive(Drop)]
pub enum Taken {
    /// A request of these words; one without words is passed over.
    Request(Vec<Bytes>),
    /// Nothing: more bytes are needed.
    Unfinished,
    /// What was sent can't be read.
    Wrong(ProtocolError),
}

impl Requests {
    /// No bytes.
    pub fn new(alloc: Global) -> Requests
        ensures { pending result ≡ between [] }
    {
        Requests {
            alloc,
            bytes: Vec::new(alloc),
            at: 0,
            words: Vec::new(alloc),
            missing: 0,
        }
    }

    /// Adds bytes after those before. Fails only with out of memory, and changes nothing then.
    pub fn feed(&mut self, bytes: &[u8]) -> Result<(), AllocError>
        ensures fed { OnOk result (pending self.new
            ≡ record (pending self.old) { unread = (pending self.old).unread ++ bytes.now }) }
        ensures unchanged { OnErr result (pending self.new ≡ pending self.old) }
    {
        drop_front(&mut self.bytes, self.at);
        self.at = 0;
        self.bytes.extend_from_slice(bytes)
    }

    /// Whether a request has begun and isn't whole.
    pub fn in_progress(&self) -> bool {
        self.missing > 0 || self.at < self.bytes.len()
    }

    /// Takes the next request.
    #[tactic(auto, using(crate::proofs::Continuing::of_requests))]
    pub fn take(&mut self) -> Result<Taken, AllocError>
        ensures { IfOk result (Takes (ahead (pending self.old)) (pending self.new)) }
    {
        if self.missing > 0 {
            return self.take_words();
        }
        match rest(self.bytes.as_slice(), self.at).first() {
            None => Ok(Taken::Unfinished),
            Some(b'*') => self.take_array(),
            Some(_) => self.take_inline(),
        }
    }
}

/// Drops so many bytes at the front.
fn drop_front(bytes: &mut Vec<u8>, n: usize)
    ensures { bytes.new.items ≡ drop n bytes.old.items }
{
    let len = bytes.len();
    if n >= len {
        bytes.clear();
    } else {
        bytes.rotate_left(n);
        bytes.truncate(len - n);
    }
}

impl Requests {
    /// Takes an array, the first byte of which is there.
    #[tactic(auto, using(crate::proofs::Continuing::of_arrays))]
    fn take_array(&mut self) -> Result<Taken, AllocError>
        requires { IsArray (pending self.old) }
        ensures { IfOk result (Takes (ahead (pending self.old)) (pending self.new)) }
    {
        match array_header(rest(self.bytes.as_slice(), self.at)) {
            Array::Announced(count, from) => {
                self.at += from;
                self.missing = count;
                self.words = Vec::new(self.alloc);
                self.take_words()
            }
            Array::Unfinished => Ok(Taken::Unfinished),
            Array::Wrong(why) => Ok(Taken::Wrong(why)),
        }
    }

    /// Takes the bulk strings that are to come.
    #[tactic(auto, using(crate::proofs::Continuing::of_words))]
    fn take_words(&mut self) -> Result<Taken, AllocError>
        ensures { IfOk result (Takes (in_array (pending self.old)) (pending self.new)) }
    {
        while self.missing > 0 {
            let bytes = rest(self.bytes.as_slice(), self.at);
            match bulk_string(bytes) {
                BulkString::Whole(from, size) => {
                    self.words
                        .push(Bytes::from_slice(self.alloc, &bytes[from..from + size])?)?;
                    self.at += from + size + 2;
                    self.missing -= 1;
                }
                BulkString::Unfinished => return Ok(Taken::Unfinished),
                BulkString::Wrong(why) => return Ok(Taken::Wrong(why)),
            }
        }
        Ok(Taken::Request(mem::replace(&mut self.words, Vec::new(self.alloc))))
    }

    /// Takes an inline command.
    #[tactic(auto, using(crate::proofs::Continuing::of_lines))]
    fn take_inline(&mut self) -> Result<Taken, AllocError>
        requires missing { self.old.missing ≡ 0 }
        requires is_inline { IsInline (pending self.old) }
        ensures { IfOk result (Takes (ahead (pending self.old)) (pending self.new)) }
    {
        let bytes = rest(self.bytes.as_slice(), self.at);
        match first_line(bytes, b'\n', 0) {
            Line::EndsAt(at) => match words(self.alloc, &bytes[..at])? {
                Some(words) => {
                    self.words = Vec::new(self.alloc);
                    self.at += at + 1;
                    Ok(Taken::Request(words))
                }
                None => Ok(Taken::Wrong(ProtocolError::Quotes)),
            },
            Line::Unended => Ok(Taken::Unfinished),
            Line::TooLong => Ok(Taken::Wrong(ProtocolError::LongInline)),
        }
    }
}
