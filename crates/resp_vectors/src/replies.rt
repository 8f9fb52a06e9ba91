//! Replies that a parser takes from bytes, however they come in.

use crate::encodings::values_written_again;
use crate::rows::{Row, malformed, number_of};
use crate::texts::{add_part, debug_text, refusal_text};
use resp_core::{
    ErrorKind, FlatParser, FlatReply, FrameFault, Limits, Parser, Reading, RedisError, RedisResult,
    Value,
};
use std::alloc::Global;
use std::io;
use std::io::Read;

/// The most bytes that are cut at each place.
const CUT: usize = 200;

/// Gives three bytes a read, or what is left.
#[derive(Drop)]
struct InThrees<'a> {
    rest: &'a [u8],
}

impl<'a> Read for InThrees<'a> {
    fn read(&mut self, buf: &mut [u8]) -> io::Result<usize> {
        let n = self.rest.len().min(buf.len()).min(3);
        let (first, rest) = self.rest.split_at(n);
        buf[..n].copy_from_slice(first);
        self.rest = rest;
        Ok(n)
    }
}

/// `read BYTES`
pub fn read(alloc: Global, row: &Row) -> RedisResult<String> {
    match row.words() {
        [bytes] => shown_and_written(alloc, bytes.as_slice()),
        _ => Err(malformed()),
    }
}

/// What the bytes show, if they show it however they come in, and their values are the same when
/// they are written and read again.
fn shown_and_written(alloc: Global, bytes: &[u8]) -> RedisResult<String> {
    let wanted = shown_however(alloc, Limits::default(), bytes)?;
    match values_written_again(alloc, bytes)? {
        Some(other) => agreed(alloc, wanted, other, "written again"),
        None => Ok(wanted),
    }
}

/// `cut BYTES`
pub fn cut(alloc: Global, row: &Row) -> RedisResult<String> {
    let wanted = read(alloc, row)?;
    match row.words() {
        [bytes] => same_at_each_two_places(alloc, bytes.as_slice(), wanted),
        _ => Err(malformed()),
    }
}

/// `limits DEPTH SIZE BYTES`
pub fn limits(alloc: Global, row: &Row) -> RedisResult<String> {
    match row.words() {
        [depth, size, bytes] => {
            let limits = Limits {
                depth: number_of(depth.as_slice())? as usize,
                bytes: number_of(size.as_slice())? as usize,
                ..Limits::default()
            };
            match Parser::with_limits(alloc, limits) {
                Ok(_) => shown_however(alloc, limits, bytes.as_slice()),
                Err(error) => refusal_text(alloc, error),
            }
        }
        _ => Err(malformed()),
    }
}

/// What the bytes show, if they show it however they come in.
fn shown_however(alloc: Global, limits: Limits, bytes: &[u8]) -> RedisResult<String> {
    let wanted = shown_in_pieces(alloc, limits, &[bytes])?;
    let singly = shown_singly(alloc, Parser::with_limits(alloc, limits)?, bytes)?;
    let wanted = agreed(alloc, wanted, singly, "in single bytes")?;
    let from_source = shown_from_source(alloc, limits, bytes)?;
    let wanted = agreed(alloc, wanted, from_source, "from a source")?;
    let flat = shown_singly(alloc, Flat::with_limits(alloc, limits)?, bytes)?;
    let wanted = agreed(alloc, wanted, flat, "as flat replies")?;
    if bytes.len() > CUT {
        return Ok(wanted);
    }
    same_at_each_place(alloc, limits, bytes, wanted)
}

/// The text, or where the other one differs, both.
pub fn agreed(alloc: Global, text: String, other: String, how: &str) -> RedisResult<String> {
    if text.as_str() == other.as_str() {
        return Ok(text);
    }
    Ok(format!(in alloc; "{text}; {how}: {other}")?)
}

fn same_at_each_place(
    alloc: Global,
    limits: Limits,
    bytes: &[u8],
    wanted: String,
) -> RedisResult<String> {
    for place in 0..=bytes.len() {
        let (first, rest) = bytes.split_at(place);
        let text = shown_in_pieces(alloc, limits, &[first, rest])?;
        if text.as_str() != wanted.as_str() {
            return Ok(format!(in alloc; "{wanted}; cut at {place}: {text}")?);
        }
    }
    Ok(wanted)
}

fn same_at_each_two_places(alloc: Global, bytes: &[u8], wanted: String) -> RedisResult<String> {
    for place in 0..=bytes.len() {
        let (front, last) = bytes.split_at(place);
        if let Some(other) = other_cut_before(alloc, front, last, wanted.as_str())? {
            return Ok(other);
        }
    }
    Ok(wanted)
}

/// What the bytes show where it isn't what is wanted, with the first of two parts cut at a place.
fn other_cut_before(
    alloc: Global,
    front: &[u8],
    last: &[u8],
    wanted: &str,
) -> RedisResult<Option<String>> {
    for place in 0..=front.len() {
        let (first, middle) = front.split_at(place);
        let text = shown_in_pieces(alloc, Limits::default(), &[first, middle, last])?;
        if text.as_str() != wanted {
            let end = front.len();
            return Ok(Some(format!(in alloc; "{wanted}; cut at {place} and {end}: {text}")?));
        }
    }
    Ok(None)
}

/// A parser, in whichever form it hands out values.
trait Parses: Drop {
    fn feed(&mut self, bytes: &[u8]) -> RedisResult<()>;

    fn next(&mut self, alloc: Global) -> RedisResult<Option<Value>>;

    fn is_failed(&self) -> bool;

    fn in_progress(&self) -> bool;

    fn fault_offset(&self) -> Option<usize>;
}

impl Parses for Parser {
    fn feed(&mut self, bytes: &[u8]) -> RedisResult<()> {
        Parser::feed(self, bytes)
    }

    fn next(&mut self, _alloc: Global) -> RedisResult<Option<Value>> {
        self.take_value()
    }

    fn is_failed(&self) -> bool {
        Parser::is_failed(self)
    }

    fn in_progress(&self) -> bool {
        Parser::in_progress(self)
    }

    fn fault_offset(&self) -> Option<usize> {
        Parser::fault_offset(self)
    }
}

/// A parser of flat replies, and the one that it gave last.
#[derive(Drop)]
struct Flat {
    parser: FlatParser,
    reply: FlatReply,
}

impl Flat {
    fn with_limits(alloc: Global, limits: Limits) -> RedisResult<Flat> {
        Ok(Flat {
            parser: FlatParser::with_limits(alloc, limits)?,
            reply: FlatReply::new(alloc),
        })
    }

    /// The value that the flat reply is read back as, if the reply is that value's.
    fn value_of_reply(&self, alloc: Global) -> RedisResult<Option<Value>> {
        let value = self.reply.to_value(alloc)?;
        if self.is_of(alloc, &value)? {
            return Ok(Some(value));
        }
        Err(RedisError::from((ErrorKind::Client, "another flat reply")))
    }

    /// Whether the flat reply is that of the value.
    fn is_of(&self, alloc: Global, value: &Value) -> RedisResult<bool> {
        let mut flat = FlatReply::new(alloc);
        flat.append(value)?;
        let tokens = flat.tokens.as_slice() == self.reply.tokens.as_slice();
        Ok(tokens && flat.text.as_slice() == self.reply.text.as_slice())
    }
}

impl Parses for Flat {
    fn feed(&mut self, bytes: &[u8]) -> RedisResult<()> {
        self.parser.feed(bytes)
    }

    fn next(&mut self, alloc: Global) -> RedisResult<Option<Value>> {
        if !self.parser.take_reply(&mut self.reply)? {
            return Ok(None);
        }
        self.value_of_reply(alloc)
    }

    fn is_failed(&self) -> bool {
        self.parser.is_failed()
    }

    fn in_progress(&self) -> bool {
        self.parser.in_progress()
    }

    fn fault_offset(&self) -> Option<usize> {
        self.parser.fault_offset()
    }
}

/// The Debug text of a value.
fn shown(alloc: Global, value: Value) -> RedisResult<String> {
    debug_text(alloc, &value)
}

/// A fault and its offset.
fn fault_text(alloc: Global, fault: FrameFault, offset: usize) -> RedisResult<String> {
    Ok(format!(in alloc; "{fault:?}@{offset}")?)
}

/// What a parser takes from the bytes, and the text that it shows.
#[derive(Drop)]
struct Taken<P> {
    parser: P,
    text: String,
}

impl<P: Parses> Taken<P> {
    fn by(alloc: Global, parser: P) -> Taken<P> {
        Taken {
            parser,
            text: String::new(alloc),
        }
    }

    /// Feeds a piece, if the parser hasn't failed, and adds the values that are whole then.
    fn feed(&mut self, alloc: Global, piece: &[u8]) -> RedisResult<()> {
        if self.parser.is_failed() {
            return Ok(());
        }
        self.parser.feed(piece)?;
        for _ in 0..u64::MAX {
            if !self.take(alloc)? {
                break;
            }
        }
        Ok(())
    }

    /// Adds the next value, if it is whole, or the fault. Whether there was a value.
    fn take(&mut self, alloc: Global) -> RedisResult<bool> {
        match self.parser.next(alloc) {
            Ok(Some(value)) => self.add(shown(alloc, value)).map(|()| true),
            Ok(None) => Ok(false),
            Err(error) => self.refuse(alloc, error).map(|()| false),
        }
    }

    /// Adds what is shown.
    fn add(&mut self, shown: RedisResult<String>) -> RedisResult<()> {
        add_part(&mut self.text, shown?.as_str())
    }

    /// Adds a fault and its offset, or another refusal. Fails where memory ran out.
    fn refuse(&mut self, alloc: Global, error: RedisError) -> RedisResult<()> {
        let shown = match (error.frame_fault(), self.parser.fault_offset()) {
            (Some(fault), Some(offset)) => fault_text(alloc, fault, offset),
            _ => refusal_text(alloc, error),
        };
        self.add(shown)
    }

    /// The text, with `..` where a value is in progress.
    fn end(mut self) -> RedisResult<String> {
        if !self.parser.is_failed() && self.parser.in_progress() {
            add_part(&mut self.text, "..")?;
        }
        Ok(self.text)
    }
}

/// What the pieces show.
fn shown_in_pieces(alloc: Global, limits: Limits, pieces: &[&[u8]]) -> RedisResult<String> {
    let mut taken = Taken::by(alloc, Parser::with_limits(alloc, limits)?);
    taken.feed_each(alloc, pieces)?;
    taken.end()
}

/// What the bytes show this parser, one at a time.
fn shown_singly<P: Parses>(alloc: Global, parser: P, bytes: &[u8]) -> RedisResult<String> {
    let mut taken = Taken::by(alloc, parser);
    taken.feed_singly(alloc, bytes)?;
    taken.end()
}

/// What the bytes show, from a source that gives three at a time.
fn shown_from_source(alloc: Global, limits: Limits, bytes: &[u8]) -> RedisResult<String> {
    let mut taken = Taken::by(alloc, Parser::with_limits(alloc, limits)?);
    taken.read_in_threes(alloc, bytes)?;
    Ok(taken.text)
}

impl<P: Parses> Taken<P> {
    /// Feeds the pieces, one after another.
    fn feed_each(&mut self, alloc: Global, pieces: &[&[u8]]) -> RedisResult<()> {
        for piece in pieces {
            self.feed(alloc, piece)?;
        }
        Ok(())
    }

    /// Feeds the bytes one at a time.
    fn feed_singly(&mut self, alloc: Global, bytes: &[u8]) -> RedisResult<()> {
        for single in bytes.chunks(1) {
            self.feed(alloc, single)?;
        }
        Ok(())
    }
}

impl Taken<Parser> {
    /// Reads the bytes from a source that gives three at a time.
    fn read_in_threes(&mut self, alloc: Global, bytes: &[u8]) -> RedisResult<()> {
        let mut source = Reading::new(InThrees { rest: bytes });
        for _ in 0..u64::MAX {
            if !self.read_next(alloc, &mut source)? {
                break;
            }
        }
        Ok(())
    }

    /// Adds the next value of the source, or its end or a fault. Whether there was a value.
    fn read_next(
        &mut self,
        alloc: Global,
        source: &mut Reading<InThrees<'_>>,
    ) -> RedisResult<bool> {
        match self.parser.parse_from(source) {
            Ok(value) => self.add(shown(alloc, value)).map(|()| true),
            Err(error) => self.end_source(alloc, error).map(|()| false),
        }
    }

    /// Adds what a source's end or a fault shows.
    fn end_source(&mut self, alloc: Global, error: RedisError) -> RedisResult<()> {
        if error.io_kind().is_none() {
            return self.refuse(alloc, error);
        }
        if self.parser.in_progress() {
            add_part(&mut self.text, "..")?;
        }
        Ok(())
    }
}
