//! A parser of bytes that come in pieces.

ghost use Rattle.std.specs.Prelude.{◌≡◌, ◌≢◌, ◌↔◌, ◌⊎◌, ◌≤◌, [], true, false, Err, List, ℕ};
ghost use Rattle.std.specs.Prelude.{length, drop, IsTrue, IfErr, IfOk, IsOk, OnOk, IfSome, None};
ghost use Rattle.resp_parse.specs.State.{StandsAfter, FailedAfter, IsBetweenValues, has_failed};
ghost use Rattle.resp_parse.specs.State.{KeepsFaultOffset, answered};
ghost use Rattle.resp_parse.specs.Limits.{AreLimits, IsDepthLimit, RefusesLimits};
ghost use Rattle.resp_parse.specs.Limits.{depth_refused, of_depth, usual};
ghost use Rattle.resp_parse.specs.Limited.{FaultShownAt};
ghost use Rattle.resp_parse.specs.Calls.{Feeds, Takes, TakesInto, Asks, Parses, ParsesReader};
ghost use Rattle.resp_parse.specs.BulkBodies.{Looks};
ghost use Rattle.resp_parse.specs.Bounds.{Bounded, FedBy, OneCall, CallsWithin, AskedFor};
ghost use Rattle.resp_parse.specs.Counts.{nothing_done};

use crate::decoder::{BulkHeader, Decoder, Start, failed_before, refusal, start_of};
use crate::limits::Limits;
use crate::read_error::ReadError;
use crate::reader_source::Reading;
use crate::source::ReplySource;
use crate::tree_builder::TreeBuilder;
use resp_value::{RedisError, RedisResult, Value};
use std::alloc::Global;
use std::io::Read;
use std::marker::Model;

/// A parser of replies (RESP2 and RESP3) whose bytes come in pieces.
///
/// Bytes are added by [`Parser::feed`] and values taken by [`Parser::take_value`], or
/// [`Parser::parse_from`] asks a source for the bytes that the next value needs. It does not matter
/// how the bytes are cut: the values are those of the pieces joined.
///
/// Nor does it matter for the work: the parser goes on where it stopped. Its loops make at most one
/// iteration for each byte that it has looked at and one for each call, at most as many aggregates
/// are open as levels are read, and of the value in progress it holds at most one value for each
/// three bytes looked at, whatever lengths are announced. Contracts see these numbers in its state.
///
/// Values are read within [`Limits`]: 100 levels of values inside values and 2^63 - 1 bytes, or
/// those that [`Parser::with_limits`] was given. No call changes them. A value with more levels is
/// refused as [`FrameFault::TooDeep`], and one that goes on past its last byte as
/// [`FrameFault::TooLong`], when the next byte is there and not where a length is announced; of
/// 2^63 - 1 bytes, as `OutOfMemory`.
///
/// After bytes that can't begin a value, after an early end of a source, and after `OutOfMemory` in
/// any call but `feed`, unless it is a failure of the source, the parser has failed permanently: each
/// later call that feeds or takes answers `parser has failed`, a [`ParsingError`].
pub struct Parser {
    decoder: Decoder<TreeBuilder>,
}

/// By hand, so that the proof of a function that owns one has a call where it is dropped, and not a
/// case for each part.
impl Drop for Parser {
    #[inline(always)]
    fn drop(self) {
        let Parser { decoder: _ } = self;
    }
}

impl Model for Parser {
    ghost use Rattle.resp_parse.specs.State.{State};

    ghost Value = { State };

    ghost view = { λ p. p.decoder };
}

impl Parser {
    /// A parser that holds no bytes, with the limits that are usual: 100 levels, and 2^63 - 1 bytes
    /// for a value. Takes no memory.
    pub fn new(alloc: Global) -> Parser
        ensures limits { result.limits ≡ usual }
        ensures rest { IsBetweenValues result }
        ensures empty { result.unparsed ≡ [] }
        ensures bounds { Bounded result }
        ensures counts { result.counts ≡ nothing_done }
    {
        Parser {
            decoder: Decoder::within(alloc, Limits::default()),
        }
    }

    /// A parser that holds no bytes and reads values within these limits. Takes no memory.
    ///
    /// Other limits than 1 to 1,000 levels and 1 to 2^63 - 1 bytes are refused with kind
    /// `InvalidClientConfig` and the text `depth limit must be 1 to 1000`, or, where the depth is
    /// right, `size limit must be 1 to 2^63 - 1 bytes`.
    ///
    /// ```text
    /// let limits = Limits {
    ///     depth: 8,
    ///     bytes: 1_000_000,
    ///     ..Limits::default()
    /// };
    /// let mut parser = Parser::with_limits(alloc, limits)?;
    /// ```
    ///
    /// In `crates/resp_tests/src/parsers.rt`.
    pub fn with_limits(alloc: Global, limits: Limits) -> RedisResult<Parser>
        ensures accepts { IsOk result ↔ AreLimits limits }
        ensures limits { IfOk result (λ parser. parser.limits ≡ limits) }
        ensures rest { IfOk result IsBetweenValues }
        ensures empty { IfOk result (λ parser. parser.unparsed ≡ []) }
        ensures bounds { IfOk result Bounded }
        ensures counts { IfOk result (λ parser. parser.counts ≡ nothing_done) }
        ensures error { IfErr result (RefusesLimits limits) }
    {
        limits.check()?;
        Ok(Parser {
            decoder: Decoder::within(alloc, limits),
        })
    }

    /// A parser that holds no bytes and reads values down to `limit` levels, from 1 to 1,000, of
    /// any size: [`Parser::with_limits`] with 2^63 - 1 bytes. Takes no memory.
    ///
    /// Another limit is refused with kind `InvalidClientConfig` and the text
    /// `depth limit must be 1 to 1000`.
    pub fn with_depth_limit(alloc: Global, limit: usize) -> RedisResult<Parser>
        ensures accepts { IsOk result ↔ IsDepthLimit limit }
        ensures limits { IfOk result (λ parser. parser.limits ≡ of_depth limit) }
        ensures rest { IfOk result IsBetweenValues }
        ensures empty { IfOk result (λ parser. parser.unparsed ≡ []) }
        ensures bounds { IfOk result Bounded }
        ensures counts { IfOk result (λ parser. parser.counts ≡ nothing_done) }
        ensures error { IfErr result (λ e. e ≡ depth_refused) }
    {
        let limits = Limits {
            depth: limit,
            ..Limits::default()
        };
        Parser::with_limits(alloc, limits)
    }

    /// The limits within which values are read.
    pub fn limits(&self) -> Limits
        ensures limits { result ≡ self.now.limits }
        ensures valid { AreLimits result }
    {
        self.decoder.limits()
    }

    /// How many levels of values inside values are read, the outermost being the first: the depth
    /// of [`Parser::limits`].
    pub fn depth_limit(&self) -> usize
        ensures limit { result ≡ self.now.limits.depth }
        ensures valid { IsDepthLimit result }
    {
        self.decoder.limits().depth
    }

    /// Adds bytes after those that were fed before. On `OutOfMemory` the parser stays as
    /// it was.
    pub fn feed(&mut self, bytes: &[u8]) -> RedisResult<()>
        ensures failed { self.old.failed ≡ true → (result ≡ Err has_failed)
            × (self.new ≡ self.old) }
        ensures feeds { (b : List ℕ) → StandsAfter self.old b →
            Feeds b bytes.now self.old self.new result }
        ensures rest { OnOk result (IsBetweenValues self.old → IsBetweenValues self.new) }
        ensures limits { self.new.limits ≡ self.old.limits }
        ensures bounds { Bounded self.new }
        ensures counts { OnOk result (FedBy (length bytes.now) self.old.counts self.new.counts) }
    {
        self.decoder.feed(bytes)
    }

    /// The next value; None while the bytes since the last one are incomplete.
    ///
    /// Bytes that can't begin a value are refused as [`RedisError::Parse`] with their
    /// [`FrameFault`]; values before them are still handed out. Values are read within
    /// [`Parser::limits`].
    #[inline(always)]
    pub fn take_value(&mut self) -> RedisResult<Option<Value>>
        ensures failed { self.old.failed ≡ true → (result ≡ Err has_failed)
            × (self.new ≡ self.old) }
        ensures takes { (b : List ℕ) → StandsAfter self.old b → Takes b self.new result }
        ensures limits { self.new.limits ≡ self.old.limits }
        ensures bounds { Bounded self.new }
        ensures offset { self.old.failed ≡ false → KeepsFaultOffset self.new result }
        ensures counts { self.old.failed ≡ false → OneCall self.old.counts self.new.counts }
    {
        if self.decoder.is_failed() {
            return Err(failed_before());
        }
        if self.decoder.waits() {
            return Ok(None);
        }
        if let Some(value) = self.decoder.scalar() {
            return Ok(Some(value));
        }
        self.take_read()
    }

    /// The next value, where the parser works.
    fn take_read(&mut self) -> RedisResult<Option<Value>>
        requires works { self.old.failed ≡ false }
        ensures takes { (b : List ℕ) → StandsAfter self.old b → Takes b self.new result }
        ensures limits { self.new.limits ≡ self.old.limits }
        ensures bounds { Bounded self.new }
        ensures offset { KeepsFaultOffset self.new result }
        ensures counts { OneCall self.old.counts self.new.counts }
    {
        let mut value = Value::Nil;
        match self.read(&mut value) {
            Ok(true) => Ok(Some(value)),
            Ok(false) => Ok(None),
            Err(why) => Err(refusal(why)),
        }
    }

    /// The next value, put in its place; false while it is incomplete.
    fn read(&mut self, value: &mut Value) -> Result<bool, ReadError>
        requires works { self.old.failed ≡ false }
        ensures takes { (b : List ℕ) → StandsAfter self.old b →
            TakesInto (λ v w. v ≡ w) b self.new value.old value.new (answered result) }
        ensures limits { self.new.limits ≡ self.old.limits }
        ensures bounds { Bounded self.new }
        ensures offset { KeepsFaultOffset self.new (answered result) }
        ensures counts { OneCall self.old.counts self.new.counts }
    {
        self.decoder.read(value)
    }

    /// The next value, with bytes from a source where those in the buffer don't hold one. Bytes
    /// past the value stay in the buffer for the next call.
    ///
    /// Refusals are those of [`Parser::take_value`]. An end of the source before that of the value
    /// is refused as [`IoKind::UnexpectedEof`], and the parser has failed. A failure of the source
    /// is refused as [`RedisError::Io`] with its kind, or for want of memory as `OutOfMemory`; the
    /// parser then holds what came before it, and the call may be repeated. The source is asked for
    /// at most 4,096 bytes at a time, and only while the bytes in the buffer are incomplete.
    pub fn parse_from<S: ReplySource>(&mut self, source: &mut S) -> RedisResult<Value>
        ensures failed { self.old.failed ≡ true → (result ≡ Err has_failed) × (self.new ≡ self.old)
            × (S.source source.new ≡ S.source source.old) }
        ensures parses { (b : List ℕ) → StandsAfter self.old b →
            Parses b self.old self.new (S.source source.old) (S.source source.new) result }
        ensures offset { self.old.failed ≡ false → KeepsFaultOffset self.new result }
        ensures limits { self.new.limits ≡ self.old.limits }
        ensures bounds { Bounded self.new }
        ensures calls { CallsWithin self.old.counts self.new.counts }
    {
        if self.decoder.is_failed() {
            return Err(failed_before());
        }
        for _ in 0..u64::MAX {
            if let Some(value) = self.take_value()? {
                return Ok(value);
            }
            self.ask(source)?;
        }
        self.fail();
        Err(RedisError::OutOfMemory)
    }

    /// The next value, with bytes from a reader where those in the buffer don't hold one. Bytes
    /// past the value stay in the buffer for the next call.
    ///
    /// Refusals are those of [`Parser::parse_from`]; the reader is asked in the same way.
    pub fn parse_value<R: Read + Drop>(&mut self, reader: R) -> RedisResult<Value>
        ensures failed { self.old.failed ≡ true → (result ≡ Err has_failed)
            × (self.new ≡ self.old) }
        ensures parses { (b : List ℕ) → StandsAfter self.old b →
            ParsesReader R.remaining b self.old self.new reader result }
        ensures offset { self.old.failed ≡ false → KeepsFaultOffset self.new result }
        ensures limits { self.new.limits ≡ self.old.limits }
        ensures bounds { Bounded self.new }
        ensures calls { CallsWithin self.old.counts self.new.counts }
    {
        let mut source = Reading::new(reader);
        self.parse_from(&mut source)
    }

    /// Whether the parser has failed permanently.
    pub fn is_failed(&self) -> bool
        ensures failed { IsTrue result ↔ (self.now.failed ≡ true) }
    {
        self.decoder.is_failed()
    }

    /// Where the fault stands that a call answered: the number of bytes after the last value up to
    /// and with the byte that shows it. None while no fault was answered.
    ///
    /// ```text
    /// parser.feed(b":1\r\n$2\r\nabX")?;
    /// let one = parser.take_value()?; // Some(Value::Int(1))
    /// let fault = parser.take_value(); // FrameFault::BodyEnd, shown by the X
    /// let offset = parser.fault_offset(); // Some(7)
    /// ```
    ///
    /// In `crates/resp_tests/src/parsers.rt`.
    pub fn fault_offset(&self) -> Option<usize>
        ensures offset { result ≡ self.now.fault_offset }
        ensures works { self.now.failed ≡ false → result ≡ None }
        ensures shows { (b : List ℕ) → FailedAfter self.now b →
            IfSome result (FaultShownAt self.now.limits b) }
    {
        self.decoder.fault_offset()
    }

    /// How many bytes spelled the value that was handed out last; 0 before the first.
    pub fn value_len(&self) -> usize
        ensures size { result ≡ self.now.value_len }
    {
        self.decoder.value_len()
    }

    /// How many bytes are held that weren't parsed. Between values, these are the bytes that follow
    /// the last one.
    pub fn unparsed_len(&self) -> usize
        ensures unparsed { result ≡ length self.now.unparsed }
    {
        self.decoder.unparsed_len()
    }

    /// Whether bytes stand after the last value that was handed out. A parser that has failed
    /// answers as it would have at its failure, the bytes that it was filled with included.
    pub fn in_progress(&self) -> bool
        ensures progress { (b : List ℕ) → StandsAfter self.now b ⊎ FailedAfter self.now b →
            (IsTrue result ↔ (b ≢ [])) }
    {
        self.decoder.in_progress()
    }

    /// The bytes that are held and weren't parsed. Between values, these are the bytes that follow
    /// the last one.
    pub fn unparsed(&self) -> &[u8]
        ensures unparsed { result.now ≡ self.now.unparsed }
        ensures bounds { Bounded self.now }
    {
        self.decoder.unparsed()
    }

    /// Drops the first n bytes that are held, between values. The parser then stands as if it had
    /// never been fed them.
    pub fn skip(&mut self, n: usize)
        requires rest { IsBetweenValues self.old }
        requires within { n ≤ length self.old.unparsed }
        ensures unparsed { self.new.unparsed ≡ drop n self.old.unparsed }
        ensures rest { IsBetweenValues self.new }
        ensures limits { self.new.limits ≡ self.old.limits }
        ensures bounds { Bounded self.new }
    {
        self.decoder.skip(n);
    }

    /// Asks the source once, for at most 4,096 bytes, and holds what it gives. No value is taken.
    ///
    /// An end of the source is refused as [`IoKind::UnexpectedEof`], and the parser has failed. A
    /// failure of the source is refused as [`RedisError::Io`] with its kind, or for want of memory as
    /// `OutOfMemory`; the parser stays as it was.
    pub fn fill_from<S: ReplySource>(&mut self, source: &mut S) -> RedisResult<()>
        ensures failed { self.old.failed ≡ true → (result ≡ Err has_failed) × (self.new ≡ self.old)
            × (S.source source.new ≡ S.source source.old) }
        ensures asks { (b : List ℕ) → StandsAfter self.old b →
            Asks b self.old self.new (S.source source.old) (S.source source.new) result }
        ensures rest { OnOk result (IsBetweenValues self.old → IsBetweenValues self.new) }
        ensures limits { self.new.limits ≡ self.old.limits }
        ensures bounds { Bounded self.new }
        ensures asked { AskedFor self.old.counts self.new.counts result }
    {
        if self.decoder.is_failed() {
            return Err(failed_before());
        }
        self.ask(source)
    }

    /// Asks the source until it is known whether the next value is a bulk string with a body, and
    /// answers its header. No byte is taken: the header and what follows it are the first of
    /// [`Parser::unparsed`].
    ///
    /// None where another value comes, or a fault, which [`Parser::parse_from`] then says; so it is
    /// where the line that began takes more bytes than a value may have. An end or a failure of the
    /// source before that is refused as there.
    pub fn find_bulk<S: ReplySource>(&mut self, source: &mut S) -> RedisResult<Option<BulkHeader>>
        requires rest { IsBetweenValues self.old }
        ensures looks { (b : List ℕ) → StandsAfter self.old b →
            Looks b self.old self.new (S.source source.old) (S.source source.new) result }
        ensures limits { self.new.limits ≡ self.old.limits }
        ensures bounds { Bounded self.new }
    {
        let most = self.limits().bytes;
        let mut looked = 0;
        for _ in 0..u64::MAX {
            let bytes = self.unparsed();
            match start_of(bytes, looked) {
                Start::Bulk(header) => return Ok(Some(header)),
                Start::Other => return Ok(None),
                Start::Unknown => {}
            }
            if bytes.len() > most {
                return Ok(None);
            }
            looked = bytes.len();
            self.ask(source)?;
        }
        self.fail();
        Err(RedisError::OutOfMemory)
    }

    /// Asks the source once, for at most 4,096 bytes, and holds what it gives.
    fn ask<S: ReplySource>(&mut self, source: &mut S) -> RedisResult<()>
        ensures asks { (b : List ℕ) → StandsAfter self.old b →
            Asks b self.old self.new (S.source source.old) (S.source source.new) result }
        ensures rest { OnOk result (IsBetweenValues self.old → IsBetweenValues self.new) }
        ensures offset { self.new.fault_offset ≡ self.old.fault_offset }
        ensures limits { self.new.limits ≡ self.old.limits }
        ensures bounds { Bounded self.new }
        ensures asked { AskedFor self.old.counts self.new.counts result }
    {
        self.decoder.ask(source)
    }

    /// From here on the parser has failed.
    fn fail(&mut self)
        ensures fails { (b : List ℕ) → StandsAfter self.old b → FailedAfter self.new b }
        ensures limits { self.new.limits ≡ self.old.limits }
        ensures bounds { Bounded self.new }
        ensures offset { self.old.failed ≡ false → self.new.fault_offset ≡ None }
        ensures counts { self.new.counts ≡ self.old.counts }
    {
        self.decoder.fail();
    }
}
