//! A decoder of replies whose bytes come in pieces, whatever it builds of them.

ghost use Rattle.std.specs.Prelude.{◌≡◌, ◌≢◌, ◌↔◌, ◌++◌, ◌+◌, ◌≤◌, ◌⊎◌, [], true, false, Ok, Err, List, ℕ};
ghost use Rattle.std.specs.Prelude.{length, drop, IsTrue, OnOk, IfSome, None, Some};
ghost use Rattle.std.specs.Vec.{vec_capacity};
ghost use Rattle.resp_parse.specs.State.{StandsAfter, FailedAfter, IsBetweenValues, has_failed};
ghost use Rattle.resp_parse.specs.State.{KeepsFaultOffset, refusal_of, answered};
ghost use Rattle.resp_parse.specs.Limits.{AreLimits, IsSizeLimit};
ghost use Rattle.resp_parse.specs.Limited.{FaultShownAt};
ghost use Rattle.resp_parse.specs.Invariant.{PassesLimit};
ghost use Rattle.resp_parse.specs.Calls.{Feeds, Takes, TakesInto, Asks};
ghost use Rattle.resp_parse.specs.Bounds.{Bounded, FedBy, OneCall, AskedFor};
ghost use Rattle.resp_parse.specs.Counts.{nothing_done};

use crate::builder::Builder;
use crate::history::History;
use crate::limits::{LONGEST, Limits};
use crate::machine::Machine;
use crate::read_error::ReadError;
use crate::source::ReplySource;
use resp_value::{FrameFault, IoKind, ParsingError, RedisError, RedisResult, Value};
use std::alloc::{AllocError, Global};
use std::marker::Model;

mod bulk_header;
mod counter;
mod prefix;

pub use bulk_header::BulkHeader;
pub(crate) use bulk_header::{Start, start_of};
pub(crate) use counter::Counter;
pub use prefix::parse_redis_value;

/// How many bytes a source is asked for at most.
const CHUNK: usize = 4096;

/// A decoder of replies whose bytes come in pieces: what `Parser` and `FlatParser` have in common.
pub(crate) struct Decoder<B: Builder> {
    buffer: Vec<u8>,
    consumed: usize,
    /// How many bytes may spell a value.
    size_limit: usize,
    /// How many bytes of pushes a link sets aside.
    push_limit: usize,
    /// How many bytes of the value in progress the machine took.
    taken: usize,
    /// How many bytes spelled the value that was handed out last.
    value_len: usize,
    machine: Machine<B>,
    failed: bool,
    /// How many bytes since the last value show the fault that was answered.
    fault_offset: Option<usize>,
    since: History,
    counts: Counter,
    /// Where a source puts bytes before they are held: none before the first reading from one, then
    /// 4,096 bytes of memory, which stay until the decoder is dropped.
    chunk: Vec<u8>,
}

/// By hand, so that the proof of a function that owns one has a call where it is dropped, and not a
/// case for each part.
impl<B: Builder> Drop for Decoder<B> {
    #[inline(always)]
    fn drop(self) {
        let Decoder {
            buffer: _,
            consumed: _,
            size_limit: _,
            push_limit: _,
            taken: _,
            value_len: _,
            machine: _,
            failed: _,
            fault_offset: _,
            since: _,
            counts: _,
            chunk: _,
        } = self;
    }
}

impl<B: Builder> Model for Decoder<B> {
    ghost use Rattle.std.specs.Prelude.{drop, length};
    ghost use Rattle.resp_parse.specs.State.{State};
    ghost use Rattle.resp_parse.specs.Invariant.{Invariant, limits_of};

    ghost Value = { State };

    ghost view = { λ p. record {
      limits = limits_of p.machine p.size_limit p.push_limit;
      unparsed = drop p.consumed p.buffer.items;
      looked = p.machine.scanned;
      since = p.since;
      value_len = p.value_len;
      failed = p.failed;
      fault_offset = p.fault_offset;
      open_aggregates = length p.machine.open_aggregates;
      values = B.values p.machine.builder;
      tokens = B.tokens p.machine.builder;
      counts = p.counts;
    } };

    ghost invariant = { Invariant B.stands };
}

impl<B: Builder> Decoder<B> {
    /// A decoder that holds no bytes, with these limits. Takes no memory.
    pub(crate) fn within(alloc: Global, limits: Limits) -> Decoder<B>
        requires limits { AreLimits limits }
        ensures limits { result.limits ≡ limits }
        ensures rest { IsBetweenValues result }
        ensures empty { result.unparsed ≡ [] }
        ensures bounds { Bounded result }
        ensures counts { result.counts ≡ nothing_done }
    {
        Decoder {
            buffer: Vec::new(alloc),
            consumed: 0,
            size_limit: limits.bytes,
            push_limit: limits.pushes,
            taken: 0,
            value_len: 0,
            machine: Machine::new(alloc, limits.depth),
            failed: false,
            fault_offset: None,
            since: History::new(),
            counts: Counter::new(),
            chunk: Vec::new(alloc),
        }
    }

    /// The limits within which values are read.
    pub(crate) fn limits(&self) -> Limits
        ensures limits { result ≡ self.now.limits }
        ensures valid { AreLimits result }
    {
        Limits {
            depth: self.machine.depth,
            bytes: self.size_limit,
            pushes: self.push_limit,
        }
    }

    /// Adds bytes after those that were fed before. On `OutOfMemory` the decoder stays
    /// as it was.
    pub(crate) fn feed(&mut self, bytes: &[u8]) -> RedisResult<()>
        ensures failed { self.old.failed ≡ true → (result ≡ Err has_failed)
            × (self.new ≡ self.old) }
        ensures feeds { (b : List ℕ) → StandsAfter self.old b →
            Feeds b bytes.now self.old self.new result }
        ensures rest { OnOk result (IsBetweenValues self.old → IsBetweenValues self.new) }
        ensures limits { self.new.limits ≡ self.old.limits }
        ensures bounds { Bounded self.new }
        ensures counts { OnOk result (FedBy (length bytes.now) self.old.counts self.new.counts) }
    {
        if self.failed {
            return Err(failed_before());
        }
        self.compact();
        let taken_all = self.consumed == self.buffer.len();
        let lacking = if taken_all { self.machine.lacks() } else { 0 };
        let room = self.size_limit - self.taken;
        let (direct, rest) = bytes.split_at(lacking.min(room).min(bytes.len()));
        self.buffer.reserve(rest.len())?;
        self.machine.fill(direct, &mut self.counts)?;
        self.buffer.extend_from_slice(rest)?;
        self.taken += direct.len();
        self.since.append(bytes);
        self.counts.call();
        self.counts.receive(bytes.len());
        Ok(())
    }

    /// Hands out the next value; false while it is incomplete.
    pub(crate) fn take(&mut self, out: &mut B::Reply) -> RedisResult<bool>
        ensures failed { self.old.failed ≡ true → (result ≡ Err has_failed)
            × ((self.new ≡ self.old) × (out.new ≡ out.old)) }
        ensures takes { (b : List ℕ) → StandsAfter self.old b →
            TakesInto B.shows b self.new out.old out.new result }
        ensures limits { self.new.limits ≡ self.old.limits }
        ensures bounds { Bounded self.new }
        ensures offset { self.old.failed ≡ false → KeepsFaultOffset self.new result }
        ensures counts { self.old.failed ≡ false → OneCall self.old.counts self.new.counts }
    {
        if self.failed {
            return Err(failed_before());
        }
        if self.waits() {
            return Ok(false);
        }
        match self.read(out) {
            Ok(taken) => Ok(taken),
            Err(why) => Err(refusal(why)),
        }
    }

    /// Whether no value can be taken before more bytes come, as the last byte held shows. It is then
    /// looked at, and the call is counted; else nothing is done.
    #[inline(always)]
    pub(crate) fn waits(&mut self) -> bool
        requires works { self.old.failed ≡ false }
        ensures takes { (b : List ℕ) → StandsAfter self.old b → result ≡ true →
            Takes b self.new (Ok None) }
        ensures limits { self.new.limits ≡ self.old.limits }
        ensures bounds { Bounded self.new }
        ensures offset { self.new.fault_offset ≡ None }
        ensures counts { result ≡ true → OneCall self.old.counts self.new.counts }
        ensures same { result ≡ false → self.new ≡ self.old }
    {
        let unparsed = &self.buffer[self.consumed..];
        if unparsed.len() > self.size_limit - self.taken {
            return false;
        }
        if !self.machine.looks_on(unparsed, &mut self.counts) {
            return false;
        }
        self.counts.call();
        true
    }

    /// The next value, where nothing of it was looked at and it is of few bytes, which are held; else
    /// nothing is done. None too where there is no memory for it.
    #[inline(always)]
    pub(crate) fn scalar(&mut self) -> Option<Value>
        requires works { self.old.failed ≡ false }
        ensures takes { (b : List ℕ) → StandsAfter self.old b →
            IfSome result (λ v. Takes b self.new (Ok (Some v))) }
        ensures limits { self.new.limits ≡ self.old.limits }
        ensures bounds { Bounded self.new }
        ensures offset { self.new.fault_offset ≡ None }
        ensures counts { IfSome result (λ v. OneCall self.old.counts self.new.counts) }
        ensures same { result ≡ None → self.new ≡ self.old }
    {
        let alloc = *self.buffer.allocator();
        let unparsed = &self.buffer[self.consumed..];
        let room = self.size_limit - self.taken;
        if unparsed.len() > room || self.machine.scanned > 0 || !self.machine.is_fresh() {
            return None;
        }
        let (taken, value) = self.machine.scalar(alloc, unparsed)?;
        self.counts.call();
        self.counts.iterate();
        self.counts.iterate();
        self.counts.examine(taken);
        self.consumed += taken;
        self.value_len = self.taken + taken;
        self.taken = 0;
        self.since.restart(&self.buffer[self.consumed..]);
        Some(value)
    }

    /// Reads on.
    pub(crate) fn read(&mut self, out: &mut B::Reply) -> Result<bool, ReadError>
        requires works { self.old.failed ≡ false }
        ensures takes { (b : List ℕ) → StandsAfter self.old b →
            TakesInto B.shows b self.new out.old out.new (answered result) }
        ensures limits { self.new.limits ≡ self.old.limits }
        ensures bounds { Bounded self.new }
        ensures offset { KeepsFaultOffset self.new (answered result) }
        ensures counts { OneCall self.old.counts self.new.counts }
    {
        self.counts.call();
        let alloc = *self.buffer.allocator();
        let unparsed = &self.buffer[self.consumed..];
        let room = self.size_limit - self.taken;
        let (bytes, later) = unparsed.split_at(room.min(unparsed.len()));
        let passes = !later.is_empty();
        match self.machine.read(alloc, bytes, &mut self.counts, out) {
            Ok((taken, true)) => {
                self.consumed += taken;
                self.value_len = self.taken + taken;
                self.taken = 0;
                self.since.restart(&self.buffer[self.consumed..]);
                Ok(true)
            }
            Ok((taken, false)) => {
                if passes {
                    let (why, offset) = too_long(self.size_limit);
                    self.failed = true;
                    self.fault_offset = offset;
                    return Err(why);
                }
                self.consumed += taken;
                self.taken += taken;
                Ok(false)
            }
            Err(ReadError::Fault(fault)) => {
                self.failed = true;
                self.fault_offset = Some(self.taken + self.machine.shown);
                Err(ReadError::Fault(fault))
            }
            Err(ReadError::Memory) => {
                self.failed = true;
                Err(ReadError::Memory)
            }
        }
    }

    /// Whether the decoder has failed permanently.
    pub(crate) fn is_failed(&self) -> bool
        ensures failed { IsTrue result ↔ (self.now.failed ≡ true) }
        ensures bounds { Bounded self.now }
    {
        self.failed
    }

    /// How many bytes after the last value show the fault that a call answered.
    pub(crate) fn fault_offset(&self) -> Option<usize>
        ensures offset { result ≡ self.now.fault_offset }
        ensures works { self.now.failed ≡ false → result ≡ None }
        ensures shows { (b : List ℕ) → FailedAfter self.now b →
            IfSome result (FaultShownAt self.now.limits b) }
    {
        self.fault_offset
    }

    /// How many bytes spelled the value that was handed out last; 0 before the first.
    pub(crate) fn value_len(&self) -> usize
        ensures size { result ≡ self.now.value_len }
    {
        self.value_len
    }

    /// How many bytes are held that weren't parsed. Between values, these are the bytes that follow
    /// the last one.
    pub(crate) fn unparsed_len(&self) -> usize
        ensures unparsed { result ≡ length self.now.unparsed }
    {
        self.buffer[self.consumed..].len()
    }

    /// The bytes that are held and weren't parsed.
    pub(crate) fn unparsed(&self) -> &[u8]
        ensures unparsed { result.now ≡ self.now.unparsed }
        ensures bounds { Bounded self.now }
    {
        &self.buffer[self.consumed..]
    }

    /// Drops the first n bytes that are held, between values.
    pub(crate) fn skip(&mut self, n: usize)
        requires rest { IsBetweenValues self.old }
        requires within { n ≤ length self.old.unparsed }
        ensures unparsed { self.new.unparsed ≡ drop n self.old.unparsed }
        ensures rest { IsBetweenValues self.new }
        ensures limits { self.new.limits ≡ self.old.limits }
        ensures bounds { Bounded self.new }
    {
        let looked = self.machine.scanned;
        self.counts.examine(n.saturating_sub(looked));
        self.machine.scanned = looked.saturating_sub(n);
        self.consumed += n;
        self.since.restart(&self.buffer[self.consumed..]);
    }

    /// Whether bytes stand after the last value that was handed out. A parser that has failed
    /// answers as it would have at its failure, the bytes that it was filled with included.
    pub(crate) fn in_progress(&self) -> bool
        ensures progress { (b : List ℕ) → StandsAfter self.now b ⊎ FailedAfter self.now b →
            (IsTrue result ↔ (b ≢ [])) }
    {
        self.consumed < self.buffer.len() || !self.machine.is_fresh()
    }

    /// Asks the source once, for at most 4,096 bytes, and holds what it gives. Bytes that the open
    /// body lacks go straight to it; where it has no memory for them, the next `take` says so.
    pub(crate) fn ask<S: ReplySource>(&mut self, source: &mut S) -> RedisResult<()>
        ensures asks { (b : List ℕ) → StandsAfter self.old b →
            Asks b self.old self.new (S.source source.old) (S.source source.new) result }
        ensures rest { OnOk result (IsBetweenValues self.old → IsBetweenValues self.new) }
        ensures offset { self.new.fault_offset ≡ self.old.fault_offset }
        ensures limits { self.new.limits ≡ self.old.limits }
        ensures bounds { Bounded self.new }
        ensures asked { AskedFor self.old.counts self.new.counts result }
    {
        if self.failed {
            return Err(failed_before());
        }
        self.compact();
        if make_room(&mut self.buffer, &mut self.chunk).is_err() {
            self.failed = true;
            return Err(RedisError::OutOfMemory);
        }
        match source.fill(&mut self.chunk[..]) {
            Ok(0) => {
                self.failed = true;
                Err(RedisError::Io(IoKind::UnexpectedEof))
            }
            Ok(n) => {
                let bytes = &self.chunk[..n];
                let taken_all = self.consumed == self.buffer.len();
                let room = if taken_all {
                    self.size_limit - self.taken
                } else {
                    0
                };
                let direct = self.machine.fill_front(bytes, room, &mut self.counts);
                self.buffer.extend_from_slice(&bytes[direct..])?;
                self.taken += direct;
                self.since.append(bytes);
                self.counts.receive(n);
                Ok(())
            }
            Err(kind) => Err(RedisError::from(kind)),
        }
    }

    /// From here on the decoder has failed.
    pub(crate) fn fail(&mut self)
        ensures fails { (b : List ℕ) → StandsAfter self.old b → FailedAfter self.new b }
        ensures limits { self.new.limits ≡ self.old.limits }
        ensures bounds { Bounded self.new }
        ensures offset { self.old.failed ≡ false → self.new.fault_offset ≡ None }
        ensures counts { self.new.counts ≡ self.old.counts }
    {
        self.failed = true;
    }

    /// Moves the unparsed bytes to the start of the buffer once as many bytes come before them.
    fn compact(&mut self)
        ensures same { self.new ≡ self.old }
    {
        let unparsed = self.buffer.len() - self.consumed;
        if self.consumed > 0 && self.consumed >= unparsed {
            self.buffer.copy_within(self.consumed.., 0);
            self.buffer.truncate(unparsed);
            self.consumed = 0;
        }
    }
}

/// Room for a chunk's bytes in the buffer, and for the chunk itself.
fn make_room(buffer: &mut Vec<u8>, chunk: &mut Vec<u8>) -> Result<(), AllocError>
    ensures same { buffer.new.items ≡ buffer.old.items }
    ensures room { OnOk result (length buffer.new.items + 4096 ≤ vec_capacity buffer.new) }
    ensures size { OnOk result (length chunk.new.items ≡ 4096) }
{
    buffer.reserve(CHUNK)?;
    chunk.resize(CHUNK, 0)
}

/// What a parser answers that has failed before.
pub(crate) fn failed_before() -> RedisError
    ensures error { result ≡ has_failed }
{
    RedisError::Parse(ParsingError::from("parser has failed"))
}

/// What a call answers where a value can't be read.
pub(crate) fn refusal(why: ReadError) -> RedisError
    ensures refusal { result ≡ refusal_of why }
{
    match why {
        ReadError::Memory => RedisError::OutOfMemory,
        ReadError::Fault(fault) => RedisError::Parse(ParsingError::Fault(fault)),
    }
}

/// Why a value of more than `most` bytes can't be read, and how many bytes show its fault.
fn too_long(most: usize) -> (ReadError, Option<usize>)
    requires limit { IsSizeLimit most }
    ensures refuses { PassesLimit most (refusal_of result.0) result.1 }
{
    if most == LONGEST {
        return (ReadError::Memory, None);
    }
    (ReadError::Fault(FrameFault::TooLong), Some(most + 1))
}
