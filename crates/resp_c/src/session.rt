//! A parser with the reply that it gave last.

ghost use Rattle.std.specs.Prelude.{◌≡◌, [], IfErr, IfOk};
ghost use Rattle.resp_parse.specs.Limits.{AreLimits};
ghost use Rattle.resp_parse.specs.State.{StandsAfter};
ghost use Rattle.resp_c.specs.Sessions.{IsNew, Holds, Fed, Taken, FirstOf, StateIs};
ghost use Rattle.resp_c.specs.Sessions.{number_of, status_of, with_fault};

use crate::status::{BETWEEN_VALUES, DONE, FAILED, FAULT, HAS_FAILED, IN_PROGRESS, MEMORY, MORE};
use resp_flat::FlatReply;
use resp_parse::{FlatParser, Limits};
use resp_value::{FrameFault, ParsingError, RedisError, RedisResult};
use std::alloc::Global;
use std::mem;

/// A parser, and the reply that it gave last.
pub struct Session {
    pub parser: FlatParser,
    pub reply: FlatReply,
    /// The number of the fault that was met last; 0 before one was.
    pub fault: u32,
    /// After how many bytes it showed: since the last value, or of those that were read by
    /// themselves.
    pub place: usize,
}

/// By hand, so that the proof of a function that owns one has a call where it is dropped, and not a
/// case for each part.
impl Drop for Session {
    #[inline(always)]
    fn drop(self) {
        let Session {
            parser: _,
            reply: _,
            fault: _,
            place: _,
        } = self;
    }
}

impl Session {
    /// A parser that holds no bytes, within these limits.
    pub fn within(alloc: Global, limits: Limits) -> RedisResult<Session>
        ensures new { IfOk result (IsNew limits) }
        ensures accepts { IfErr result (λ e. AreLimits limits → ⊥) }
    {
        Ok(Session {
            parser: FlatParser::with_limits(alloc, limits)?,
            reply: FlatReply::new(alloc),
            fault: 0,
            place: 0,
        })
    }

    /// 1 where it holds no bytes, 2 where it holds some that aren't part of a value that was taken,
    /// and 3 after a failure.
    pub fn state(&self) -> u32
        ensures state { StateIs self.now result }
    {
        if self.parser.is_failed() {
            return HAS_FAILED;
        }
        if self.parser.in_progress() {
            IN_PROGRESS
        } else {
            BETWEEN_VALUES
        }
    }

    /// Adds bytes.
    pub fn feed(&mut self, bytes: &[u8]) -> u32
        ensures fed { Fed bytes.now self.old self.new result }
    {
        if self.parser.is_failed() {
            return FAILED;
        }
        if self.parser.feed(bytes).is_err() {
            return MEMORY;
        }
        DONE
    }

    /// Takes the next value.
    pub fn next(&mut self) -> u32
        ensures taken { Taken self.old self.new result }
        ensures limits { self.new.parser.limits ≡ self.old.parser.limits }
        ensures empty { (result ≡ 1 → ⊥) → Holds self.new.reply [] [] }
        ensures fault { (result ≡ 2 → ⊥) → (self.new.fault ≡ self.old.fault)
            × (self.new.place ≡ self.old.place) }
    {
        self.reply.clear();
        if self.parser.is_failed() {
            return FAILED;
        }
        match self.parser.take_reply(&mut self.reply) {
            Ok(true) => DONE,
            Ok(false) => MORE,
            Err(error) => {
                let place = self.parser.fault_offset().unwrap_or(0);
                self.note(&error, place)
            }
        }
    }

    /// The value that these bytes begin with, read by itself, and how many of them spell it; or
    /// after how many a fault shows.
    pub fn first(&mut self, alloc: Global, bytes: &[u8], taken: &mut usize) -> u32
        ensures first { FirstOf bytes.now taken.new self.new result }
        ensures empty { (result ≡ 1 → ⊥) → Holds self.new.reply [] [] }
        ensures parser { self.new.parser ≡ self.old.parser }
        ensures fault { (result ≡ 2 → ⊥) → (self.new.fault ≡ self.old.fault)
            × (self.new.place ≡ self.old.place) }
    {
        *taken = 0;
        self.reply.clear();
        let Ok(parser) = FlatParser::with_limits(alloc, self.parser.limits()) else {
            return MEMORY;
        };
        let held = mem::replace(&mut self.parser, parser);
        let status = self.take_first(bytes, taken);
        self.parser = held;
        status
    }

    /// The same by its own parser, which holds no bytes. `feed` and `next` alone call the parser's
    /// `feed` and `take_reply`: LLVM inlines what is called in one place.
    fn take_first(&mut self, bytes: &[u8], taken: &mut usize) -> u32
        requires stands { StandsAfter self.old.parser [] }
        requires reply { Holds self.old.reply [] [] }
        requires taken { taken.old ≡ 0 }
        ensures first { FirstOf bytes.now taken.new self.new result }
        ensures empty { (result ≡ 1 → ⊥) → Holds self.new.reply [] [] }
        ensures limits { self.new.parser.limits ≡ self.old.parser.limits }
        ensures fault { (result ≡ 2 → ⊥) → (self.new.fault ≡ self.old.fault)
            × (self.new.place ≡ self.old.place) }
    {
        if self.feed(bytes) != DONE {
            return MEMORY;
        }
        let status = self.next();
        if status == DONE {
            *taken = bytes.len() - self.parser.unparsed_len();
        } else if status == FAULT {
            *taken = self.place;
        }
        status
    }

    /// Keeps the number and the place of a fault; an error that is none is memory that ran out.
    fn note(&mut self, error: &RedisError, place: usize) -> u32
        ensures status { result ≡ status_of error.now }
        ensures noted { self.new ≡ with_fault error.now place self.old }
    {
        match error {
            RedisError::Parse(ParsingError::Fault(fault)) => {
                self.fault = fault_number(*fault);
                self.place = place;
                FAULT
            }
            _ => MEMORY,
        }
    }
}

/// The number of a fault.
fn fault_number(fault: FrameFault) -> u32
    ensures { result ≡ number_of fault }
{
    match fault {
        FrameFault::TooDeep => 1,
        FrameFault::UnknownType => 2,
        FrameFault::LineNotUtf8 => 3,
        FrameFault::NotInteger => 4,
        FrameFault::NegativeLength => 5,
        FrameFault::BodyEnd => 6,
        FrameFault::NotBoolean => 7,
        FrameFault::NotDouble => 8,
        FrameFault::NoVerbatimFormat => 9,
        FrameFault::BadPushKind => 10,
        FrameFault::TooLong => 11,
        FrameFault::TooManyPushes => 12,
    }
}
