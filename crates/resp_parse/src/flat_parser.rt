//! A parser of flat replies whose bytes come in pieces.

ghost use Rattle.std.specs.Prelude.{◌≡◌, ◌≢◌, ◌↔◌, ◌⊎◌, [], true, false, Err, List, ℕ};
ghost use Rattle.std.specs.Prelude.{length, IsTrue, IfErr, IfOk, IsOk, OnOk, IfSome, None};
ghost use Rattle.resp_parse.specs.State.{StandsAfter, FailedAfter, IsBetweenValues, has_failed};
ghost use Rattle.resp_parse.specs.State.{KeepsFaultOffset};
ghost use Rattle.resp_parse.specs.Limits.{AreLimits, RefusesLimits, usual};
ghost use Rattle.resp_parse.specs.Limited.{FaultShownAt};
ghost use Rattle.resp_parse.specs.Calls.{Feeds, TakesFlat};
ghost use Rattle.resp_parse.specs.Bounds.{Bounded, FedBy, OneCall};
ghost use Rattle.resp_parse.specs.Counts.{nothing_done};

use crate::decoder::Decoder;
use crate::flat_builder::FlatBuilder;
use crate::limits::Limits;
use resp_flat::FlatReply;
use resp_value::RedisResult;
use std::alloc::Global;
use std::marker::Model;

/// A [`Parser`](crate::Parser) that hands out flat replies in place of trees.
///
/// Limits, bounds and refusals are those of `Parser`. Of the value in progress it holds at most two
/// tokens for each three bytes looked at.
pub struct FlatParser {
    decoder: Decoder<FlatBuilder>,
}

/// By hand, so that the proof of a function that owns one has a call where it is dropped, and not a
/// case for each part.
impl Drop for FlatParser {
    #[inline(always)]
    fn drop(self) {
        let FlatParser { decoder: _ } = self;
    }
}

impl Model for FlatParser {
    ghost use Rattle.resp_parse.specs.State.{State};

    ghost Value = { State };

    ghost view = { λ p. p.decoder };
}

impl FlatParser {
    /// A parser that holds no bytes, with the limits that are usual: 100 levels, and 2^63 - 1 bytes
    /// for a value. Takes no memory.
    pub fn new(alloc: Global) -> FlatParser
        ensures limits { result.limits ≡ usual }
        ensures rest { IsBetweenValues result }
        ensures empty { result.unparsed ≡ [] }
        ensures bounds { Bounded result }
        ensures counts { result.counts ≡ nothing_done }
    {
        FlatParser {
            decoder: Decoder::within(alloc, Limits::default()),
        }
    }

    /// A parser that holds no bytes and reads values within these limits. Takes no memory.
    ///
    /// Other limits than 1 to 1,000 levels and 1 to 2^63 - 1 bytes are refused with kind
    /// `InvalidClientConfig` and the text `depth limit must be 1 to 1000`, or, where the depth is
    /// right, `size limit must be 1 to 2^63 - 1 bytes`.
    pub fn with_limits(alloc: Global, limits: Limits) -> RedisResult<FlatParser>
        ensures accepts { IsOk result ↔ AreLimits limits }
        ensures limits { IfOk result (λ parser. parser.limits ≡ limits) }
        ensures rest { IfOk result IsBetweenValues }
        ensures empty { IfOk result (λ parser. parser.unparsed ≡ []) }
        ensures bounds { IfOk result Bounded }
        ensures counts { IfOk result (λ parser. parser.counts ≡ nothing_done) }
        ensures error { IfErr result (RefusesLimits limits) }
    {
        limits.check()?;
        Ok(FlatParser {
            decoder: Decoder::within(alloc, limits),
        })
    }

    /// The limits within which values are read.
    pub fn limits(&self) -> Limits
        ensures limits { result ≡ self.now.limits }
        ensures valid { AreLimits result }
    {
        self.decoder.limits()
    }

    /// Adds bytes after those that were fed before. On `OutOfMemory` the parser stays as
    /// it was.
    pub fn feed(&mut self, bytes: &[u8]) -> RedisResult<()>
        ensures failed { self.old.failed ≡ true → (result ≡ Err has_failed)
            × (self.new ≡ self.old) }
        ensures feeds { (b : List ℕ) → StandsAfter self.old b →
            Feeds b bytes.now self.old self.new result }
        ensures rest { OnOk result (IsBetweenValues self.old → IsBetweenValues self.new) }
        ensures limits { self.new.limits ≡ self.old.limits }
        ensures bounds { Bounded self.new }
        ensures counts { OnOk result (FedBy (length bytes.now) self.old.counts self.new.counts) }
    {
        self.decoder.feed(bytes)
    }

    /// The next value as a flat reply; false while the bytes since the last value are incomplete.
    ///
    /// What the reply held before is lost where a value is taken, and is as it was where none is.
    /// Its memory is used again for the next value, so that in the steady state none is asked for but
    /// by errors, doubles, big numbers and verbatim strings, which are made apart first. Refusals are
    /// those of [`Parser::take_value`](crate::Parser::take_value).
    ///
    /// ```text
    /// let mut reply = FlatReply::new(alloc);
    /// parser.feed(b"*2\r\n:1\r\n$5\r\nhello\r\n")?;
    /// let taken = parser.take_reply(&mut reply)?; // true: three tokens, and the text `hello`
    /// ```
    ///
    /// In `crates/resp_tests/src/flat_replies.rt`.
    pub fn take_reply(&mut self, reply: &mut FlatReply) -> RedisResult<bool>
        ensures failed { self.old.failed ≡ true → (result ≡ Err has_failed)
            × ((self.new ≡ self.old) × (reply.new ≡ reply.old)) }
        ensures takes { (b : List ℕ) → StandsAfter self.old b →
            TakesFlat b self.new reply.old reply.new result }
        ensures limits { self.new.limits ≡ self.old.limits }
        ensures bounds { Bounded self.new }
        ensures offset { self.old.failed ≡ false → KeepsFaultOffset self.new result }
        ensures counts { self.old.failed ≡ false → OneCall self.old.counts self.new.counts }
    {
        self.decoder.take(reply)
    }

    /// Whether the parser has failed permanently.
    pub fn is_failed(&self) -> bool
        ensures failed { IsTrue result ↔ (self.now.failed ≡ true) }
    {
        self.decoder.is_failed()
    }

    /// Where the fault stands that a call answered: the number of bytes after the last value up to
    /// and with the byte that shows it. None while no fault was answered.
    pub fn fault_offset(&self) -> Option<usize>
        ensures offset { result ≡ self.now.fault_offset }
        ensures works { self.now.failed ≡ false → result ≡ None }
        ensures shows { (b : List ℕ) → FailedAfter self.now b →
            IfSome result (FaultShownAt self.now.limits b) }
    {
        self.decoder.fault_offset()
    }

    /// How many bytes are held that weren't parsed. Between values, these are the bytes that follow
    /// the last one.
    pub fn unparsed_len(&self) -> usize
        ensures unparsed { result ≡ length self.now.unparsed }
    {
        self.decoder.unparsed_len()
    }

    /// Whether bytes stand after the last value that was handed out. A parser that has failed
    /// answers as it would have at its failure, the bytes that it was filled with included.
    pub fn in_progress(&self) -> bool
        ensures progress { (b : List ℕ) → StandsAfter self.now b ⊎ FailedAfter self.now b →
            (IsTrue result ↔ (b ≢ [])) }
    {
        self.decoder.in_progress()
    }
}
