//! The reading of a value, which stops where the bytes end and goes on from there.

ghost use Rattle.std.specs.Prelude.{◌≡◌, ◌<◌, ◌≤◌, ◌+◌, ◌*◌, ◌^◌, length, take, true, false, None, IfOk, IfSome, OnOk};
ghost use Rattle.resp_parse.specs.Building.{nothing, whole, progress_of};
ghost use Rattle.resp_parse.specs.Resume.{BuildsThen, StepBuilds, RunBuilds};
ghost use Rattle.resp_parse.specs.Computes.{Computes};
ghost use Rattle.resp_parse.specs.Grammar.{elements};
ghost use Rattle.resp_parse.specs.Number.{IsNumeral};
ghost use Rattle.resp_parse.specs.PlainReading.{then, read_announced, read};
ghost use Rattle.resp_parse.specs.Shapes.{announced_in_line, line_value, elements_value, count_of};
ghost use Rattle.resp_parse.specs.Resume.{place, resume, fresh_of, IsScanned, Goes, Ends, Steps, Completes};
ghost use Rattle.resp_parse.specs.Resume.{TakesElements, Runs, ReadsInto, Waits, depth_below};
ghost use Rattle.resp_parse.specs.Filling.{lacks_of, FillsOpenBody, FilledOpenBody};
ghost use Rattle.resp_parse.specs.Built.{built};
ghost use Rattle.resp_parse.specs.Costs.{least_bytes, BuiltWithin, StepBuiltWithin, RunBuiltWithin, Places, Begins};
ghost use Rattle.resp_parse.specs.Costs.{HeaderCost, StepCost, ElementsCost, RunCost, Spent, ReadBuiltWithin};

use crate::body::Body;
use crate::builder::Builder;
use crate::decoder::Counter;
use crate::history::History;
use crate::line::{Line, ShortBulk, body_ends, bulk_at_hand, first_line, short_bulk, short_line};
use crate::open_aggregates::{Added, OpenAggregate, OpenAggregates};
use crate::read_error::ReadError;
use crate::seen::{SeenValue, SeenValues};
use crate::shape::{ElementsKind, LineKind, Shape, shape_of};
use crate::type_byte::TypeByte;
use resp_value::{Bytes, FrameFault, Value};
use std::alloc::{AllocError, Global};

/// How many bytes one step took, and what came of it.
#[derive(Drop)]
pub(crate) enum Step {
    /// No more can be taken before more bytes come.
    Waits(usize),
    /// A body or elements follow.
    Goes(usize),
    /// A value is whole.
    Whole(usize, SeenValue),
}

/// What was read of a value that isn't whole.
#[derive(Drop)]
pub(crate) struct Machine<B> {
    /// How many levels of values inside values are read.
    pub(crate) depth: usize,
    pub(crate) builder: B,
    pub(crate) open_aggregates: OpenAggregates,
    pub(crate) body: Option<Body>,
    /// How many bytes of the line in progress were looked at; they hold no CR LF.
    pub(crate) scanned: usize,
    /// How many bytes of the call that met a fault show it.
    pub(crate) shown: usize,
}

impl<B: Builder> Machine<B> {
    /// Nothing was read. Takes no memory.
    pub(crate) fn new(alloc: Global, depth: usize) -> Machine<B>
        ensures limit { result.depth ≡ depth }
        ensures fresh { fresh_of result.body result.open_aggregates ≡ true }
        ensures scanned { result.scanned ≡ 0 }
        ensures builds { B.stands result.builder result.open_aggregates (progress_of result.body) }
    {
        Machine {
            depth,
            builder: B::new(alloc),
            open_aggregates: OpenAggregates::new(alloc),
            body: None,
            scanned: 0,
            shown: 0,
        }
    }

    /// Whether no value is in progress, but for a line's beginning that wasn't taken.
    pub(crate) fn is_fresh(&self) -> bool
        ensures { result ≡ fresh_of self.now.body self.now.open_aggregates }
    {
        self.body.is_none() && self.open_aggregates.len() == 0
    }

    /// Says why reading stops, and keeps how many bytes show it.
    fn record_fault(&mut self, why: ReadError, shown: usize) -> ReadError
        ensures why { result ≡ why }
        ensures shown { self.new ≡ record self.old { shown = shown } }
    {
        self.shown = shown;
        why
    }

    /// Begins what a header announces, whose line may be a number; Some is a value that is whole with
    /// it. After it `at_hand` bytes are there.
    fn begin(
        &mut self,
        alloc: Global,
        kind: TypeByte,
        line: &[u8],
        number: Option<u64>,
        at_hand: usize,
    ) -> Result<Option<SeenValue>, ReadError>
        requires no_body { self.old.body ≡ None }
        requires level { length self.old.open_aggregates < self.old.depth }
        requires builds { B.stands self.old.builder self.old.open_aggregates nothing }
        requires number { IfSome number (IsNumeral line.now) }
        ensures goes { Goes (λ more. then (read_announced
            (read (depth_below self.old.depth self.old.open_aggregates))
            (announced_in_line kind line.now) more)
            (place self.old.depth self.old.open_aggregates)) self.new result }
        ensures limit { self.new.depth ≡ self.old.depth }
        ensures depth { length self.new.open_aggregates ≤ self.new.depth }
        ensures scanned { self.new.scanned ≡ self.old.scanned }
        ensures builds { BuildsThen B.stands self.new result }
        ensures built_within { BuiltWithin self.new (3 + least_bytes self.old) result }
        ensures begins { Begins self.old self.new result }
    {
        match shape_of(kind, line, number)? {
            Shape::Nil => Ok(Some(self.builder.leaf(Value::Nil)?)),
            Shape::Okay => Ok(Some(self.builder.leaf(Value::Okay)?)),
            Shape::Boolean(truth) => Ok(Some(self.builder.leaf(Value::Boolean(truth))?)),
            Shape::Int(n) => Ok(Some(self.builder.leaf(Value::Int(n))?)),
            Shape::Line(kind, text) => Ok(Some(self.begin_line(alloc, kind, text)?)),
            Shape::Simple(text) => Ok(Some(self.builder.simple(alloc, text)?)),
            Shape::Body(kind, missing) => {
                self.builder.begin_body(alloc, missing)?;
                self.body = Some(Body {
                    kind,
                    missing,
                    seen: History::new(),
                });
                Ok(None)
            }
            Shape::Elements(kind, size) => self.begin_elements(alloc, kind, size, at_hand),
        }
    }

    /// A value that is read from its line.
    #[inline(never)]
    fn begin_line(
        &mut self,
        alloc: Global,
        kind: LineKind,
        text: &str,
    ) -> Result<SeenValue, ReadError>
        requires builds { B.stands self.old.builder self.old.open_aggregates nothing }
        ensures same { self.new ≡ record self.old { builder = self.new.builder } }
        ensures value { Computes result (line_value kind text.now) }
        ensures builds { IfOk result
            (λ w. B.stands self.new.builder self.new.open_aggregates (whole w)) }
    {
        let value = kind.value(alloc, text)?;
        Ok(self.builder.leaf(value)?)
    }

    /// Begins an aggregate; Some is one that has no elements.
    #[inline(always)]
    fn begin_elements(
        &mut self,
        alloc: Global,
        kind: ElementsKind,
        size: usize,
        at_hand: usize,
    ) -> Result<Option<SeenValue>, ReadError>
        requires no_body { self.old.body ≡ None }
        requires level { length self.old.open_aggregates < self.old.depth }
        requires builds { B.stands self.old.builder self.old.open_aggregates nothing }
        requires small { size < 2 ^ 63 }
        ensures goes { Goes (λ more. then (read_announced
            (read (depth_below self.old.depth self.old.open_aggregates))
            (elements (count_of kind size) (elements_value kind)) more)
            (place self.old.depth self.old.open_aggregates)) self.new result }
        ensures limit { self.new.depth ≡ self.old.depth }
        ensures depth { length self.new.open_aggregates ≤ self.new.depth }
        ensures scanned { self.new.scanned ≡ self.old.scanned }
        ensures builds { BuildsThen B.stands self.new result }
        ensures built_within { BuiltWithin self.new (3 + least_bytes self.old) result }
        ensures begins { Begins self.old self.new result }
    {
        let count = kind.count(size);
        if count == 0 {
            let value = kind.empty_value(alloc)?;
            return Ok(Some(self.builder.leaf(value)?));
        }
        self.builder.open(alloc, kind, size, count - 1, at_hand)?;
        self.open_aggregates.push(OpenAggregate {
            kind,
            size,
            after: count - 1,
            seen: SeenValues::new(),
        })?;
        Ok(None)
    }

    /// Reads the header at the start of the bytes.
    fn header(
        &mut self,
        alloc: Global,
        bytes: &[u8],
        counts: &mut Counter,
    ) -> Result<Step, ReadError>
        requires no_body { self.old.body ≡ None }
        requires depth { length self.old.open_aggregates ≤ self.old.depth }
        requires scanned { IsScanned self.old.body self.old.scanned bytes.now }
        requires builds { B.stands self.old.builder self.old.open_aggregates
            (progress_of self.old.body) }
        ensures steps { Steps self.old bytes.now self.new result }
        ensures limit { self.new.depth ≡ self.old.depth }
        ensures depth { length self.new.open_aggregates ≤ self.new.depth }
        ensures builds { StepBuilds B.stands self.new result }
        ensures built_within { StepBuiltWithin self.old self.new result }
        ensures cost { HeaderCost self.old self.new bytes.now counts.old counts.new result }
    {
        let Some((first, after)) = bytes.split_first() else {
            return Ok(Step::Waits(0));
        };
        if self.open_aggregates.len() == self.depth {
            return Err(self.record_fault(ReadError::Fault(FrameFault::TooDeep), 1));
        }
        let Some(kind) = TypeByte::from_byte(*first) else {
            return Err(self.record_fault(ReadError::Fault(FrameFault::UnknownType), 1));
        };
        if let TypeByte::BulkString = kind {
            if let Some(bulk) = short_bulk(*first, after) {
                let ShortBulk { len, body } = bulk;
                let taken = len + 3 + (body.len() + 2);
                counts.examine(taken - self.scanned);
                self.scanned = 0;
                let short = self.builder.bulk(alloc, body)?;
                return Ok(Step::Whole(taken, short));
            }
        }
        let Some(line) = first_line(after, self.scanned, counts) else {
            counts.examine(bytes.len() - self.scanned);
            self.scanned = bytes.len();
            return Ok(Step::Waits(0));
        };
        let Line { len, number } = line;
        counts.examine(len + 3 - self.scanned);
        self.scanned = 0;
        let rest = &after[len + 2..];
        if let Some(body) = bulk_at_hand(kind, number, rest) {
            counts.examine(body.len() + 2);
            let whole = self.builder.bulk(alloc, body)?;
            return Ok(Step::Whole(len + 3 + (body.len() + 2), whole));
        }
        match self.begin(alloc, kind, &after[..len], number, rest.len()) {
            Ok(Some(whole)) => Ok(Step::Whole(len + 3, whole)),
            Ok(None) => Ok(Step::Goes(len + 3)),
            Err(why) => Err(self.record_fault(why, len + 3)),
        }
    }

    /// Takes a header, or goes on in a body.
    fn step(&mut self, alloc: Global, bytes: &[u8], counts: &mut Counter) -> Result<Step, ReadError>
        requires depth { length self.old.open_aggregates ≤ self.old.depth }
        requires scanned { IsScanned self.old.body self.old.scanned bytes.now }
        requires builds { B.stands self.old.builder self.old.open_aggregates
            (progress_of self.old.body) }
        ensures steps { Steps self.old bytes.now self.new result }
        ensures limit { self.new.depth ≡ self.old.depth }
        ensures depth { length self.new.open_aggregates ≤ self.new.depth }
        ensures builds { StepBuilds B.stands self.new result }
        ensures built_within { StepBuiltWithin self.old self.new result }
        ensures cost { StepCost self.old self.new bytes.now counts.old counts.new result }
    {
        counts.iterate();
        let Some(body) = &mut self.body else {
            return self.header(alloc, bytes, counts);
        };
        let taken = body.fill(&mut self.builder, bytes)?;
        counts.examine(taken);
        match body_ends(&bytes[taken..]) {
            Ok(true) => {}
            Ok(false) => return Ok(Step::Waits(taken)),
            Err(shown) => return Err(self.record_fault(
                ReadError::Fault(FrameFault::BodyEnd),
                taken + shown,
            )),
        }
        counts.examine(2);
        let whole = self.builder.end_body(alloc, body);
        self.body = None;
        match whole {
            Ok(whole) => Ok(Step::Whole(taken + 2, whole)),
            Err(why) => Err(self.record_fault(why, taken + 2)),
        }
    }

    /// How many bytes the open body lacks, its CR LF aside; 0 if none is open.
    pub(crate) fn lacks(&self) -> usize
        ensures { result ≡ lacks_of self.now.body }
    {
        match &self.body {
            Some(body) => body.missing,
            None => 0,
        }
    }

    /// Takes bytes that the open body lacks.
    pub(crate) fn fill(&mut self, bytes: &[u8], counts: &mut Counter) -> Result<(), AllocError>
        requires lacks { length bytes.now ≤ lacks_of self.old.body }
        ensures fills { FillsOpenBody self.old bytes.now self.new counts.old counts.new result }
        ensures builds { B.stands self.old.builder self.old.open_aggregates
            (progress_of self.old.body) →
            B.stands self.new.builder self.new.open_aggregates (progress_of self.new.body) }
        ensures values { B.values self.new.builder ≡ B.values self.old.builder }
        ensures tokens { B.tokens self.new.builder ≡ B.tokens self.old.builder }
    {
        if bytes.is_empty() {
            return Ok(());
        }
        let Some(body) = &mut self.body else {
            return Ok(());
        };
        let taken = body.fill(&mut self.builder, bytes)?;
        counts.iterate();
        counts.examine(taken);
        Ok(())
    }

    /// Takes the first of these bytes, up to `most`, that the open body lacks; answers how many, none
    /// where memory runs out.
    pub(crate) fn fill_front(&mut self, bytes: &[u8], most: usize, counts: &mut Counter) -> usize
        ensures within { result ≤ length bytes.now }
        ensures most { result ≤ most }
        ensures fills { FilledOpenBody self.old (take result bytes.now) self.new
            counts.old counts.new }
        ensures builds { B.stands self.old.builder self.old.open_aggregates
            (progress_of self.old.body) →
            B.stands self.new.builder self.new.open_aggregates (progress_of self.new.body) }
        ensures values { B.values self.new.builder ≡ B.values self.old.builder }
        ensures tokens { B.tokens self.new.builder ≡ B.tokens self.old.builder }
    {
        let direct = self.lacks().min(most).min(bytes.len());
        match self.fill(&bytes[..direct], counts) {
            Ok(()) => direct,
            Err(_) => 0,
        }
    }

    /// Puts a whole value where it belongs; Some is one that stands in no aggregate.
    fn attach(
        &mut self,
        alloc: Global,
        value: SeenValue,
        counts: &mut Counter,
    ) -> Result<Option<SeenValue>, ReadError>
        requires no_body { self.old.body ≡ None }
        requires depth { length self.old.open_aggregates ≤ self.old.depth }
        requires builds { B.stands self.old.builder self.old.open_aggregates (whole value) }
        ensures ends { Ends (place self.old.depth self.old.open_aggregates value) self.new result }
        ensures limit { self.new.depth ≡ self.old.depth }
        ensures depth { length self.new.open_aggregates ≤ self.new.depth }
        ensures scanned { self.new.scanned ≡ self.old.scanned }
        ensures no_body { self.new.body ≡ None }
        ensures builds { BuildsThen B.stands self.new result }
        ensures built_within { BuiltWithin self.new (least_bytes self.old + 3 * built value) result }
        ensures places { Places self.old self.new counts.old counts.new result }
        ensures iterations { counts.new ≡ record counts.old { iterations = counts.new.iterations } }
    {
        let mut value = value;
        loop {
            counts.iterate();
            match self.open_aggregates.add(&value) {
                Added::Outermost => return Ok(Some(value)),
                Added::StillOpen => {
                    self.builder.keep()?;
                    return Ok(None);
                }
                Added::Closed(closed) => {
                    match self.builder.close(alloc, &closed) {
                        Ok(made) => value = made,
                        Err(why) => return Err(why),
                    }
                }
            }
        }
    }

    /// Takes bulk strings of few bytes that are at hand, as elements of the innermost aggregate, and
    /// leaves its last; answers how many bytes they take.
    #[inline(always)]
    fn elements(
        &mut self,
        alloc: Global,
        bytes: &[u8],
        counts: &mut Counter,
    ) -> Result<usize, AllocError>
        requires depth { length self.old.open_aggregates ≤ self.old.depth }
        requires no_body { self.old.body ≡ None }
        requires scanned { self.old.scanned ≡ 0 }
        requires builds { B.stands self.old.builder self.old.open_aggregates nothing }
        ensures takes { TakesElements self.old bytes.now self.new result }
        ensures limit { self.new.depth ≡ self.old.depth }
        ensures depth { length self.new.open_aggregates ≤ self.new.depth }
        ensures builds { OnOk result (B.stands self.new.builder self.new.open_aggregates nothing) }
        ensures cost { ElementsCost self.old self.new bytes.now counts.old counts.new result }
    {
        let mut at = 0;
        if self.open_aggregates.len() >= self.depth {
            return Ok(0);
        }
        while self.open_aggregates.lacks_more() {
            let Some((first, after)) = bytes[at..].split_first() else {
                return Ok(at);
            };
            let Some(bulk) = short_bulk(*first, after) else {
                return Ok(at);
            };
            let ShortBulk { len, body } = bulk;
            let taken = len + 3 + (body.len() + 2);
            counts.iterate();
            counts.examine(taken);
            let whole = self.builder.bulk(alloc, body)?;
            counts.iterate();
            self.open_aggregates.add_before_last(&whole);
            self.builder.keep()?;
            at += taken;
        }
        Ok(at)
    }

    /// Goes on until a value is whole or more bytes are needed; answers how many it took.
    pub(crate) fn run(
        &mut self,
        alloc: Global,
        bytes: &[u8],
        counts: &mut Counter,
    ) -> Result<(usize, Option<SeenValue>), ReadError>
        requires depth { length self.old.open_aggregates ≤ self.old.depth }
        requires scanned { IsScanned self.old.body self.old.scanned bytes.now }
        requires builds { B.stands self.old.builder self.old.open_aggregates
            (progress_of self.old.body) }
        ensures runs { Runs self.old bytes.now self.new result }
        ensures limit { self.new.depth ≡ self.old.depth }
        ensures depth { length self.new.open_aggregates ≤ self.new.depth }
        ensures builds { RunBuilds B.stands self.new result }
        ensures built_within { RunBuiltWithin self.old self.new result }
        ensures cost { RunCost self.old self.new bytes.now counts.old counts.new result }
    {
        let mut at = 0;
        while at < bytes.len() {
            match self.step(alloc, &bytes[at..], counts) {
                Ok(Step::Waits(taken)) => return Ok((at + taken, None)),
                Ok(Step::Goes(taken)) => at += taken,
                Ok(Step::Whole(taken, whole)) => {
                    at += taken;
                    match self.attach(alloc, whole, counts) {
                        Ok(Some(whole)) => return Ok((at, Some(whole))),
                        Ok(None) => at += self.elements(alloc, &bytes[at..], counts)?,
                        Err(why) => return Err(self.record_fault(why, at)),
                    }
                }
                Err(ReadError::Memory) => return Err(ReadError::Memory),
                Err(ReadError::Fault(fault)) => {
                    let shown = at + self.shown;
                    return Err(self.record_fault(ReadError::Fault(fault), shown));
                }
            }
        }
        Ok((at, None))
    }

    /// Whether no value can be read before more bytes come, as the last byte shows: there is none, or
    /// it alone has come to a line that it doesn't end, and is then looked at. Else nothing is done. So a
    /// line that comes byte by byte is looked at without a step.
    #[inline(always)]
    pub(crate) fn looks_on(&mut self, bytes: &[u8], counts: &mut Counter) -> bool
        requires depth { length self.old.open_aggregates ≤ self.old.depth }
        requires scanned { IsScanned self.old.body self.old.scanned bytes.now }
        ensures waits { result ≡ true → Waits self.old bytes.now self.new 0 }
        ensures spent { result ≡ true → Spent self.old self.new counts.old counts.new 0 }
        ensures looked { self.new ≡ record self.old { scanned = self.new.scanned } }
        ensures nothing { result ≡ false → (self.new ≡ self.old) × (counts.new ≡ counts.old) }
    {
        let Some((first, after)) = bytes.split_first() else {
            return true;
        };
        if self.body.is_some() || after.len() != self.scanned || bytes[after.len()] == b'\n' {
            return false;
        }
        if self.open_aggregates.len() >= self.depth {
            return false;
        }
        let Some(_) = TypeByte::from_byte(*first) else {
            return false;
        };
        counts.look();
        counts.examine(1);
        self.scanned = bytes.len();
        true
    }

    /// A whole value of few bytes at the start, where nothing is in progress, with how many bytes spell
    /// it. None too where there is no memory for it.
    #[inline(always)]
    pub(crate) fn scalar(&self, alloc: Global, bytes: &[u8]) -> Option<(usize, Value)>
        requires level { 0 < self.now.depth }
        requires fresh { fresh_of self.now.body self.now.open_aggregates ≡ true }
        requires unlooked { self.now.scanned ≡ 0 }
        ensures completes { IfSome result (λ p.
            Completes self.now bytes.now self.now p.0 p.1) }
        ensures some { IfSome result (λ p. 3 ≤ p.0) }
    {
        let (first, after) = bytes.split_first()?;
        match TypeByte::from_byte(*first)? {
            TypeByte::SimpleString if after.starts_with(b"OK\r\n") => Some((5, Value::Okay)),
            TypeByte::Integer => {
                let line = short_line(after)?;
                let n = line.number?;
                Some((line.len + 3, Value::Int(n as i64)))
            }
            TypeByte::BulkString => {
                let bulk = short_bulk(*first, after)?;
                let Ok(body) = Bytes::from_slice(alloc, bulk.body) else {
                    return None;
                };
                Some((
                    bulk.len + 3 + (bulk.body.len() + 2),
                    Value::BulkString(body),
                ))
            }
            _ => None,
        }
    }

    /// Goes on as [`Machine::run`] does, and hands out a value that is whole.
    #[inline(always)]
    pub(crate) fn read(
        &mut self,
        alloc: Global,
        bytes: &[u8],
        counts: &mut Counter,
        out: &mut B::Reply,
    ) -> Result<(usize, bool), ReadError>
        requires depth { length self.old.open_aggregates ≤ self.old.depth }
        requires scanned { IsScanned self.old.body self.old.scanned bytes.now }
        requires builds { B.stands self.old.builder self.old.open_aggregates
            (progress_of self.old.body) }
        ensures reads { ReadsInto B.shows self.old bytes.now self.new out.old out.new result }
        ensures limit { self.new.depth ≡ self.old.depth }
        ensures depth { length self.new.open_aggregates ≤ self.new.depth }
        ensures builds { OnOk result (B.stands self.new.builder self.new.open_aggregates
            (progress_of self.new.body)) }
        ensures built_within { ReadBuiltWithin self.old self.new result }
        ensures cost { RunCost self.old self.new bytes.now counts.old counts.new result }
    {
        let (taken, whole) = self.run(alloc, bytes, counts)?;
        if whole.is_none() {
            return Ok((taken, false));
        }
        self.builder.put(out);
        Ok((taken, true))
    }
}
