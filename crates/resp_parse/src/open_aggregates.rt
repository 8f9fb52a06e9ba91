//! The aggregates whose headers were read and whose elements aren't all there.

ghost use Rattle.std.specs.Prelude.{◌≡◌, ◌∷◌, ◌≤◌, ◌+◌, [], length, true, OnOk};
ghost use Rattle.resp_parse.specs.OpenAggregates.{Adds, KeptIn, ClosesInnermost, lacks_more};

use crate::seen::{SeenValue, SeenValues};
use crate::shape::ElementsKind;
use std::alloc::{AllocError, Global};
use std::marker::Model;
use std::mem;

/// An aggregate of which an element is in progress.
#[derive(Drop)]
pub(crate) struct OpenAggregate {
    pub(crate) kind: ElementsKind,
    /// How many elements or pairs were announced.
    pub(crate) size: usize,
    /// How many elements come after the one in progress.
    pub(crate) after: usize,
    /// Which elements it has; contracts alone see them.
    pub(crate) seen: SeenValues,
}

/// What became of a value that was put in the innermost aggregate.
#[derive(Drop)]
pub(crate) enum Added {
    /// No aggregate is open.
    Outermost,
    /// The aggregate lacks more elements.
    StillOpen,
    /// The aggregate has all its elements and is no longer open.
    Closed(OpenAggregate),
}

/// The open aggregates; contracts see the innermost first.
#[derive(Drop)]
pub(crate) struct OpenAggregates {
    /// How many aggregates are open.
    len: usize,
    /// The innermost, where one is open.
    kind: ElementsKind,
    size: usize,
    after: usize,
    seen: SeenValues,
    /// The others, the outermost first.
    outer: Vec<OpenAggregate>,
}

impl Model for OpenAggregates {
    ghost use Rattle.std.specs.Prelude.{List};
    ghost use Rattle.resp_parse.specs.declared.open_aggregates.OpenAggregate.{OpenAggregate};
    ghost use Rattle.resp_value.specs.contracts.value.Value as value;
    ghost use Rattle.std.specs.Coded.{codes};
    ghost use Rattle.resp_parse.specs.OpenAggregates.{innermost_first, IsLength};

    ghost Value = { List OpenAggregate };

    ghost coded = { Prim.hlevel (codes, value.the_row.coded) };

    ghost view = { λ s. innermost_first s.len (record {
      kind = s.kind;
      size = s.size;
      after = s.after;
      seen = s.seen;
    }) s.outer.items };

    ghost invariant = { λ s. IsLength s.len s.outer.items };
}

impl OpenAggregates {
    /// No aggregates. Takes no memory.
    pub(crate) fn new(alloc: Global) -> OpenAggregates
        ensures { result ≡ [] }
    {
        OpenAggregates {
            len: 0,
            kind: ElementsKind::Array,
            size: 0,
            after: 0,
            seen: SeenValues::new(),
            outer: Vec::new(alloc),
        }
    }

    /// How many aggregates are open.
    pub(crate) fn len(&self) -> usize
        ensures { result ≡ length self.now }
    {
        self.len
    }

    /// Opens an aggregate inside the others.
    #[inline(always)]
    pub(crate) fn push(&mut self, aggregate: OpenAggregate) -> Result<(), AllocError>
        ensures ok { OnOk result (self.new ≡ aggregate ∷ self.old) }
        ensures most { length self.new ≤ length self.old + 1 }
    {
        let OpenAggregate {
            kind,
            size,
            after,
            seen,
        } = aggregate;
        let outer_seen = mem::replace(&mut self.seen, seen);
        if self.len > 0 {
            self.outer.reserve(1)?;
            self.outer.push_reserved(OpenAggregate {
                kind: self.kind,
                size: self.size,
                after: self.after,
                seen: outer_seen,
            });
        }
        self.len += 1;
        self.kind = kind;
        self.size = size;
        self.after = after;
        Ok(())
    }

    /// Whether the innermost aggregate lacks more elements than the one in progress.
    #[inline(always)]
    pub(crate) fn lacks_more(&self) -> bool
        ensures { result ≡ lacks_more self.now }
    {
        self.len > 0 && self.after > 0
    }

    /// Counts a value as an element of the innermost aggregate, and not as its last.
    #[inline(always)]
    pub(crate) fn add_before_last(&mut self, value: &SeenValue)
        requires more { lacks_more self.old ≡ true }
        ensures kept { KeptIn self.old value.now self.new }
        ensures as_many { length self.new ≡ length self.old }
    {
        self.seen.push(value);
        self.after -= 1;
    }

    /// Counts a value as an element of the innermost aggregate, which is closed where it then has
    /// all its elements.
    pub(crate) fn add(&mut self, value: &SeenValue) -> Added
        ensures adds { Adds self.old value.now self.new result }
        ensures fewer { length self.new ≤ length self.old }
    {
        if self.len == 0 {
            return Added::Outermost;
        }
        self.seen.push(value);
        if self.after > 0 {
            self.after -= 1;
            return Added::StillOpen;
        }
        Added::Closed(self.close())
    }

    /// Closes the innermost aggregate.
    fn close(&mut self) -> OpenAggregate
        ensures { ClosesInnermost self.old self.new result }
    {
        let closed = OpenAggregate {
            kind: self.kind,
            size: self.size,
            after: self.after,
            seen: mem::replace(&mut self.seen, SeenValues::new()),
        };
        if let Some(outer) = self.outer.pop() {
            let OpenAggregate {
                kind,
                size,
                after,
                seen,
            } = outer;
            self.kind = kind;
            self.size = size;
            self.after = after;
            self.seen = seen;
        }
        self.len = self.len.saturating_sub(1);
        closed
    }
}
