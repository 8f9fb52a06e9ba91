//! A value that is built as a tree.

ghost use Rattle.std.specs.Prelude.{◌≡◌, ◌∷◌, ◌++◌, [], List, IfOk, OnOk};
ghost use Rattle.resp_parse.specs.Computes.{Computes};
ghost use Rattle.resp_parse.specs.KeptElements.{kept_as};
ghost use Rattle.resp_parse.specs.Shapes.{body_value};
ghost use Rattle.resp_parse.specs.TreeBuilders.{HoldsElements, HoldsWhole};
ghost use Rattle.resp_parse.specs.declared.open_aggregates.OpenAggregate.{OpenAggregate};

use crate::body::Body;
use crate::builder::Builder;
use crate::elements::{Elements, Waits};
use crate::open_aggregates::OpenAggregate;
use crate::read_error::ReadError;
use crate::seen::SeenValue;
use crate::shape::{BodyKind, ElementsKind};
use crate::value_of::simple_of;
use resp_value::{Bytes, Items, Value};
use std::alloc::{AllocError, Global};
use std::mem;

/// Room for elements: for no more than are announced, than the bytes at hand can spell or four, as
/// many as a `Vec` takes room for when it grows from nothing, and 128.
fn room_for(
    alloc: Global,
    kind: ElementsKind,
    count: usize,
    at_hand: usize,
) -> Result<Elements, AllocError>
    ensures { IfOk result (λ room. room ≡ kept_as kind []) }
{
    let room = if count <= 4 {
        count
    } else {
        count.min((at_hand / 3).max(4)).min(128)
    };
    match kind {
        ElementsKind::Map | ElementsKind::Attribute => Ok(Elements::Pairs(
            Items::from(Vec::with_capacity(alloc, (room + 1) / 2)?),
            Waits::Nothing,
        )),
        _ => Ok(Elements::Values(Items::from(Vec::with_capacity(alloc, room)?))),
    }
}

/// Room for the bytes of a body: for no more than are announced, and 64.
fn room_for_bytes(alloc: Global, missing: usize) -> Result<Bytes, AllocError>
    ensures { IfOk result (λ room. room ≡ []) }
{
    Bytes::with_capacity(alloc, missing.min(64))
}

/// Builds a tree.
#[derive(Drop)]
pub(crate) struct TreeBuilder {
    /// The elements so far of the innermost open aggregate, and after them a value that is whole and
    /// not yet kept; where no aggregate is open, that value alone.
    elements: Elements,
    /// Those of the others, the outermost first, after none.
    outer: Vec<Elements>,
    /// The bytes of the body that is open.
    bytes: Bytes,
}

/// The bytes of a body are an error or a verbatim string.
#[inline(never)]
fn text_body(alloc: Global, kind: BodyKind, bytes: Bytes) -> Result<Value, ReadError>
    ensures value { Computes result (body_value kind bytes) }
{
    kind.value(alloc, bytes)
}

impl TreeBuilder {
    /// A value is whole: it stands after the elements so far.
    #[inline(always)]
    #[tactic(auto, using(crate::proofs::TreeLists::appended))]
    fn append(&mut self, value: Value) -> Result<SeenValue, AllocError>
        ensures seen { IfOk result (λ v. v ≡ value) }
        ensures stands { (fs : List OpenAggregate) →
            HoldsElements self.old.outer.items self.old.elements fs →
            OnOk result (HoldsWhole self.new.outer.items self.new.elements fs value) }
    {
        let seen = SeenValue::of(&value);
        self.elements.push(value)?;
        Ok(seen)
    }
}

impl Builder for TreeBuilder {
    ghost use Rattle.std.specs.Prelude.{◌≡◌};
    ghost use Rattle.resp_parse.specs.TreeBuilders.{BuildsTree, values_in, tree-paid_for};

    type Reply = Value;

    ghost stands = { λ b fs p. BuildsTree b.outer.items b.elements b.bytes fs p };

    ghost shows = { λ reply v. reply ≡ v };

    ghost values = { λ b. values_in b.outer.items b.elements };

    ghost tokens = { λ _. 0 };

    fn new(alloc: Global) -> TreeBuilder {
        TreeBuilder {
            elements: Elements::Values(Items::new(alloc)),
            outer: Vec::new(alloc),
            bytes: Bytes::new(alloc),
        }
    }

    #[inline(always)]
    fn leaf(&mut self, value: Value) -> Result<SeenValue, AllocError> {
        self.append(value)
    }

    fn simple(&mut self, alloc: Global, text: &str) -> Result<SeenValue, AllocError> {
        self.append(simple_of(alloc, text)?)
    }

    #[inline(always)]
    fn bulk(&mut self, alloc: Global, bytes: &[u8]) -> Result<SeenValue, AllocError> {
        let bytes = Bytes::from_slice(alloc, bytes)?;
        self.append(Value::BulkString(bytes))
    }

    fn begin_body(&mut self, alloc: Global, missing: usize) -> Result<(), AllocError> {
        self.bytes = room_for_bytes(alloc, missing)?;
        Ok(())
    }

    #[inline(always)]
    fn extend_body(&mut self, part: &[u8]) -> Result<(), AllocError> {
        self.bytes.extend_from_slice(part)
    }

    fn end_body(&mut self, alloc: Global, body: &Body) -> Result<SeenValue, ReadError> {
        let bytes = mem::replace(&mut self.bytes, Bytes::new(alloc));
        match body.kind {
            BodyKind::Bulk => Ok(self.append(Value::BulkString(bytes))?),
            kind => Ok(self.append(text_body(alloc, kind, bytes)?)?),
        }
    }

    fn open(
        &mut self,
        alloc: Global,
        kind: ElementsKind,
        _size: usize,
        after: usize,
        at_hand: usize,
    ) -> Result<(), AllocError> {
        self.outer.reserve(1)?;
        let room = room_for(alloc, kind, after.saturating_add(1), at_hand)?;
        self.outer
            .push_reserved(mem::replace(&mut self.elements, room));
        Ok(())
    }

    fn keep(&mut self) -> Result<(), AllocError> {
        Ok(())
    }

    fn close(&mut self, alloc: Global, closed: &OpenAggregate) -> Result<SeenValue, ReadError> {
        let elements = match self.outer.pop() {
            Some(outer) => mem::replace(&mut self.elements, outer),
            None => mem::replace(&mut self.elements, Elements::Values(Items::new(alloc))),
        };
        // Most aggregates are arrays: their value isn't handed on as a result.
        match closed.kind {
            ElementsKind::Array => Ok(self.append(Value::Array(elements.into_values(alloc)))?),
            kind => Ok(self.append(kind.value(alloc, elements)?)?),
        }
    }

    #[inline(always)]
    fn put(&mut self, out: &mut Value) {
        if let Some(value) = self.elements.pop() {
            *out = value;
        }
    }

    ghost paid_for = { λ b fs body h. tree-paid_for b.outer.items b.elements b.bytes fs body h };
}
