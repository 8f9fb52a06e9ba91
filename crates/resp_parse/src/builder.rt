//! What is built of a value that is read.

ghost use Rattle.std.specs.Prelude.{◌≡◌, ◌∷◌, ◌+◌, ◌++◌, ℕ, suc, [], List, Option, IfOk, OnOk, MatchResult};
ghost use Rattle.resp_value.specs.declared.value.Value.{Value, BulkString};
ghost use Rattle.resp_parse.specs.declared.body.Body.{Body};
ghost use Rattle.resp_parse.specs.declared.open_aggregates.OpenAggregate.{OpenAggregate};
ghost use Rattle.resp_parse.specs.Building.{Progress, nothing, filling, whole, progress_of};
ghost use Rattle.resp_parse.specs.Building.{BeginsAggregate};
ghost use Rattle.resp_parse.specs.OpenAggregates.{with_element, counted_down};
ghost use Rattle.resp_parse.specs.Grammar.{simple};
ghost use Rattle.resp_parse.specs.Shapes.{body_value, elements_value, count_of};
ghost use Rattle.resp_parse.specs.Computes.{Computes};
ghost use Rattle.resp_parse.specs.Costs.{PaidFor};

use crate::body::Body;
use crate::open_aggregates::OpenAggregate;
use crate::read_error::ReadError;
use crate::seen::SeenValue;
use crate::shape::ElementsKind;
use resp_value::Value;
use std::alloc::{AllocError, Global};

/// What a machine builds of a value, told in events what is read: a leaf; a body begun, extended
/// and ended; an aggregate opened, an element kept in it, and the aggregate closed.
///
/// Where memory runs out, a builder is left as it may be, but by [`Builder::extend_body`].
pub(crate) trait Builder: Drop {
    /// The form in which a value is handed out.
    type Reply: Drop;

    /// What was built is that of these open aggregates and of what is in progress inside them.
    ghost stands: { Self → List OpenAggregate → Progress → Type 0 };

    /// The form shows this value.
    ghost shows: { Self.Reply → Value → Type 0 };

    /// How many values of a tree stand in memory, those inside others too.
    ghost values: { Self → ℕ };

    /// How many tokens of a flat reply do.
    ghost tokens: { Self → ℕ };

    /// Nothing is built. Takes no memory.
    fn new(alloc: Global) -> Self
        ensures stands { stands result [] nothing };

    /// A value that its line spells.
    fn leaf(&mut self, value: Value) -> Result<SeenValue, AllocError>
        ensures seen { IfOk result (λ v. v ≡ value) }
        ensures stands { (fs : List OpenAggregate) → stands self.old fs nothing →
            IfOk result (λ v. stands self.new fs (whole v)) };

    /// The simple string of a text.
    fn simple(&mut self, alloc: Global, text: &str) -> Result<SeenValue, AllocError>
        ensures seen { IfOk result (λ v. v ≡ simple text.now) }
        ensures stands { (fs : List OpenAggregate) → stands self.old fs nothing →
            IfOk result (λ v. stands self.new fs (whole v)) };

    /// The bulk string of these bytes.
    fn bulk(&mut self, alloc: Global, bytes: &[u8]) -> Result<SeenValue, AllocError>
        ensures seen { IfOk result (λ v. v ≡ BulkString bytes.now) }
        ensures stands { (fs : List OpenAggregate) → stands self.old fs nothing →
            IfOk result (λ v. stands self.new fs (whole v)) };

    /// A body of so many bytes begins.
    fn begin_body(&mut self, alloc: Global, missing: usize) -> Result<(), AllocError>
        ensures stands { (fs : List OpenAggregate) → stands self.old fs nothing →
            OnOk result (stands self.new fs (filling [])) };

    /// More bytes of the body; none where memory runs out.
    fn extend_body(&mut self, part: &[u8]) -> Result<(), AllocError>
        ensures stands { (fs : List OpenAggregate) (x : List ℕ) → stands self.old fs (filling x) →
            MatchResult result
            (λ _. stands self.new fs (filling (x ++ part.now)))
            (λ _. stands self.new fs (filling x)) }
        ensures values { values self.new ≡ values self.old }
        ensures tokens { tokens self.new ≡ tokens self.old };

    /// A body is whole.
    fn end_body(&mut self, alloc: Global, body: &Body) -> Result<SeenValue, ReadError>
        ensures value { (fs : List OpenAggregate) → stands self.old fs (filling body.now.seen) →
            Computes result (body_value body.now.kind body.now.seen) }
        ensures stands { (fs : List OpenAggregate) → stands self.old fs (filling body.now.seen) →
            IfOk result (λ v. stands self.new fs (whole v)) };

    /// An aggregate begins, of which so many elements come after the first. `at_hand` bytes are
    /// there.
    fn open(
        &mut self,
        alloc: Global,
        kind: ElementsKind,
        size: usize,
        after: usize,
        at_hand: usize,
    ) -> Result<(), AllocError>
        requires count { count_of kind size ≡ after + 1 }
        ensures stands { (fs : List OpenAggregate) (f : OpenAggregate) →
            BeginsAggregate kind size after f → stands self.old fs nothing →
            OnOk result (stands self.new (f ∷ fs) nothing) };

    /// A value is an element of the innermost aggregate, and not the last.
    fn keep(&mut self) -> Result<(), AllocError>
        ensures stands { (f : OpenAggregate) (fs : List OpenAggregate) (v : Value) (k : ℕ) →
            f.after ≡ suc k → stands self.old (f ∷ fs) (whole v) →
            OnOk result (stands self.new (counted_down k (with_element f v) ∷ fs) nothing) };

    /// A value is the last element of the innermost aggregate, which is closed: what its elements
    /// make.
    fn close(&mut self, alloc: Global, closed: &OpenAggregate) -> Result<SeenValue, ReadError>
        ensures value { (f : OpenAggregate) (fs : List OpenAggregate) (v : Value) →
            f.after ≡ 0 → closed.now ≡ with_element f v → stands self.old (f ∷ fs) (whole v) →
            Computes result (elements_value closed.now.kind closed.now.seen) }
        ensures stands { (f : OpenAggregate) (fs : List OpenAggregate) (v : Value) →
            f.after ≡ 0 → closed.now ≡ with_element f v → stands self.old (f ∷ fs) (whole v) →
            IfOk result (λ all. stands self.new fs (whole all)) };

    /// Hands out a value that stands in no aggregate.
    fn put(&mut self, out: &mut Self::Reply)
        ensures shows { (v : Value) → stands self.old [] (whole v) → shows out.new v }
        ensures stands { (v : Value) → stands self.old [] (whole v) → stands self.new [] nothing };

    /// What stands in memory was paid for by bytes.
    ghost paid_for: { (b : Self) (fs : List OpenAggregate) (body : Option Body) →
        stands b fs (progress_of body) → PaidFor (values b) (tokens b) fs };
}
