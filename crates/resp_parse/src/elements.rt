//! The elements so far of an open aggregate.

ghost use Rattle.std.specs.Prelude.{◌≡◌, ◌-◌, ◌∷◌, ◌++◌, [], List, length, take, Some, OnOk, IfOk};
ghost use Rattle.resp_value.specs.declared.value.Value.{Value};
ghost use Rattle.resp_value.specs.Views.{pairs as pairs_of};
ghost use Rattle.resp_parse.specs.declared.shape.ElementsKind.{ElementsKind};
ghost use Rattle.resp_parse.specs.declared.elements.Elements.TheVariants as kept;
ghost use Rattle.resp_parse.specs.Grammar.{attribute, last_element};
ghost use Rattle.resp_parse.specs.KeptElements.{kept_as, padded, waits_in};

use crate::value_of::attribute_of;
use resp_value::{Items, Value};
use std::alloc::{AllocError, Global};
use std::mem;

/// How many pairs of an attribute are moved to memory of their own size.
const FEW_PAIRS: usize = 128;

/// What waits for an element in pairs.
#[derive(Clone, Copy, Debug)]
pub(crate) enum Waits {
    Nothing,
    /// The last key, beside which nil stands in the place of its value.
    Key,
}

/// The elements so far of an open aggregate, in the form in which its value has them.
#[derive(Drop)]
pub(crate) enum Elements {
    /// Those of an array, a set or a push.
    Values(Items<Value>),
    /// Those of a map or an attribute.
    Pairs(Items<(Value, Value)>, Waits),
}

impl Elements {
    /// One element more.
    #[inline(always)]
    pub(crate) fn push(&mut self, element: Value) -> Result<(), AllocError>
        ensures kept { (kind : ElementsKind) (vs : List Value) → self.old ≡ kept_as kind vs →
            OnOk result (self.new ≡ kept_as kind (vs ++ element ∷ [])) }
    {
        match self {
            Elements::Values(values) => values.push(element),
            Elements::Pairs(pairs, waits) => add(pairs, waits, element),
        }
    }

    /// Takes the last value; none where these are pairs.
    #[inline(always)]
    pub(crate) fn pop(&mut self) -> Option<Value>
        ensures last { (v : Value) → self.old ≡ kept.Values (v ∷ []) →
            (result ≡ Some v) × (self.new ≡ kept.Values []) }
    {
        match self {
            Elements::Values(values) => values.pop(),
            Elements::Pairs(_, _) => None,
        }
    }

    /// The values; none where these are pairs.
    pub(crate) fn into_values(self, alloc: Global) -> Items<Value>
        ensures values { (vs : List Value) → self ≡ kept.Values vs → result ≡ vs }
    {
        match self {
            Elements::Values(values) => values,
            Elements::Pairs(_, _) => Items::new(alloc),
        }
    }

    /// The pairs, but for a key that has no value; none where these are values.
    pub(crate) fn into_pairs(self, alloc: Global) -> Items<(Value, Value)>
        ensures pairs { (vs : List Value) → self ≡ kept.Pairs (padded vs) (waits_in vs) →
            result ≡ pairs_of vs }
    {
        match self {
            Elements::Values(_) => Items::new(alloc),
            Elements::Pairs(mut pairs, waits) => match waits {
                Waits::Key => {
                    drop(pairs.pop());
                    pairs
                }
                Waits::Nothing => pairs,
            },
        }
    }

    /// The attribute of these: pairs, and then its data.
    pub(crate) fn into_attribute(self, alloc: Global) -> Result<Value, AllocError>
        ensures value { (vs : List Value) → self ≡ kept.Pairs (padded vs) (waits_in vs) →
            IfOk result (λ v. v ≡ attribute vs) }
    {
        match self {
            Elements::Values(_) => attribute_of(alloc, Value::Nil, Items::new(alloc)),
            Elements::Pairs(mut pairs, waits) => {
                let data = take_last(&mut pairs, waits);
                attribute_of(alloc, data, fitted(alloc, pairs)?)
            }
        }
    }
}

/// Takes the last of the elements that stand in pairs; nil where there is none. The pairs before it
/// stay, but for a key that has no value.
fn take_last(pairs: &mut Items<(Value, Value)>, waits: Waits) -> Value
    ensures last { (vs : List Value) → pairs.old ≡ padded vs → waits ≡ waits_in vs →
        (result ≡ last_element vs)
        × (pairs.new ≡ pairs_of (take (length vs - 1) vs)) }
{
    match pairs.pop() {
        Some((key, value)) => match waits {
            Waits::Key => key,
            Waits::Nothing => value,
        },
        None => Value::Nil,
    }
}

/// The same pairs: few of them in no more memory than they need, many where they are, so that they
/// never stand in memory twice.
fn fitted(alloc: Global, pairs: Items<(Value, Value)>) -> Result<Items<(Value, Value)>, AllocError>
    ensures same { IfOk result (λ fitted. fitted ≡ pairs) }
{
    if pairs.len() > FEW_PAIRS {
        return Ok(pairs);
    }
    let mut fitted = Vec::with_capacity(alloc, pairs.len())?;
    fitted.append(&mut pairs.into_vec())?;
    Ok(fitted.into())
}

/// One element more in pairs: a key, or the value of the last key.
fn add(
    pairs: &mut Items<(Value, Value)>,
    waits: &mut Waits,
    element: Value,
) -> Result<(), AllocError>
    ensures pairs { (vs : List Value) → pairs.old ≡ padded vs → waits.old ≡ waits_in vs →
        OnOk result ((pairs.new ≡ padded (vs ++ element ∷ []))
        × (waits.new ≡ waits_in (vs ++ element ∷ []))) }
{
    match *waits {
        Waits::Key => {
            *waits = Waits::Nothing;
            set_last_value(pairs, element);
            Ok(())
        }
        Waits::Nothing => {
            *waits = Waits::Key;
            pairs.push((element, Value::Nil))
        }
    }
}

/// Puts a value in the place of that of the last pair.
fn set_last_value(pairs: &mut Items<(Value, Value)>, value: Value)
    ensures { (ps : List (Value × Value)) (key before : Value) →
        pairs.old ≡ ps ++ (key, before) ∷ [] → pairs.new ≡ ps ++ (key, value) ∷ [] }
{
    let none = Items::new(pairs.allocator());
    let mut all = mem::replace(pairs, none).into_vec();
    match all.last_mut() {
        Some(last) => let_go(mem::replace(&mut last.1, value)),
        None => drop(value),
    }
    *pairs = all.into();
}

/// Drops a value, and without a call where it is nil, as what stands beside a key is.
#[inline(always)]
fn let_go(value: Value) {
    match value {
        Value::Nil => {}
        other => drop(other),
    }
}
