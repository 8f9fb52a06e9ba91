//! What the line of a header announces.

ghost use Rattle.std.specs.Prelude.{◌≡◌, ◌<◌, ◌^◌, ◌∷◌, ◌++◌, ℕ, List, [], IfSome, IfOk, Ok};
ghost use Rattle.resp_value.specs.declared.value.Value.{Value};
ghost use Rattle.resp_parse.specs.Grammar.{announced, complete, boolean_in, with_valid};
ghost use Rattle.resp_parse.specs.Grammar.{or_nil, or_empty_push, body as a_body};
ghost use Rattle.resp_parse.specs.Grammar.{elements as some_elements, push};
ghost use Rattle.resp_parse.specs.KeptElements.{kept_as};
ghost use Rattle.resp_parse.specs.Number.{IsNumeral, integer_in};
ghost use Rattle.resp_parse.specs.Shapes.{Announces, announced_in_line, body_value};
ghost use Rattle.resp_parse.specs.Shapes.{elements_value, line_value, count_of, token_kind, is_small};
ghost use Rattle.resp_parse.specs.Computes.{Computes};

use crate::elements::Elements;
use crate::number::{integer_of, length_of};
use crate::read_error::ReadError;
use crate::type_byte::TypeByte;
use crate::value_of::{
    attribute_of, bulk_error_of, double_of, error_of, no_push, push_of, verbatim_of,
};
use resp_flat::TokenKind;
use resp_value::{Bytes, FrameFault, Items, Value};
use std::alloc::Global;

/// What a body spells.
#[derive(Clone, Copy, Debug)]
pub(crate) enum BodyKind {
    Bulk,
    Error,
    Verbatim,
}

impl BodyKind {
    /// The value of a body.
    pub(crate) fn value(self, alloc: Global, body: Bytes) -> Result<Value, ReadError>
        ensures value { Computes result (body_value self body) }
    {
        match self {
            BodyKind::Bulk => Ok(Value::BulkString(body)),
            BodyKind::Error => Ok(bulk_error_of(alloc, body.as_slice())?),
            BodyKind::Verbatim => verbatim_of(alloc, body.as_slice()),
        }
    }
}

/// What elements spell.
#[derive(Clone, Copy, Debug)]
pub(crate) enum ElementsKind {
    Array,
    Set,
    Map,
    Attribute,
    Push,
}

impl ElementsKind {
    /// How many elements follow where this many elements or pairs are announced.
    pub(crate) fn count(self, size: usize) -> usize
        requires small { size < 2 ^ 63 }
        ensures count { result ≡ count_of self size }
    {
        match self {
            ElementsKind::Map => 2 * size,
            ElementsKind::Attribute => 2 * size + 1,
            _ => size,
        }
    }

    /// The token of an aggregate.
    pub(crate) fn token(self) -> TokenKind
        ensures { result ≡ token_kind self }
    {
        match self {
            ElementsKind::Array => TokenKind::Array,
            ElementsKind::Set => TokenKind::Set,
            ElementsKind::Map => TokenKind::Map,
            ElementsKind::Attribute => TokenKind::Attribute,
            ElementsKind::Push => TokenKind::Push,
        }
    }

    /// The value of no elements.
    pub(crate) fn empty_value(self, alloc: Global) -> Result<Value, ReadError>
        ensures value { Computes result (elements_value self []) }
    {
        match self {
            ElementsKind::Array => Ok(Value::Array(Items::new(alloc))),
            ElementsKind::Set => Ok(Value::Set(Items::new(alloc))),
            ElementsKind::Map => Ok(Value::Map(Items::new(alloc))),
            ElementsKind::Attribute => { Ok(attribute_of(alloc, Value::Nil, Items::new(alloc))?) }
            ElementsKind::Push => Err(ReadError::Fault(FrameFault::BadPushKind)),
        }
    }

    /// The value of the elements.
    pub(crate) fn value(self, alloc: Global, elements: Elements) -> Result<Value, ReadError>
        ensures value { (vs : List Value) → elements ≡ kept_as self vs →
            Computes result (elements_value self vs) }
    {
        match self {
            ElementsKind::Array => Ok(Value::Array(elements.into_values(alloc))),
            ElementsKind::Set => Ok(Value::Set(elements.into_values(alloc))),
            ElementsKind::Map => Ok(Value::Map(elements.into_pairs(alloc))),
            ElementsKind::Attribute => Ok(elements.into_attribute(alloc)?),
            ElementsKind::Push => push_of(elements.into_values(alloc).into_vec()),
        }
    }
}

/// What a text spells that is a whole line.
#[derive(Clone, Copy, Debug)]
pub(crate) enum LineKind {
    Error,
    Double,
    BigNumber,
    EmptyPush,
}

impl LineKind {
    /// The value of the text.
    pub(crate) fn value(self, alloc: Global, text: &str) -> Result<Value, ReadError>
        ensures value { Computes result (line_value self text.now) }
    {
        match self {
            LineKind::Error => Ok(error_of(alloc, text)?),
            LineKind::Double => double_of(alloc, text),
            LineKind::BigNumber => {
                Ok(Value::BigNumber(Bytes::from_slice(alloc, text.as_bytes())?))
            }
            LineKind::EmptyPush => Ok(no_push(alloc)),
        }
    }
}

/// What the line of a header announces.
#[derive(Drop)]
pub(crate) enum Shape<'a> {
    /// Nil is whole.
    Nil,
    /// `OK` is whole.
    Okay,
    /// A boolean is whole.
    Boolean(bool),
    /// An integer is whole.
    Int(i64),
    /// The simple string of this text is whole.
    Simple(&'a str),
    /// The value of this text is whole, if it has one.
    Line(LineKind, &'a str),
    /// A body of n bytes follows.
    Body(BodyKind, usize),
    /// n elements or pairs follow.
    Elements(ElementsKind, usize),
}

/// What a line announces, for a value of this type. `number` is what it writes, where that was read
/// with it.
#[inline(always)]
pub(crate) fn shape_of(
    kind: TypeByte,
    line: &[u8],
    number: Option<u64>,
) -> Result<Shape<'_>, ReadError>
    requires number { IfSome number (IsNumeral line.now) }
    ensures announced { Announces result (announced_in_line kind line.now) }
    ensures small { IfOk result is_small }
{
    if let Some(n) = number {
        if let Some(shape) = shape_of_number(kind, n) {
            return Ok(shape);
        }
    }
    match kind {
        TypeByte::SimpleString if line == b"OK".as_slice() => Ok(Shape::Okay),
        TypeByte::Null if line.is_empty() => Ok(Shape::Nil),
        TypeByte::Boolean if line == b"t".as_slice() => Ok(Shape::Boolean(true)),
        TypeByte::Boolean if line == b"f".as_slice() => Ok(Shape::Boolean(false)),
        _ => shape_of_line(kind, line),
    }
}

/// What a line announces, for a value of this type.
#[inline(never)]
fn shape_of_line(kind: TypeByte, line: &[u8]) -> Result<Shape<'_>, ReadError>
    ensures announced { Announces result (announced_in_line kind line.now) }
    ensures small { IfOk result is_small }
{
    let Ok(text) = std::str::from_utf8(line) else {
        return Err(ReadError::Fault(FrameFault::LineNotUtf8));
    };
    shape_of_text(kind, text)
}

/// What a line of digits alone announces, for an integer, a bulk string, an array, a map or a set.
/// None for other types.
#[inline(always)]
fn shape_of_number(kind: TypeByte, n: u64) -> Option<Shape<'static>>
    requires small { n < 2 ^ 63 }
    ensures announced { (line : List ℕ) → IsNumeral line n →
        IfSome result (λ shape. Announces (Ok shape) (announced kind line)) }
    ensures small { IfSome result is_small }
{
    match kind {
        TypeByte::Integer => Some(Shape::Int(n as i64)),
        TypeByte::BulkString => Some(Shape::Body(BodyKind::Bulk, n as usize)),
        TypeByte::Array => Some(Shape::Elements(ElementsKind::Array, n as usize)),
        TypeByte::Map => Some(Shape::Elements(ElementsKind::Map, n as usize)),
        TypeByte::Set => Some(Shape::Elements(ElementsKind::Set, n as usize)),
        _ => None,
    }
}

/// What the line of this text announces, for a value of this type.
fn shape_of_text(kind: TypeByte, text: &str) -> Result<Shape<'_>, ReadError>
    ensures announced { Announces result (announced kind text.now) }
    ensures small { IfOk result is_small }
{
    match kind {
        TypeByte::SimpleString => Ok(Shape::Simple(text)),
        TypeByte::SimpleError => Ok(Shape::Line(LineKind::Error, text)),
        TypeByte::Integer => Ok(Shape::Int(integer_of(text)?)),
        TypeByte::BulkString => body_or_nil(text, BodyKind::Bulk),
        TypeByte::Array => elements_or_nil(text, ElementsKind::Array),
        TypeByte::Null => Ok(Shape::Nil),
        TypeByte::Boolean => boolean_shape(text),
        TypeByte::Double => Ok(Shape::Line(LineKind::Double, text)),
        TypeByte::BigNumber => Ok(Shape::Line(LineKind::BigNumber, text)),
        TypeByte::BulkError => Ok(Shape::Body(BodyKind::Error, length_of(text)?)),
        TypeByte::VerbatimString => Ok(Shape::Body(BodyKind::Verbatim, length_of(text)?)),
        TypeByte::Map => Ok(Shape::Elements(ElementsKind::Map, length_of(text)?)),
        TypeByte::Attribute => Ok(Shape::Elements(ElementsKind::Attribute, length_of(text)?)),
        TypeByte::Set => elements_or_nil(text, ElementsKind::Set),
        TypeByte::Push => push_shape(text),
    }
}

/// A boolean line (RESP3, "Booleans").
fn boolean_shape(text: &str) -> Result<Shape<'static>, ReadError>
    ensures announced { Announces result (with_valid (boolean_in text.now) complete) }
    ensures small { IfOk result is_small }
{
    match text {
        "t" => Ok(Shape::Boolean(true)),
        "f" => Ok(Shape::Boolean(false)),
        _ => Err(ReadError::Fault(FrameFault::NotBoolean)),
    }
}

fn body_or_nil(text: &str, kind: BodyKind) -> Result<Shape<'static>, ReadError>
    ensures announced { Announces result (with_valid (integer_in text.now)
        (or_nil (λ n. a_body n (body_value kind)))) }
    ensures small { IfOk result is_small }
{
    let len = integer_of(text)?;
    if len < 0 {
        return Ok(Shape::Nil);
    }
    Ok(Shape::Body(kind, len as usize))
}

fn elements_or_nil(text: &str, kind: ElementsKind) -> Result<Shape<'static>, ReadError>
    ensures announced { Announces result (with_valid (integer_in text.now)
        (or_nil (λ n. some_elements (count_of kind n) (elements_value kind)))) }
    ensures small { IfOk result is_small }
{
    let count = integer_of(text)?;
    if count < 0 {
        return Ok(Shape::Nil);
    }
    Ok(Shape::Elements(kind, count as usize))
}

fn push_shape(text: &str) -> Result<Shape<'_>, ReadError>
    ensures announced { Announces result (with_valid (integer_in text.now)
        (or_empty_push (λ n. some_elements n push))) }
    ensures small { IfOk result is_small }
{
    let count = integer_of(text)?;
    if count <= 0 {
        return Ok(Shape::Line(LineKind::EmptyPush, text));
    }
    Ok(Shape::Elements(ElementsKind::Push, count as usize))
}
