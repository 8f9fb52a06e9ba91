//! Replies as trees.

ghost use Rattle.std.specs.Prelude.{◌≡◌, IfOk, map, is_some, MatchOption, Ok, Err};
ghost use Rattle.resp_value.specs.FirstError.{first_error, first_some, first_of_pairs, or_else};
ghost use Rattle.resp_errors.specs.declared.redis_error.RedisError.TheVariants as form;
ghost use Rattle.resp_value.specs.declared.value.Value.TheVariants as value;

use crate::names::{PushKind, VerbatimFormat};
use resp_containers::{Boxed, Bytes, Items, Text};
use resp_errors::{RedisError, RedisResult, ServerError};
use std::alloc::{AllocError, Global};
use std::fmt;

/// A reply of a server, as a tree.
///
/// Lists are [`Items`] and texts are [`Text`]: small wrappers of `Vec` and `String` whose equality
/// is that of their elements, in code and in contracts.
#[derive(PartialEq, Eq, Drop)]
pub enum Value {
    /// Nothing: a null, or a bulk string or an aggregate of negative length.
    Nil,
    /// The simple string `OK`.
    Okay,
    /// An integer.
    Int(i64),
    /// A line of text.
    SimpleString(Text),
    /// Any bytes.
    BulkString(Bytes),
    /// A list of values.
    Array(Items<Value>),
    /// A list of pairs (RESP3).
    Map(Items<(Value, Value)>),
    /// A value with out-of-band pairs that describe it (RESP3).
    Attribute {
        /// The value that is described.
        payload: Boxed<Value>,
        /// What is said of it.
        attributes: Items<(Value, Value)>,
    },
    /// An error.
    ServerError(ServerError),
    /// A truth value (RESP3).
    Boolean(bool),
    /// A floating point number, as the text that the server sent without white space around it
    /// (RESP3).
    Double(Text),
    /// An integer of any size, as the bytes that the server sent (RESP3).
    BigNumber(Bytes),
    /// A list of values without an order (RESP3).
    Set(Items<Value>),
    /// A text for display, with its format (RESP3).
    VerbatimString {
        /// How the text is to be shown.
        format: VerbatimFormat,
        /// The text after the format and its colon.
        text: Text,
    },
    /// Out-of-band data that no request asked for (RESP3).
    Push {
        /// What it is about.
        kind: PushKind,
        /// The values after the kind.
        payload: Items<Value>,
    },
}

/// A push message that was set aside.
#[derive(PartialEq, Eq, Debug, Drop)]
pub struct PushInfo {
    /// What it is about.
    pub kind: PushKind,
    /// The values after the kind.
    pub payload: Items<Value>,
}

impl PushInfo {
    /// An equal message.
    pub fn try_clone(&self) -> Result<PushInfo, AllocError>
        ensures { IfOk result (λ p. p ≡ self.now) }
    {
        let alloc = self.payload.allocator();
        Ok(PushInfo {
            kind: self.kind.try_clone(alloc)?,
            payload: clone_elements(alloc, &self.payload)?,
        })
    }
}

impl Default for Value {
    ghost is_default = { λ v. v ≡ value.Nil };

    fn default() -> Value {
        Value::Nil
    }
}

impl Value {
    /// An equal value. Fails only with `OutOfMemory`.
    #[cycle(clone)]
    pub fn try_clone(&self, alloc: Global) -> Result<Value, AllocError>
        ensures { IfOk result (λ v. v ≡ self.now) }
    {
        match self {
            Value::Nil => Ok(Value::Nil),
            Value::Okay => Ok(Value::Okay),
            Value::Int(n) => Ok(Value::Int(*n)),
            Value::SimpleString(text) => text.try_clone(alloc).map(Value::SimpleString),
            Value::BulkString(bytes) => {
                Bytes::from_slice(alloc, bytes.as_slice()).map(Value::BulkString)
            }
            Value::Array(elements) => clone_elements(alloc, elements).map(Value::Array),
            Value::Map(pairs) => clone_pairs(alloc, pairs).map(Value::Map),
            Value::Attribute {
                payload,
                attributes,
            } => {
                let payload = Boxed::new(alloc, payload.get().try_clone(alloc)?)?;
                clone_pairs(alloc, attributes).map(|attributes| Value::Attribute {
                    payload,
                    attributes,
                })
            }
            Value::ServerError(error) => error.try_clone(alloc).map(Value::ServerError),
            Value::Boolean(truth) => Ok(Value::Boolean(*truth)),
            Value::Double(text) => text.try_clone(alloc).map(Value::Double),
            Value::BigNumber(bytes) => {
                Bytes::from_slice(alloc, bytes.as_slice()).map(Value::BigNumber)
            }
            Value::Set(elements) => clone_elements(alloc, elements).map(Value::Set),
            Value::VerbatimString { format, text } => {
                let format = format.try_clone(alloc)?;
                text.try_clone(alloc)
                    .map(|text| Value::VerbatimString { format, text })
            }
            Value::Push { kind, payload } => {
                let kind = kind.try_clone(alloc)?;
                clone_elements(alloc, payload).map(|payload| Value::Push { kind, payload })
            }
        }
    }

    /// The value, or the first server error in it.
    ///
    /// The leaves are looked at in order: elements in order, a key before its value, an attribute's
    /// data before its pairs. Takes no memory.
    pub fn extract_error(self) -> RedisResult<Value>
        ensures { MatchOption (first_error self) (result ≡ Ok self) (λ e. result
            ≡ Err (form.Server e)) }
    {
        if self.has_error() {
            match self.into_first_error() {
                Some(error) => Err(RedisError::from(error)),
                None => unreachable!(),
            }
        } else {
            Ok(self)
        }
    }

    #[cycle(look)]
    fn has_error(&self) -> bool
        ensures { result ≡ is_some (first_error self.now) }
    {
        match self {
            Value::ServerError(_) => true,
            Value::Array(elements) | Value::Set(elements) => any_has_error(elements.as_slice()),
            Value::Push { payload, .. } => any_has_error(payload.as_slice()),
            Value::Map(pairs) => any_pair_has_error(pairs.as_slice()),
            Value::Attribute {
                payload,
                attributes,
            } => payload.get().has_error() || any_pair_has_error(attributes.as_slice()),
            _ => false,
        }
    }

    #[cycle(find)]
    fn into_first_error(self) -> Option<ServerError>
        ensures { result ≡ first_error self }
    {
        match self {
            Value::ServerError(error) => Some(error),
            Value::Array(elements) | Value::Set(elements) => first_error_in(elements),
            Value::Push { payload, .. } => first_error_in(payload),
            Value::Map(pairs) => first_error_in_pairs(pairs),
            Value::Attribute {
                payload,
                attributes,
            } => match payload.into_inner().into_first_error() {
                Some(error) => Some(error),
                None => first_error_in_pairs(attributes),
            },
            _ => None,
        }
    }
}

#[cycle(look)]
fn any_has_error(elements: &[Value]) -> bool
    ensures { result ≡ is_some (first_some (map first_error elements.now)) }
{
    for element in elements {
        if element.has_error() {
            return true;
        }
    }
    false
}

#[cycle(look)]
fn any_pair_has_error(pairs: &[(Value, Value)]) -> bool
    ensures { result ≡ is_some (first_of_pairs
        (map (λ p. (first_error p.0, first_error p.1)) pairs.now)) }
{
    for (key, value) in pairs {
        if key.has_error() || value.has_error() {
            return true;
        }
    }
    false
}

#[cycle(find)]
fn first_error_in(elements: Items<Value>) -> Option<ServerError>
    ensures { result ≡ first_some (map first_error elements) }
{
    for element in elements.into_vec() {
        if let Some(error) = element.into_first_error() {
            return Some(error);
        }
    }
    None
}

#[cycle(find)]
fn first_error_in_pairs(pairs: Items<(Value, Value)>) -> Option<ServerError>
    ensures { result ≡ first_of_pairs (map (λ p. (first_error p.0, first_error p.1)) pairs) }
{
    for pair in pairs.into_vec() {
        if let Some(error) = first_error_in_pair(pair) {
            return Some(error);
        }
    }
    None
}

/// The first error of the key, or else that of the value.
#[cycle(find)]
fn first_error_in_pair(pair: (Value, Value)) -> Option<ServerError>
    ensures { result ≡ or_else (first_error pair.0) (first_error pair.1) }
{
    let (key, value) = pair;
    match key.into_first_error() {
        Some(error) => {
            drop(value);
            Some(error)
        }
        None => value.into_first_error(),
    }
}

#[cycle(clone)]
fn clone_elements(alloc: Global, elements: &Items<Value>) -> Result<Items<Value>, AllocError>
    ensures { IfOk result (λ copies. copies ≡ elements.now) }
{
    let mut copies = Items::new(alloc);
    for element in elements.as_slice() {
        copies.push(element.try_clone(alloc)?)?;
    }
    Ok(copies)
}

#[cycle(clone)]
fn clone_pairs(
    alloc: Global,
    pairs: &Items<(Value, Value)>,
) -> Result<Items<(Value, Value)>, AllocError>
    ensures { IfOk result (λ copies. copies ≡ pairs.now) }
{
    let mut copies = Items::new(alloc);
    for (key, value) in pairs.as_slice() {
        let key = key.try_clone(alloc)?;
        let pair = value.try_clone(alloc).map(|value| (key, value))?;
        copies.push(pair)?;
    }
    Ok(copies)
}

impl fmt::Debug for Value {
    fn fmt<W: fmt::Write>(&self, f: &mut fmt::Formatter<W>) -> fmt::Result {
        match self {
            Value::Nil => f.write_str("nil"),
            Value::Okay => f.write_str("ok"),
            Value::Int(n) => write_named(f, "int", n),
            Value::SimpleString(text) => write_named(f, "simple-string", text),
            Value::BulkString(bytes) => write_bulk_string(f, bytes),
            Value::Array(elements) => write_named(f, "array", elements),
            Value::Map(pairs) => write_named(f, "map", pairs),
            Value::Attribute { payload, .. } => write_named(f, "attribute", payload),
            Value::ServerError(error) => write_server_error(f, error),
            Value::Boolean(truth) => write_named(f, "boolean", truth),
            Value::Double(text) => write!(f, "double({text})"),
            Value::BigNumber(bytes) => write_named(f, "big-number", bytes),
            Value::Set(elements) => write_named(f, "set", elements),
            Value::VerbatimString { format, text } => write_verbatim_string(f, format, text),
            Value::Push { kind, payload } => write!(f, "push({kind:?}, {payload:?})"),
        }
    }
}

/// `inner` in parentheses after `name`.
fn write_named<W: fmt::Write, T: fmt::Debug>(
    f: &mut fmt::Formatter<W>,
    name: &str,
    inner: &T,
) -> fmt::Result {
    write!(f, "{name}({inner:?})")
}

/// The bytes of a bulk string, as a text where they are UTF-8.
fn write_bulk_string<W: fmt::Write>(f: &mut fmt::Formatter<W>, bytes: &Bytes) -> fmt::Result {
    match std::str::from_utf8(bytes.as_slice()) {
        Ok(text) => write!(f, "bulk-string('{text:?}')"),
        Err(_) => write_named(f, "binary-data", bytes),
    }
}

/// The format and the text of a verbatim string.
fn write_verbatim_string<W: fmt::Write>(
    f: &mut fmt::Formatter<W>,
    format: &VerbatimFormat,
    text: &Text,
) -> fmt::Result {
    write!(f, "verbatim-string({format:?},{text:?})")
}

fn write_server_error<W: fmt::Write>(
    f: &mut fmt::Formatter<W>,
    error: &ServerError,
) -> fmt::Result {
    let code = error.code();
    match error.details() {
        Some(detail) => write!(f, "Server error: `{code}: {detail}`"),
        None => write!(f, "Server error: `{code}`"),
    }
}
