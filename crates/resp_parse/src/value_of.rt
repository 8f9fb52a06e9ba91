//! Values from the texts, bodies and elements that spell them.

ghost use Rattle.std.specs.Prelude.{◌≡◌, [], IfOk, string_bytes};
ghost use Rattle.resp_value.specs.declared.value.Value.TheVariants as value;
ghost use Rattle.resp_errors.specs.ServerErrors.{server_error};
ghost use Rattle.resp_parse.specs.Grammar.{simple, bulk_error, verbatim};
ghost use Rattle.resp_parse.specs.Grammar.{push_kind, push, empty_push};
ghost use Rattle.resp_parse.specs.Double.{double_in};
ghost use Rattle.resp_parse.specs.Computes.{Computes};

use crate::double::is_double_text;
use crate::read_error::ReadError;
use resp_value::{
    Boxed, FrameFault, Items, PushKind, ServerError, Text, Value, get_push_kind, verbatim_format,
};
use std::alloc::{AllocError, Global};

/// The value of a simple string (RESP, "Simple strings").
pub(crate) fn simple_of(alloc: Global, text: &str) -> Result<Value, AllocError>
    ensures value { IfOk result (λ made. made ≡ simple text.now) }
{
    if text == "OK" {
        return Ok(Value::Okay);
    }
    Ok(Value::SimpleString(Text::from_str(alloc, text)?))
}

/// The value of an error (RESP, "Simple errors").
pub(crate) fn error_of(alloc: Global, text: &str) -> Result<Value, AllocError>
    ensures value { IfOk result (λ made. made ≡ value.ServerError (server_error text.now)) }
{
    match ServerError::from_text(alloc, text) {
        Ok(error) => Ok(Value::ServerError(error)),
        Err(_) => Err(AllocError),
    }
}

/// The value of a double line (RESP3, "Doubles").
#[tactic(auto, unfolding(crate::specs::Double::double_in))]
pub(crate) fn double_of(alloc: Global, text: &str) -> Result<Value, ReadError>
    ensures value { Computes result (double_in text.now) }
{
    let text = text.trim();
    if !is_double_text(text) {
        return Err(ReadError::Fault(FrameFault::NotDouble));
    }
    Ok(Value::Double(Text::from_str(alloc, text)?))
}

/// The value of a bulk error's body (RESP3, "Bulk errors").
pub(crate) fn bulk_error_of(alloc: Global, body: &[u8]) -> Result<Value, AllocError>
    ensures value { IfOk result (λ made. made ≡ bulk_error body.now) }
{
    let text = Text::from_utf8_lossy(alloc, body)?;
    error_of(alloc, text.as_str())
}

/// The value of a verbatim string's body (RESP3, "Verbatim strings").
pub(crate) fn verbatim_of(alloc: Global, body: &[u8]) -> Result<Value, ReadError>
    ensures value { Computes result (verbatim body.now) }
{
    let text = Text::from_utf8_lossy(alloc, body)?;
    match text.as_str().split_once(':') {
        Some((format, text)) => Ok(Value::VerbatimString {
            format: verbatim_format(String::from_str(alloc, format)?),
            text: Text::from_str(alloc, text)?,
        }),
        None => Err(ReadError::Fault(FrameFault::NoVerbatimFormat)),
    }
}

/// The attribute of this data and these pairs (RESP3, "Attributes").
pub(crate) fn attribute_of(
    alloc: Global,
    payload: Value,
    attributes: Items<(Value, Value)>,
) -> Result<Value, AllocError>
    ensures value { IfOk result (λ made. made ≡ value.Attribute payload attributes) }
{
    Ok(Value::Attribute {
        payload: Boxed::new(alloc, payload)?,
        attributes,
    })
}

/// The kind that the first value of a push names, if it names one.
fn kind_from(first: Value) -> Result<Option<PushKind>, AllocError>
    ensures kind { IfOk result (λ kind. kind ≡ push_kind first) }
{
    match first {
        Value::SimpleString(name) => Ok(Some(get_push_kind(name.into_string()))),
        Value::BulkString(name) => match String::from_utf8(name.into_vec()?) {
            Ok(name) => Ok(Some(get_push_kind(name))),
            Err(_) => Ok(None),
        },
        _ => Ok(None),
    }
}

/// The push of these elements: its kind, and then its data (RESP3, "Pushes").
pub(crate) fn push_of(mut elements: Vec<Value>) -> Result<Value, ReadError>
    ensures value { Computes result (push elements.items) }
{
    if elements.is_empty() {
        return Err(ReadError::Fault(FrameFault::BadPushKind));
    }
    match kind_from(elements.remove(0))? {
        Some(kind) => Ok(Value::Push {
            kind,
            payload: elements.into(),
        }),
        None => Err(ReadError::Fault(FrameFault::BadPushKind)),
    }
}

/// A push without a kind and without data.
pub(crate) fn no_push(alloc: Global) -> Value
    ensures value { result ≡ empty_push }
{
    Value::Push {
        kind: get_push_kind(String::new(alloc)),
        payload: Items::new(alloc),
    }
}
