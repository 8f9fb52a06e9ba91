//! Texts of replies.

ghost use Rattle.resp_value.specs.declared.value.Value.{out-Value};
ghost use Rattle.resp_value.specs.declared.value.Value.TheOpen.{Value-F};
ghost use Rattle.resp_from.specs.Conversion.{Converts};
ghost use Rattle.std.specs.Prelude.{IfSome};
ghost use Rattle.std.specs.Str.{IsUtf8};
ghost use Rattle.resp_value.specs.declared.value.Value.{Value};
ghost use Rattle.resp_from.specs.Lines.{IsLine};
ghost use Rattle.resp_from.specs.Replies.{ShowsReadable};
ghost use Rattle.resp_from.specs.Texts.{IsText, OfText};

use crate::attributes::strip_attribute;
use crate::conversion::FromRedisValue;
use crate::refusals::refuse;
use crate::reply::Reply;
use itoa::Buffer;
use resp_flat::{FlatValue, TokenKind};
use resp_value::{Bytes, ParsingError, Text, Value};
use std::alloc::Global;

/// The text that the bytes of a bulk string are.
fn utf8_text(bytes: Bytes) -> Result<Text, ParsingError>
    ensures converts { Converts (IsText (Value-F.BulkString bytes)) result }
{
    match String::from_utf8(bytes.into_vec()?) {
        Ok(text) => Ok(Text::from(text)),
        Err(_) => Err(ParsingError::from("Invalid UTF-8")),
    }
}

/// The text of a reply, of which no attribute is removed.
fn plain_text(alloc: Global, value: Value) -> Result<Text, ParsingError>
    ensures converts { Converts (IsText (out-Value value)) result }
{
    match value {
        Value::BulkString(bytes) => utf8_text(bytes),
        Value::SimpleString(text) => Ok(text),
        Value::Okay => Ok(Text::from_str(alloc, "OK")?),
        Value::VerbatimString { text, .. } => Ok(text),
        Value::Int(n) => Ok(Text::from_str(alloc, Buffer::new().format(n))?),
        other => refuse(other, "Response type not string compatible"),
    }
}

/// The text of a reply.
pub(crate) fn text_of(alloc: Global, value: Value) -> Result<Text, ParsingError>
    ensures converts { Converts (OfText value) result }
{
    match value {
        Value::BulkString(bytes) => utf8_text(bytes),
        other => other_text(alloc, other),
    }
}

/// As [`text_of`]; not inlined, so that a bulk string has no other value to drop.
#[inline(never)]
fn other_text(alloc: Global, value: Value) -> Result<Text, ParsingError>
    ensures converts { Converts (OfText value) result }
{
    plain_text(alloc, strip_attribute(value))
}

/// The text of a simple string, or of a bulk string of UTF-8; of any other value, none.
fn line_of<'a>(value: FlatValue<'a>) -> Option<&'a str>
    ensures { (v : Value) → ShowsReadable value.entry v
        → IfSome result (λ text. IsLine (out-Value v) text.now × IsUtf8 text.now) }
{
    match value.kind() {
        TokenKind::SimpleString | TokenKind::BulkString => value.as_str(),
        _ => None,
    }
}

/// The text of the value that a cursor stands at: one line is copied once, from the text of the
/// flat reply.
pub(crate) fn text_of_cursor(alloc: Global, value: FlatValue<'_>) -> Result<Text, ParsingError>
    ensures converts { (v : Value) → ShowsReadable value.entry v → Converts (OfText v) result }
{
    match line_of(value) {
        Some(text) => Ok(Text::from_str(alloc, text)?),
        None => text_of(alloc, Reply::into_value(value, alloc)?),
    }
}

/// A text is a bulk string of UTF-8, a simple string, `OK`, a verbatim text, or an integer in
/// decimal. At most one attribute is removed.
impl FromRedisValue for Text {
    ghost use Rattle.resp_from.specs.Texts.{OfText};

    const WIDTH: usize = 0;

    const BYTES: bool = false;

    ghost of_value = { OfText };

    ghost reads_tree = { λ _. ⊥ };

    fn from_redis_value(alloc: Global, value: Value) -> Result<Text, ParsingError> {
        text_of(alloc, value)
    }

    fn from_reply<R: Reply>(alloc: Global, reply: R) -> Result<Text, ParsingError> {
        reply.into_text(alloc)
    }
}

/// A string is what a [`Text`] is.
impl FromRedisValue for String {
    ghost use Rattle.std.specs.Prelude.{string_bytes};
    ghost use Rattle.resp_from.specs.Texts.{OfText};

    const WIDTH: usize = 0;

    const BYTES: bool = false;

    ghost of_value = { λ reply text. OfText reply (string_bytes text) };

    ghost reads_tree = { λ _. ⊥ };

    fn from_redis_value(alloc: Global, value: Value) -> Result<String, ParsingError> {
        let text = Text::from_redis_value(alloc, value)?;
        Ok(text.into_string())
    }

    fn from_reply<R: Reply>(alloc: Global, reply: R) -> Result<String, ParsingError> {
        let text = Text::from_reply(alloc, reply)?;
        Ok(text.into_string())
    }
}
