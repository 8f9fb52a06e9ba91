//! Values in a line.

ghost use Rattle.std.specs.Prelude.{◌≡◌, IfOk};
ghost use Rattle.resp_value.specs.declared.value.Value as value;

use crate::value::Value;
use resp_containers::{Bytes, Items, Text};
use std::alloc::{AllocError, Global};

impl Value {
    /// A bulk string of this text. Fails only with `OutOfMemory`.
    ///
    /// With [`Value::simple_string`] and the conversions from integers, bytes and lists, a reply is
    /// written in a line:
    ///
    /// ```text
    /// let page = vec![in alloc; Value::bulk_string(alloc, cursor)?, Value::from(keys)]?;
    /// Ok(Value::from(page))
    /// ```
    ///
    /// In `crates/example_snippets/src/replies/stored_replies.rt`.
    pub fn bulk_string(alloc: Global, text: &str) -> Result<Value, AllocError>
        ensures { IfOk result (λ v. v ≡ value.BulkString text.now) }
    {
        Ok(Value::BulkString(Bytes::from_slice(alloc, text.as_bytes())?))
    }

    /// A simple string of this text. Fails only with `OutOfMemory`.
    pub fn simple_string(alloc: Global, text: &str) -> Result<Value, AllocError>
        ensures { IfOk result (λ v. v ≡ value.SimpleString text.now) }
    {
        Ok(Value::SimpleString(Text::from_str(alloc, text)?))
    }
}

/// An integer.
impl From<i64> for Value {
    ghost from_gives = { λ n v. v ≡ value.Int n };

    fn from(number: i64) -> Value {
        Value::Int(number)
    }
}

/// A bulk string.
impl From<Vec<u8>> for Value {
    ghost from_gives = { λ bytes v. v ≡ value.BulkString bytes.items };

    fn from(bytes: Vec<u8>) -> Value {
        Value::BulkString(Bytes::from(bytes))
    }
}

/// An array.
impl From<Vec<Value>> for Value {
    ghost from_gives = { λ elements v. v ≡ value.Array elements.items };

    fn from(elements: Vec<Value>) -> Value {
        Value::Array(Items::from(elements))
    }
}
