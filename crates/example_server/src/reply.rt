//! Replies.

ghost use Rattle.std.specs.Prelude.{◌≡◌, IfOk, map, pos};
ghost use Rattle.example_server.specs.Replies.{answer_value, value_of, count_value};
ghost use Rattle.example_server.specs.Replies.{greeting_of, number_of, pair_value};
ghost use Rattle.resp_value.specs.declared.value.Value.{SimpleString, BulkString, Int};

use crate::refusal::Refusal;
use resp_core::{Bytes, Items, ProtocolVersion, RedisResult, Text, Value};
use std::alloc::Global;

/// What a request is answered.
#[derive(Drop)]
pub enum Answer {
    /// The reply to a command.
    Single(Reply),
    /// The command is queued.
    Queued,
    /// The replies to the commands of a transaction.
    Several(Items<Reply>),
}

/// What a command is answered.
#[derive(Drop)]
pub enum Reply {
    /// To `PING`.
    Pong,
    /// What was asked for is done.
    Okay,
    /// The bytes that were asked for, if there are any.
    Found(Option<Bytes>),
    /// How many there are.
    Count(usize),
    /// A number that was counted up.
    Integer(i64),
    /// Fields and their values.
    Fields(Items<(Bytes, Bytes)>),
    /// To `HELLO`: what the server is, in the version that was chosen.
    Greeting(ProtocolVersion),
    /// To `COMMAND`: no commands.
    NoCommands,
    /// To `COMMAND DOCS`: no documents.
    NoDocuments,
    /// Nothing was done.
    Refused(Refusal),
}

impl Answer {
    /// The answer as a value.
    pub fn into_value(self, alloc: Global) -> RedisResult<Value>
        ensures { IfOk result (λ value. value ≡ answer_value self) }
    {
        match self {
            Answer::Single(reply) => reply.into_value(alloc),
            Answer::Queued => simple(alloc, "QUEUED"),
            Answer::Several(replies) => Ok(Value::Array(values_of(alloc, replies.into_vec())?)),
        }
    }
}

impl Reply {
    /// The reply as a value.
    pub fn into_value(self, alloc: Global) -> RedisResult<Value>
        ensures { IfOk result (λ value. value ≡ value_of self) }
    {
        match self {
            Reply::Pong => simple(alloc, "PONG"),
            Reply::Okay => Ok(Value::Okay),
            Reply::Found(Some(bytes)) => Ok(Value::BulkString(bytes)),
            Reply::Found(None) => Ok(Value::Nil),
            Reply::Count(count) => Ok(counted(count)),
            Reply::Integer(number) => Ok(Value::Int(number)),
            Reply::Fields(fields) => Ok(Value::Map(pairs_of(alloc, fields.into_vec())?)),
            Reply::Greeting(version) => greeting(alloc, version),
            Reply::NoCommands => Ok(Value::Array(Items::new(alloc))),
            Reply::NoDocuments => Ok(Value::Map(Items::new(alloc))),
            Reply::Refused(refusal) => refusal.into_value(alloc),
        }
    }
}

/// The replies as values, in order.
fn values_of(alloc: Global, replies: Vec<Reply>) -> RedisResult<Items<Value>>
    ensures { IfOk result (λ values. values ≡ map value_of replies.items) }
{
    let mut values = Items::new(alloc);
    for reply in replies {
        values.push(reply.into_value(alloc)?)?;
    }
    Ok(values)
}

/// A count; the greatest `i64` where it is greater.
fn counted(count: usize) -> Value
    ensures { result ≡ count_value count }
{
    Value::Int(i64::try_from(count).unwrap_or(i64::MAX))
}

/// Fields and their values, as pairs of values.
fn pairs_of(alloc: Global, fields: Vec<(Bytes, Bytes)>) -> RedisResult<Items<(Value, Value)>>
    ensures { IfOk result (λ pairs. pairs ≡ map pair_value fields.items) }
{
    let mut pairs = Items::new(alloc);
    for (field, value) in fields {
        pairs.push((Value::BulkString(field), Value::BulkString(value)))?;
    }
    Ok(pairs)
}

/// What the server is: a map, which a client of RESP2 is sent as an array.
fn greeting(alloc: Global, version: ProtocolVersion) -> RedisResult<Value>
    ensures { IfOk result (λ value. value ≡ greeting_of version) }
{
    let fields = vec![in alloc;
        text_field(alloc, "server", "example_server")?,
        text_field(alloc, "version", "7.0.15")?,
        field(alloc, "proto", number(version))?,
        field(alloc, "id", Value::Int(1))?,
        text_field(alloc, "mode", "standalone")?,
        text_field(alloc, "role", "master")?,
        field(alloc, "modules", Value::Array(Items::new(alloc)))?,
    ]?;
    Ok(Value::Map(Items::from(fields)))
}

/// A field of this name.
fn field(alloc: Global, name: &str, value: Value) -> RedisResult<(Value, Value)>
    ensures { IfOk result (λ pair. pair ≡ (BulkString name.now, value)) }
{
    Ok((bulk(alloc, name)?, value))
}

/// A field that is a text.
fn text_field(alloc: Global, name: &str, text: &str) -> RedisResult<(Value, Value)>
    ensures { IfOk result (λ pair. pair ≡ (BulkString name.now, BulkString text.now)) }
{
    field(alloc, name, bulk(alloc, text)?)
}

/// The number of a version.
fn number(version: ProtocolVersion) -> Value
    ensures { result ≡ Int (pos (number_of version)) }
{
    match version {
        ProtocolVersion::RESP2 => Value::Int(2),
        ProtocolVersion::RESP3 => Value::Int(3),
    }
}

fn simple(alloc: Global, text: &str) -> RedisResult<Value>
    ensures { IfOk result (λ value. value ≡ SimpleString text.now) }
{
    Ok(Value::SimpleString(Text::from_str(alloc, text)?))
}

fn bulk(alloc: Global, text: &str) -> RedisResult<Value>
    ensures { IfOk result (λ value. value ≡ BulkString text.now) }
{
    Ok(Value::BulkString(Bytes::from_slice(alloc, text.as_bytes())?))
}
