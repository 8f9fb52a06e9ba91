//! Messages: pushes, and the arrays that RESP2 has in their place.

ghost use Rattle.std.specs.Prelude.{◌≡◌, true, false, IfErr, IfOk, MatchOption, MatchResult};
ghost use Rattle.resp_value.specs.declared.value.Value.{Array};
ghost use Rattle.resp_command.specs.NextPush.{CannotBeMessage, IsMessage, NamesMessage, NamesNone};
ghost use Rattle.resp_command.specs.NextPush.{IsServerError, is_message_kind};
ghost use Rattle.resp_command.specs.NextPush.{unasked_reply};
ghost use Rattle.resp_link.specs.Messages.{as_one_result};

use resp_value::{
    ErrorKind, PushInfo, PushKind, RedisError, RedisResult, ServerError, Value, get_push_kind,
};
use std::alloc::AllocError;

/// The message or the server's error that a value is. Any other value answers a request.
pub(crate) fn message_of(value: Value) -> RedisResult<Result<PushInfo, ServerError>>
    ensures message { IfOk result (λ found. MatchResult found (IsMessage value)
        (IsServerError value)) }
    ensures error { IfErr result (CannotBeMessage value) }
{
    match value {
        Value::Push { kind, payload } => Ok(Ok(PushInfo { kind, payload })),
        Value::Array(elements) => message_in(elements.into_vec()).map(Ok),
        Value::ServerError(error) => Ok(Err(error)),
        _ => Err(reply_without_request()),
    }
}

/// A server's error that was read is an error, as one of reading.
pub(crate) fn as_one_result(
    message: RedisResult<Result<PushInfo, ServerError>>,
) -> RedisResult<PushInfo>
    ensures { result ≡ as_one_result message }
{
    match message? {
        Ok(message) => Ok(message),
        Err(error) => Err(RedisError::Server(error)),
    }
}

/// The message that an array is: its first element names the kind.
fn message_in(mut elements: Vec<Value>) -> RedisResult<PushInfo>
    ensures message { IfOk result (IsMessage (Array elements.items)) }
    ensures error { IfErr result (CannotBeMessage (Array elements.items)) }
{
    if elements.is_empty() {
        return Err(reply_without_request());
    }
    match message_kind(elements.remove(0))? {
        Some(kind) => Ok(PushInfo {
            kind,
            payload: elements.into(),
        }),
        None => Err(reply_without_request()),
    }
}

/// The kind of messages that a value names.
fn message_kind(first: Value) -> Result<Option<PushKind>, AllocError>
    ensures { IfOk result (λ found. MatchOption found (NamesNone first) (NamesMessage first)) }
{
    match first {
        Value::BulkString(name) => match String::from_utf8(name.into_vec()?) {
            Ok(name) => Ok(only_message(get_push_kind(name))),
            Err(_) => Ok(None),
        },
        _ => Ok(None),
    }
}

/// The kind, if it is one of messages.
fn only_message(kind: PushKind) -> Option<PushKind>
    ensures { MatchOption result (is_message_kind kind ≡ false)
        (λ same. (same ≡ kind) × (is_message_kind kind ≡ true)) }
{
    match kind {
        PushKind::Disconnection | PushKind::Other(_) | PushKind::Invalidate => None,
        kind => Some(kind),
    }
}

/// What a reply is refused with that nobody asked for.
fn reply_without_request() -> RedisError
    ensures { result ≡ unasked_reply }
{
    RedisError::from((ErrorKind::Io, "reply without a request"))
}
