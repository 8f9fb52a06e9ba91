//! Conversions of flat replies, mostly without a tree.

ghost use Rattle.std.specs.Prelude.{◌≡◌, ◌⊎◌, []};
ghost use Rattle.std.specs.Result.{IsErrAnd};
ghost use Rattle.resp_value.specs.declared.value.Value.{Value};
ghost use Rattle.resp_flat.specs.declared.token.TokenKind.{TokenKind};
ghost use Rattle.resp_flat.specs.FlatReplies.{IsFlatOf};
ghost use Rattle.resp_flat.specs.FlatValues.{IsShownIn};
ghost use Rattle.resp_flat.specs.Readable.{IsReadable, IsNoValue};
ghost use Rattle.resp_from.specs.Conversion.{Converts};
ghost use Rattle.resp_from.specs.Replies.{reply_is_empty, RefusesTokens};

use crate::conversion::FromRedisValue;
use resp_flat::FlatReply;
use resp_value::ParsingError;
use std::alloc::Global;

/// The value that a flat reply begins with: tokens behind its own, and their bytes, change nothing.
///
/// Refused with the text `the reply is empty` where there are no tokens, and else as
/// [`FromRedisValue::from_reply`] refuses.
pub fn from_flat_reply<T: FromRedisValue>(
    alloc: Global,
    reply: &FlatReply,
) -> Result<T, ParsingError>
    ensures converts { (v : Value) → IsFlatOf reply.now v → IsReadable 1000 v
        → Converts (T.of_value v) result }
    ensures first { (v : Value) → IsShownIn (reply.now.tokens.items, reply.now.text.items) v
        → IsReadable 1000 v → Converts (T.of_value v) result }
    ensures refused { ((kind : TokenKind) → T.reads_tree kind)
        → IsNoValue 1000 (reply.now.tokens.items, reply.now.text.items)
        → IsErrAnd result (λ e. (e ≡ reply_is_empty) ⊎ RefusesTokens e) }
    ensures empty { reply.now.tokens.items ≡ []
        → IsErrAnd result (λ e. e ≡ reply_is_empty) }
{
    match reply.root() {
        Some(value) => T::from_reply(alloc, value),
        None => Err(ParsingError::from("the reply is empty")),
    }
}
