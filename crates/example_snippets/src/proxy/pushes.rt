//! Pushes of the server, handed on.

ghost use Rattle.std.specs.Prelude.{◌≡◌, [], IfErr, MatchResult, OnErr, OnOk, Some};
ghost use Rattle.std.specs.Fmt.{◌++?◌};
ghost use Rattle.resp_core.specs.declared.ProtocolVersion.TheVariants.{RESP3};
ghost use Rattle.resp_encode.specs.Encodings.{RefusesValue};
ghost use Rattle.resp_value.specs.declared.value.Value.{Push};
ghost use Rattle.example_snippets.specs.Relayed.{RefusesPushes, sent_for, sent_for_each};
ghost use Rattle.example_snippets.specs.Relayed.{sent_for_pushes};

use resp_core::{
    ByteLink, CommandSink, ConnectionLike, ProtocolVersion, PushInfo, RedisResult, ReplySource,
    Value,
};
use resp_encode::encode;
use std::alloc::Global;

/// Appends what the client is sent for the pushes that a link has set aside, the oldest first: in
/// RESP3 each of them, and in RESP2 nothing. The link has none left, whatever is answered.
///
/// Never fails in RESP2. In RESP3 it fails where a push has no bytes, as one of more than 100
/// levels, which a link with a higher limit reads, or where memory runs out. Nothing is appended
/// then, and the pushes are lost.
pub fn hand_on_pushes<S: ReplySource, K: CommandSink>(
    link: &mut ByteLink<S, K>,
    protocol: ProtocolVersion,
    replies: &mut Vec<u8>,
) -> RedisResult<()>
    ensures handed_on { OnOk result ((Some replies.old.items ++? sent_for_pushes protocol
        (⟦<ByteLink<S, K> as ConnectionLike>⟧.connection link.old).pushes)
        ≡ Some replies.new.items) }
    ensures refused { IfErr result (RefusesPushes protocol
        (⟦<ByteLink<S, K> as ConnectionLike>⟧.connection link.old).pushes) }
    ensures unchanged { OnErr result (replies.new.items ≡ replies.old.items) }
    ensures taken { ⟦<ByteLink<S, K> as ConnectionLike>⟧.connection link.new
        ≡ record (⟦<ByteLink<S, K> as ConnectionLike>⟧.connection link.old)
        { pushes = []; push_bytes = 0 } }
{
    let pushes = link.take_pushes();
    match protocol {
        ProtocolVersion::RESP2 => Ok(()),
        ProtocolVersion::RESP3 => append_pushes(pushes, replies),
    }
}

/// Appends what a client of RESP3 is sent for each push.
fn append_pushes(pushes: Vec<PushInfo>, replies: &mut Vec<u8>) -> RedisResult<()>
    ensures handed_on { OnOk result
        ((Some replies.old.items ++? sent_for_each pushes.items) ≡ Some replies.new.items) }
    ensures refused { IfErr result (RefusesValue (sent_for_each pushes.items)) }
    ensures unchanged { OnErr result (replies.new.items ≡ replies.old.items) }
{
    let bytes = bytes_of(*replies.allocator(), pushes)?;
    replies.extend_from_slice(bytes.as_slice())?;
    Ok(())
}

/// What a client of RESP3 is sent for each push, one after another.
#[tactic(auto, using(crate::proofs::SentPushes::sending))]
fn bytes_of(alloc: Global, pushes: Vec<PushInfo>) -> RedisResult<Vec<u8>>
    ensures { MatchResult result (λ bytes. sent_for_each pushes.items ≡ Some bytes.items)
        (RefusesValue (sent_for_each pushes.items)) }
{
    let mut bytes = Vec::new(alloc);
    for push in pushes {
        append_push(push, &mut bytes)?;
    }
    Ok(bytes)
}

/// Appends what a client of RESP3 is sent for a push.
fn append_push(push: PushInfo, bytes: &mut Vec<u8>) -> RedisResult<()>
    ensures handed_on { OnOk result ((Some bytes.old.items
        ++? sent_for RESP3 (Push push.kind push.payload)) ≡ Some bytes.new.items) }
    ensures refused { IfErr result (RefusesValue (sent_for RESP3 (Push push.kind push.payload))) }
{
    let PushInfo { kind, payload } = push;
    encode(
        &Value::Push { kind, payload },
        ProtocolVersion::RESP3,
        bytes,
    )
}
