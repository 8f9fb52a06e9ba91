//! Values and replies that are sent over a sink.

ghost use Rattle.resp_value.specs.declared.value.Value.{Value};
ghost use Rattle.resp_flat.specs.FlatReplies.{IsFlatOf};
ghost use Rattle.resp_flat.specs.Readable.{IsReadable};
ghost use Rattle.resp_parse.specs.Limits.{usual};
ghost use Rattle.resp_encode.specs.Encodings.{encoding_in};
ghost use Rattle.resp_server.specs.Sending.{SendsValue};

use resp_args::ProtocolVersion;
use resp_encode::{encode, encode_reply};
use resp_flat::FlatReply;
use resp_link::{CommandSink, send_all};
use resp_value::{RedisResult, Value};
use std::alloc::Global;

/// Sends the bytes of a value over a sink, as [`encode`] gives them, and flushes.
///
/// Fails with what `encode` is refused with, and nothing is sent then; and with `Io` where the sink
/// fails, which may have sent a part.
pub fn send_value<K: CommandSink>(
    alloc: Global,
    sink: &mut K,
    value: &Value,
    protocol: ProtocolVersion,
) -> RedisResult<()>
    ensures sends { SendsValue (encoding_in protocol usual.depth value.now) (K.sink sink.old)
        (K.sink sink.new) result }
{
    let mut bytes = Vec::new(alloc);
    encode(value, protocol, &mut bytes)?;
    send_all(sink, bytes.as_slice())?;
    Ok(())
}

/// Sends the bytes of a reply that a parser made, as [`encode_reply`] gives them, and flushes.
///
/// Fails as [`send_value`] does.
pub fn send_reply<K: CommandSink>(
    alloc: Global,
    sink: &mut K,
    reply: &FlatReply,
    protocol: ProtocolVersion,
) -> RedisResult<()>
    ensures sends { (v : Value) → IsFlatOf reply.now v → IsReadable usual.depth v
        → SendsValue (encoding_in protocol usual.depth v) (K.sink sink.old) (K.sink sink.new)
        result }
{
    let mut bytes = Vec::new(alloc);
    encode_reply(reply, protocol, &mut bytes)?;
    send_all(sink, bytes.as_slice())?;
    Ok(())
}
