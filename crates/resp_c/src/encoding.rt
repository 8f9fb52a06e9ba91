//! Replies as bytes.

ghost use Rattle.std.specs.Prelude.{◌≡◌, IfOk, IfErr, IsSome, Some};
ghost use Rattle.resp_encode.specs.FlatEncoding.{flat_encoding};
ghost use Rattle.std.specs.List.{list_all};
ghost use Rattle.resp_c.specs.GivenTokens.{is_known, known_tokens};
ghost use Rattle.resp_c.specs.Packing.{Refuses};
ghost use Rattle.resp_c.specs.Replies.{CanSend, Sends, refusal_status, version_of};

use crate::given_tokens::GivenTokens;
use crate::status::{MEMORY, RANGE};
use crate::token::RespToken;
use resp_args::ProtocolVersion;
use resp_encode::encode_tokens;
use resp_value::RedisError;
use std::alloc::Global;

/// How many levels of values inside values are sent.
const LEVELS: usize = 1000;

/// How many bytes a token's lines rarely exceed, beside its text.
const LINE: usize = 16;

/// The bytes that send the reply of these tokens and this text; or what its caller is told.
pub fn encode(
    alloc: Global,
    tokens: &[RespToken],
    text: &[u8],
    protocol: u32,
) -> Result<Vec<u8>, u32>
    ensures sends { IfOk result (λ v. Sends protocol tokens.now text.now v.items) }
    ensures refused { IfErr result (Refuses (CanSend protocol tokens.now text.now)) }
{
    let Some(version) = version_numbered(protocol) else {
        return Err(RANGE);
    };
    if !are_known(tokens) {
        return Err(RANGE);
    }
    bytes_of(alloc, tokens, text, version)
}

/// Whether the kinds of all these tokens are kinds.
fn are_known(tokens: &[RespToken]) -> bool
    ensures { result ≡ list_all is_known tokens.now }
{
    tokens.iter().all(|token| token.is_known())
}

/// The version of this number, if there is one.
fn version_numbered(number: u32) -> Option<ProtocolVersion>
    ensures { result ≡ version_of number }
{
    match number {
        2 => Some(ProtocolVersion::RESP2),
        3 => Some(ProtocolVersion::RESP3),
        _ => None,
    }
}

/// The bytes that send the reply of these tokens and this text in a version of the protocol.
fn bytes_of(
    alloc: Global,
    tokens: &[RespToken],
    text: &[u8],
    version: ProtocolVersion,
) -> Result<Vec<u8>, u32>
    ensures bytes { IfOk result (λ v. flat_encoding version 1000 (known_tokens tokens.now) text.now
        ≡ Some v.items) }
    ensures refused { IfErr result (Refuses
        (IsSome (flat_encoding version 1000 (known_tokens tokens.now) text.now))) }
{
    let room = tokens.len().saturating_mul(LINE).saturating_add(text.len());
    let Ok(mut bytes) = Vec::with_capacity(alloc, room) else {
        return Err(MEMORY);
    };
    match encode_tokens(GivenTokens { tokens }, text, version, LEVELS, &mut bytes) {
        Ok(()) => Ok(bytes),
        Err(error) => Err(status_of(error)),
    }
}

/// What a refusal is told as: memory that ran out, or a reply that can't be sent.
fn status_of(error: RedisError) -> u32
    ensures { result ≡ refusal_status error }
{
    match error {
        RedisError::OutOfMemory => MEMORY,
        _ => RANGE,
    }
}
