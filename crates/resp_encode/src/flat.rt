//! The bytes of replies that stand as tokens and a text.

ghost use Rattle.std.specs.Prelude.{◌≡◌, ◌-◌, ℕ, suc, Some, OnOk, OnErr, IfErr};
ghost use Rattle.std.specs.Fmt.{◌++?◌};
ghost use Rattle.resp_value.specs.declared.value.Value.{Value, BulkString};
ghost use Rattle.resp_parse.specs.Limits.{usual};
ghost use Rattle.resp_flat.specs.FlatReplies.{IsFlatOf};
ghost use Rattle.resp_flat.specs.Readable.{IsReadable};
ghost use Rattle.resp_flat.specs.Reading.{made_of, next_value, after_token, next_push};
ghost use Rattle.resp_encode.specs.FlatEncoding.{flat_encoding, spelled_in, counted_in, set_count};
ghost use Rattle.resp_encode.specs.FlatEncoding.{map_count, push_head, spelled, values_in, pairs_in};
ghost use Rattle.resp_encode.specs.FlatEncoding.{attributes_in, next_in, both, AppendsRead};
ghost use Rattle.resp_encode.specs.Appending.{AppendsText, counted};
ghost use Rattle.resp_encode.specs.Encodings.{encoding_in, RefusesValue};

use crate::leaves::{Sent, write_bool, write_int, write_leaf, write_nil, write_ok};
use crate::lines::{write_length, write_line};
use crate::tokens::{Place, Tokens};
use crate::values::{refusal, write_name};
use crate::write_error::WriteError;
use resp_args::ProtocolVersion;
use resp_errors::RedisResult;
use resp_flat::{FlatReply, Token, TokenKind};
use resp_parse::Limits;

/// Appends the bytes that a server sends for a reply, as [`encode`](crate::encode) does for a value,
/// of which no tree is made.
///
/// A reply that a parser made has up to 100 levels, unless the parser reads deeper ones: what it was
/// made of is sent in RESP3, and in RESP2 its form. Of any other, texts must be UTF-8, and errors,
/// formats and kinds those that their texts are read as (`IsReadable`).
///
/// Refused with kind `Client` where the tokens and the text are no such value's or no bytes spell the
/// value, and else only with `OutOfMemory`. A refused call leaves the bytes as they were.
pub fn encode_reply(
    reply: &FlatReply,
    protocol: ProtocolVersion,
    out: &mut Vec<u8>,
) -> RedisResult<()>
    ensures appended { (v : Value) → IsFlatOf reply.now v → IsReadable usual.depth v
        → OnOk result ((Some out.old.items ++? encoding_in protocol usual.depth v)
        ≡ Some out.new.items) }
    ensures refused { (v : Value) → IsFlatOf reply.now v → IsReadable usual.depth v
        → IfErr result (RefusesValue (encoding_in protocol usual.depth v)) }
    ensures unchanged { OnErr result (out.new.items ≡ out.old.items) }
    ensures value { OnOk result ((v : Value) × (IsFlatOf reply.now v × IsReadable usual.depth v)) }
{
    let tokens = reply.tokens.as_slice();
    let depth = Limits::default().depth;
    encode_tokens(tokens, reply.text.as_slice(), protocol, depth, out)
}

/// As [`encode_reply`], of tokens that may stand anywhere, up to so many levels of values inside
/// values, the outermost being the first.
///
/// The bytes are those for the value of these tokens and this text, all of them
/// ([`law_of_flat_encoding`](crate::laws::law_of_flat_encoding)). In RESP2 the pairs of an attribute,
/// which aren't sent, have levels too.
#[tactic(auto, unfolding(crate::specs::Appending::AppendsText))]
pub fn encode_tokens<T: Tokens>(
    tokens: T,
    text: &[u8],
    protocol: ProtocolVersion,
    depth: usize,
    out: &mut Vec<u8>,
) -> RedisResult<()>
    ensures appended { OnOk result ((Some out.old.items
        ++? flat_encoding protocol depth (T.left tokens) text.now) ≡ Some out.new.items) }
    ensures refused { IfErr result
        (RefusesValue (flat_encoding protocol depth (T.left tokens) text.now)) }
    ensures unchanged { OnErr result (out.new.items ≡ out.old.items) }
{
    let before = out.len();
    match write_whole(out, tokens, text, protocol, depth) {
        Ok(()) => Ok(()),
        Err(error) => {
            out.truncate(before);
            Err(refusal(error))
        }
    }
}

/// Appends a reply, if there are bytes for it.
fn write_whole<T: Tokens>(
    out: &mut Vec<u8>,
    tokens: T,
    text: &[u8],
    protocol: ProtocolVersion,
    depth: usize,
) -> Result<(), WriteError>
    ensures { AppendsText result (flat_encoding protocol depth (T.left tokens) text.now)
        out.old.items out.new.items }
{
    let mut place = Place { tokens, at: 0 };
    let reply = FlatText {
        text,
        sent: Some(protocol),
    };
    reply.write_next(out, &mut place, depth)?;
    if place.at != text.len() {
        return Err(WriteError::NoSpelling);
    }
    match place.tokens.next_token() {
        Some(_) => Err(WriteError::NoSpelling),
        None => Ok(()),
    }
}

/// The text of a reply, and in which version its values are sent.
#[derive(Clone, Copy)]
struct FlatText<'a> {
    text: &'a [u8],
    sent: Sent,
}

impl FlatText<'_> {
    /// Appends the next value.
    #[cycle(write_flat)]
    fn write_next<T: Tokens>(
        &self,
        out: &mut Vec<u8>,
        place: &mut Place<T>,
        levels: usize,
    ) -> Result<(), WriteError>
        ensures { AppendsRead result (spelled (spelled_in self.now.sent levels)
            (next_value self.now.text.now levels (T.left place.old.tokens) place.old.at))
            out.old.items out.new.items (T.left place.new.tokens) place.new.at }
    {
        if levels == 0 {
            return Err(WriteError::NoSpelling);
        }
        let token = place.token()?;
        self.write_token(out, place, token, levels - 1)
    }

    /// Appends the value that a token begins.
    #[cycle(write_flat)]
    fn write_token<T: Tokens>(
        &self,
        out: &mut Vec<u8>,
        place: &mut Place<T>,
        token: Token,
        levels: usize,
    ) -> Result<(), WriteError>
        ensures { AppendsRead result (spelled (spelled_in self.now.sent (suc levels))
            (after_token (next_value self.now.text.now levels) self.now.text.now
            token.kind token.size token.number (T.left place.old.tokens) place.old.at))
            out.old.items out.new.items (T.left place.new.tokens) place.new.at }
    {
        match token.kind {
            TokenKind::Nil => write_nil(out, self.sent),
            TokenKind::Okay => write_ok(out, self.sent),
            TokenKind::Int => write_int(out, self.sent, token.number),
            TokenKind::Boolean => write_bool(out, self.sent, token.number == 1),
            TokenKind::Array => self.write_array(out, place, b'*', token.size, levels),
            TokenKind::Set => {
                self.write_array(out, place, set_mark(self.sent), token.size, levels)
            }
            TokenKind::Map => self.write_map(out, place, token.size, levels),
            TokenKind::Attribute => self.write_attribute(out, place, token.size, levels),
            TokenKind::Push => self.write_push(out, place, token.size.saturating_sub(1), levels),
            _ => {
                let bytes = place.bytes(self.text, token.size)?;
                write_leaf(out, self.sent, token.kind, bytes)
            }
        }
    }

    /// Appends the line of a count, where values are sent, and as many values.
    #[cycle(write_flat)]
    fn write_array<T: Tokens>(
        &self,
        out: &mut Vec<u8>,
        place: &mut Place<T>,
        mark: u8,
        size: usize,
        levels: usize,
    ) -> Result<(), WriteError>
        ensures { AppendsRead result (both
            (made_of (counted_in self.now.sent mark size) (T.left place.old.tokens) place.old.at)
            (values_in self.now.sent levels self.now.text.now size))
            out.old.items out.new.items (T.left place.new.tokens) place.new.at }
    {
        write_count(out, self.sent, mark, size)?;
        self.write_values(out, place, size, levels)
    }

    /// Appends a map, in RESP2 as an array.
    #[cycle(write_flat)]
    fn write_map<T: Tokens>(
        &self,
        out: &mut Vec<u8>,
        place: &mut Place<T>,
        size: usize,
        levels: usize,
    ) -> Result<(), WriteError>
        ensures { AppendsRead result (both
            (made_of (map_count self.now.sent size) (T.left place.old.tokens) place.old.at)
            (pairs_in self.now.sent levels self.now.text.now size))
            out.old.items out.new.items (T.left place.new.tokens) place.new.at }
    {
        write_map_count(out, self.sent, size)?;
        self.write_pairs(out, place, size, levels)
    }

    /// Appends an attribute, in RESP2 its data alone.
    #[cycle(write_flat)]
    fn write_attribute<T: Tokens>(
        &self,
        out: &mut Vec<u8>,
        place: &mut Place<T>,
        size: usize,
        levels: usize,
    ) -> Result<(), WriteError>
        ensures { AppendsRead result (both
            (attributes_in self.now.sent levels self.now.text.now size (T.left place.old.tokens) place.old.at)
            (next_in self.now.sent levels self.now.text.now))
            out.old.items out.new.items (T.left place.new.tokens) place.new.at }
    {
        self.write_attributes(out, place, size, levels)?;
        self.write_next(out, place, levels)
    }

    /// Appends the pairs of an attribute, which only RESP3 has.
    #[cycle(write_flat)]
    fn write_attributes<T: Tokens>(
        &self,
        out: &mut Vec<u8>,
        place: &mut Place<T>,
        size: usize,
        levels: usize,
    ) -> Result<(), WriteError>
        ensures { AppendsRead result
            (attributes_in self.now.sent levels self.now.text.now size (T.left place.old.tokens) place.old.at)
            out.old.items out.new.items (T.left place.new.tokens) place.new.at }
    {
        let Some(ProtocolVersion::RESP3) = self.sent else {
            let unsent = FlatText {
                text: self.text,
                sent: None,
            };
            return unsent.write_pairs(out, place, size, levels);
        };
        write_length(out, b'|', size)?;
        self.write_pairs(out, place, size, levels)
    }

    /// Appends a push of so many values after its name, in RESP2 as an array.
    #[cycle(write_flat)]
    fn write_push<T: Tokens>(
        &self,
        out: &mut Vec<u8>,
        place: &mut Place<T>,
        payload: usize,
        levels: usize,
    ) -> Result<(), WriteError>
        ensures { AppendsRead result (spelled (spelled_in self.now.sent (suc levels))
            (next_push (next_value self.now.text.now levels) self.now.text.now payload
            (T.left place.old.tokens) place.old.at))
            out.old.items out.new.items (T.left place.new.tokens) place.new.at }
    {
        let name = place.name(self.text)?;
        write_push_head(out, self.sent, name, payload, levels)?;
        self.write_values(out, place, payload, levels)
    }

    /// Appends as many keys and values.
    #[cycle(write_flat)]
    fn write_pairs<T: Tokens>(
        &self,
        out: &mut Vec<u8>,
        place: &mut Place<T>,
        size: usize,
        levels: usize,
    ) -> Result<(), WriteError>
        ensures { AppendsRead result (pairs_in self.now.sent levels self.now.text.now size
            (T.left place.old.tokens) place.old.at)
            out.old.items out.new.items (T.left place.new.tokens) place.new.at }
    {
        self.write_values(out, place, size, levels)?;
        self.write_values(out, place, size, levels)
    }

    /// Appends as many values.
    #[cycle(write_flat)]
    fn write_values<T: Tokens>(
        &self,
        out: &mut Vec<u8>,
        place: &mut Place<T>,
        count: usize,
        levels: usize,
    ) -> Result<(), WriteError>
        ensures { AppendsRead result (values_in self.now.sent levels self.now.text.now count
            (T.left place.old.tokens) place.old.at)
            out.old.items out.new.items (T.left place.new.tokens) place.new.at }
    {
        for _ in 0..count {
            self.write_next(out, place, levels)?;
        }
        Ok(())
    }
}

/// The byte of a set's line.
fn set_mark(sent: Sent) -> u8
    ensures { (n : ℕ) → set_count sent n ≡ counted_in sent result n }
{
    match sent {
        Some(ProtocolVersion::RESP2) => b'*',
        Some(ProtocolVersion::RESP3) => b'~',
        None => b'*',
    }
}

/// Appends the line of a count, where values are sent.
fn write_count(out: &mut Vec<u8>, sent: Sent, mark: u8, size: usize) -> Result<(), WriteError>
    ensures { AppendsText result (counted_in sent mark size) out.old.items out.new.items }
{
    match sent {
        Some(_) => write_length(out, mark, size),
        None => Ok(()),
    }
}

/// Appends the line of how many pairs a map has, in RESP2 of how many keys and values.
fn write_map_count(out: &mut Vec<u8>, sent: Sent, size: usize) -> Result<(), WriteError>
    ensures { AppendsText result (map_count sent size) out.old.items out.new.items }
{
    match sent {
        Some(ProtocolVersion::RESP2) => match size.checked_mul(2) {
            Some(count) => write_length(out, b'*', count),
            None => Err(WriteError::NoSpelling),
        },
        Some(ProtocolVersion::RESP3) => write_length(out, b'%', size),
        None => Ok(()),
    }
}

/// Appends what a push begins with: in RESP3 the line of 0 where it has no name and no data.
fn write_push_head(
    out: &mut Vec<u8>,
    sent: Sent,
    name: &str,
    payload: usize,
    levels: usize,
) -> Result<(), WriteError>
    ensures { AppendsText result (push_head sent levels name.now payload)
        out.old.items out.new.items }
{
    match sent {
        Some(ProtocolVersion::RESP2) => {
            write_name_of(out, b'*', name, payload, ProtocolVersion::RESP2, levels)
        }
        Some(ProtocolVersion::RESP3) => {
            if name.is_empty() && payload == 0 {
                return write_line(out, b'>', b"0");
            }
            write_name_of(out, b'>', name, payload, ProtocolVersion::RESP3, levels)
        }
        None => Ok(()),
    }
}

/// Appends the line of a count, and a name that so many values come after.
fn write_name_of(
    out: &mut Vec<u8>,
    mark: u8,
    name: &str,
    payload: usize,
    protocol: ProtocolVersion,
    levels: usize,
) -> Result<(), WriteError>
    ensures { AppendsText result (counted mark (suc payload)
        ++? encoding_in protocol levels (BulkString name.now)) out.old.items out.new.items }
{
    let Some(count) = payload.checked_add(1) else {
        return Err(WriteError::NoSpelling);
    };
    write_length(out, mark, count)?;
    write_name(out, name, protocol, levels)
}
