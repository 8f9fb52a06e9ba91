//! A value that is built as a flat reply.

ghost use Rattle.std.specs.Prelude.{◌≡◌, ◌++◌, ◌∷◌, ℕ, suc, [], length, take, drop, List, IfOk, IfSome, OnOk};
ghost use Rattle.std.specs.Str.{is_utf8};
ghost use Rattle.resp_value.specs.declared.value.Value.{BulkString};
ghost use Rattle.resp_flat.specs.FlatReplies.{placed, tokens_of, text_of};
ghost use Rattle.resp_parse.specs.declared.open_aggregates.OpenAggregate.{OpenAggregate};
ghost use Rattle.resp_parse.specs.Building.{filling, nothing, whole};
ghost use Rattle.resp_parse.specs.Computes.{Computes};
ghost use Rattle.resp_parse.specs.FlatBuilders.{BuildsFlat, names_kind, with_name};
ghost use Rattle.resp_parse.specs.Shapes.{body_value};

use crate::body::Body;
use crate::builder::Builder;
use crate::open_aggregates::OpenAggregate;
use crate::read_error::ReadError;
use crate::seen::SeenValue;
use crate::shape::{BodyKind, ElementsKind};
use resp_flat::{FlatReply, Token, TokenKind};
use resp_value::{Bytes, FrameFault, Value};
use std::alloc::{AllocError, Global};
use std::mem;

/// Builds a flat reply.
#[derive(Drop)]
pub(crate) struct FlatBuilder {
    reply: FlatReply,
    /// At which places the tokens of the open aggregates stand, the outermost first.
    opens: Vec<usize>,
    /// Where the bytes of the body that is open begin in the text.
    start: usize,
}

impl FlatBuilder {
    /// The tokens and the text of a value, after those before.
    #[inline(never)]
    fn append(&mut self, value: &Value) -> Result<(), AllocError>
        ensures tokens { OnOk result (self.new.reply.tokens.items ≡ self.old.reply.tokens.items
            ++ placed (length self.old.reply.text.items) (tokens_of value.now)) }
        ensures text { OnOk result (self.new.reply.text.items
            ≡ self.old.reply.text.items ++ text_of value.now) }
        ensures opens { self.new.opens ≡ self.old.opens }
    {
        self.reply.append(value)
    }

    /// A value of which no part is open.
    #[inline(always)]
    fn append_leaf(&mut self, value: &Value) -> Result<SeenValue, AllocError>
        ensures seen { IfOk result (λ v. v ≡ value.now) }
        ensures stands { (fs : List OpenAggregate) →
            BuildsFlat self.old.reply self.old.opens.items self.old.start fs nothing →
            IfOk result (λ v.
            BuildsFlat self.new.reply self.new.opens.items self.new.start fs (whole v)) }
    {
        let seen = SeenValue::of(value);
        match token_alone(value, self.reply.text.len()) {
            Some(token) => self.reply.tokens.push(token)?,
            None => self.append(value)?,
        }
        Ok(seen)
    }

    /// The bytes of the body are a bulk string.
    fn bulk_body(&mut self, body: &Body) -> Result<SeenValue, AllocError>
        ensures seen { IfOk result (λ v. v ≡ BulkString body.now.seen) }
        ensures stands { (fs : List OpenAggregate) →
            BuildsFlat self.old.reply self.old.opens.items self.old.start fs
            (filling body.now.seen) →
            IfOk result (λ v.
            BuildsFlat self.new.reply self.new.opens.items self.new.start fs (whole v)) }
    {
        self.reply.tokens.push(Token {
            kind: TokenKind::BulkString,
            size: self.reply.text.len().saturating_sub(self.start),
            number: 0,
            start: self.start,
        })?;
        Ok(SeenValue::bulk(&body.seen))
    }

    /// The bytes of the body are an error or a verbatim string.
    #[inline(never)]
    fn text_body(&mut self, alloc: Global, kind: BodyKind) -> Result<SeenValue, ReadError>
        ensures value { (fs : List OpenAggregate) (x : List ℕ) →
            BuildsFlat self.old.reply self.old.opens.items self.old.start fs (filling x) →
            Computes result (body_value kind x) }
        ensures stands { (fs : List OpenAggregate) (x : List ℕ) →
            BuildsFlat self.old.reply self.old.opens.items self.old.start fs (filling x) →
            IfOk result (λ v.
            BuildsFlat self.new.reply self.new.opens.items self.new.start fs (whole v)) }
    {
        let start = self.start.min(self.reply.text.len());
        let bytes = Bytes::from_slice(alloc, &self.reply.text[start..])?;
        let value = kind.value(alloc, bytes)?;
        self.reply.text.truncate(start);
        Ok(self.append_leaf(&value)?)
    }

    /// Whether the first element of the push at `token` names its kind; its token is then that of a
    /// bulk string.
    fn name_push(&mut self, token: usize) -> bool
        ensures text { self.new.reply.text.items ≡ self.old.reply.text.items }
        ensures named { result ≡
            names_kind (drop (suc token) self.old.reply.tokens.items) self.old.reply.text.items }
        ensures tokens { self.new.reply.tokens.items ≡ take (suc token) self.old.reply.tokens.items
            ++ with_name (drop (suc token) self.old.reply.tokens.items) }
        ensures opens { self.new.opens ≡ self.old.opens }
    {
        if token >= self.reply.tokens.len() {
            return false;
        }
        name_kind(&mut self.reply.tokens[token + 1..], &self.reply.text)
    }
}

impl Builder for FlatBuilder {
    ghost use Rattle.std.specs.Prelude.{length};
    ghost use Rattle.resp_flat.specs.FlatReplies.{IsFlatOf};
    ghost use Rattle.resp_parse.specs.FlatBuilders.{flat-paid_for};

    type Reply = FlatReply;

    ghost stands = { λ b fs p. BuildsFlat b.reply b.opens.items b.start fs p };

    ghost shows = { IsFlatOf };

    ghost values = { λ _. 0 };

    ghost tokens = { λ b. length b.reply.tokens.items };

    fn new(alloc: Global) -> FlatBuilder {
        FlatBuilder {
            reply: FlatReply::new(alloc),
            opens: Vec::new(alloc),
            start: 0,
        }
    }

    #[inline(always)]
    fn leaf(&mut self, value: Value) -> Result<SeenValue, AllocError> {
        self.append_leaf(&value)
    }

    fn simple(&mut self, _alloc: Global, text: &str) -> Result<SeenValue, AllocError> {
        if text == "OK" {
            return self.append_leaf(&Value::Okay);
        }
        let start = self.reply.text.len();
        self.reply.text.extend_from_slice(text.as_bytes())?;
        self.reply.tokens.push(Token {
            kind: TokenKind::SimpleString,
            size: text.len(),
            number: 0,
            start,
        })?;
        Ok(SeenValue::simple(text))
    }

    fn bulk(&mut self, _alloc: Global, bytes: &[u8]) -> Result<SeenValue, AllocError> {
        let start = self.reply.text.len();
        self.reply.text.extend_from_slice(bytes)?;
        self.reply.tokens.push(Token {
            kind: TokenKind::BulkString,
            size: bytes.len(),
            number: 0,
            start,
        })?;
        Ok(SeenValue::bulk_of(bytes))
    }

    fn begin_body(&mut self, _alloc: Global, _missing: usize) -> Result<(), AllocError> {
        self.start = self.reply.text.len();
        Ok(())
    }

    #[inline(always)]
    fn extend_body(&mut self, part: &[u8]) -> Result<(), AllocError> {
        self.reply.text.extend_from_slice(part)
    }

    fn end_body(&mut self, alloc: Global, body: &Body) -> Result<SeenValue, ReadError> {
        match body.kind {
            BodyKind::Bulk => Ok(self.bulk_body(body)?),
            kind => self.text_body(alloc, kind),
        }
    }

    fn open(
        &mut self,
        _alloc: Global,
        kind: ElementsKind,
        size: usize,
        _after: usize,
        _at_hand: usize,
    ) -> Result<(), AllocError> {
        self.opens.push(self.reply.tokens.len())?;
        self.reply.tokens.push(Token {
            kind: kind.token(),
            size,
            number: 0,
            start: self.reply.text.len(),
        })?;
        Ok(())
    }

    #[inline(always)]
    fn keep(&mut self) -> Result<(), AllocError> {
        Ok(())
    }

    fn close(&mut self, _alloc: Global, closed: &OpenAggregate) -> Result<SeenValue, ReadError> {
        let token = self.opens.pop().unwrap_or(0);
        if let ElementsKind::Push = closed.kind {
            if !self.name_push(token) {
                return Err(ReadError::Fault(FrameFault::BadPushKind));
            }
        }
        Ok(SeenValue::elements(closed.kind, &closed.seen))
    }

    /// The next flat reply is built in the memory of the one before.
    fn put(&mut self, out: &mut FlatReply) {
        mem::swap(out, &mut self.reply);
        self.reply.clear();
    }

    ghost paid_for = { λ b fs body h. flat-paid_for b.reply b.opens.items b.start fs body h };
}

/// The token of a value of which it is all, where it stands after a text of this length.
#[inline(always)]
fn token_alone(value: &Value, start: usize) -> Option<Token>
    ensures token { IfSome result (λ token. placed start (tokens_of value.now) ≡ token ∷ []) }
    ensures no_text { IfSome result (λ token. text_of value.now ≡ []) }
{
    let (kind, number) = match value {
        Value::Nil => (TokenKind::Nil, 0),
        Value::Okay => (TokenKind::Okay, 0),
        Value::Int(n) => (TokenKind::Int, *n),
        Value::Boolean(truth) => (TokenKind::Boolean, if *truth { 1 } else { 0 }),
        _ => return None,
    };
    Some(Token {
        kind,
        size: 0,
        number,
        start,
    })
}

/// Whether the first of these tokens names the kind of a push, which is then a bulk string.
fn name_kind(tokens: &mut [Token], text: &[u8]) -> bool
    ensures named { result ≡ names_kind tokens.old text.now }
    ensures token { tokens.new ≡ with_name tokens.old }
{
    let Some(first) = tokens.first_mut() else {
        return false;
    };
    match first.kind {
        TokenKind::SimpleString => {
            first.kind = TokenKind::BulkString;
            true
        }
        TokenKind::BulkString => {
            let (_, rest) = text.split_at(first.start.min(text.len()));
            let (name, _) = rest.split_at(first.size.min(rest.len()));
            is_text(name)
        }
        _ => false,
    }
}

fn is_text(bytes: &[u8]) -> bool
    ensures { result ≡ is_utf8 bytes.now }
{
    match std::str::from_utf8(bytes) {
        Ok(_) => true,
        Err(_) => false,
    }
}
