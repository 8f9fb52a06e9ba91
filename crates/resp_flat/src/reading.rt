//! Values from tokens and a text.

ghost use Rattle.std.specs.Prelude.{◌≡◌, length};
ghost use Rattle.resp_flat.specs.Reading.{Reads, ReadsBytes, Makes, of_text, cut_text, leaf_of};
ghost use Rattle.resp_flat.specs.Reading.{next_token, next_bytes, next_kind, next_values};
ghost use Rattle.resp_flat.specs.Reading.{next_pairs, next_attribute, next_push, after_token};
ghost use Rattle.resp_flat.specs.Reading.{next_value, whole, value_from};
ghost use Rattle.std.specs.Option.{option_copied};
ghost use Rattle.resp_value.specs.declared.value.Value.TheVariants as value;
ghost use Rattle.resp_errors.specs.ServerErrors.{server_error};

use crate::flat_error::FlatError;
use crate::token::{Token, TokenKind};
use resp_value::{
    Boxed, Bytes, Items, PushKind, ServerError, Text, Value, get_push_kind, verbatim_format,
};
use std::alloc::Global;

/// How many levels of values are read, of which a value with none inside it has one.
pub(crate) const LEVELS: usize = 1_000;

/// Where reading stands.
#[derive(Drop)]
pub(crate) struct Place<'a> {
    /// The tokens that are left.
    tokens: &'a [Token],
    /// Where the bytes of the next one begin.
    at: usize,
}

impl Place<'_> {
    /// The next token, if a reply may have it here.
    fn token(&mut self) -> Result<Token, FlatError>
        ensures token { Reads next_token self.old result self.new }
    {
        let Some((token, others)) = self.tokens.split_first() else {
            return Err(FlatError::NotReply);
        };
        if token.start != self.at || !token.may_stand() {
            return Err(FlatError::NotReply);
        }
        self.tokens = others;
        Ok(*token)
    }
}

/// The bytes as a text, if they are UTF-8.
#[tactic(auto, using(crate::proofs::Utf8::tests))]
pub(crate) fn text_in(bytes: &[u8]) -> Option<&str>
    ensures { option_copied result ≡ of_text (λ text. text) bytes.now }
{
    std::str::from_utf8(bytes).ok()
}

/// What is read: a text, and the memory for what is made of it.
#[derive(Drop)]
pub(crate) struct Source<'a> {
    alloc: Global,
    text: &'a [u8],
}

impl<'a> Source<'a> {
    /// The next bytes.
    fn bytes(&self, place: &mut Place<'_>, size: usize) -> Result<&'a [u8], FlatError>
        ensures { ReadsBytes (next_bytes self.now.text.now size) place.old result place.new }
    {
        let Some(end) = place.at.checked_add(size) else {
            return Err(FlatError::NotReply);
        };
        let Some(bytes) = self.text.get(place.at..end) else {
            return Err(FlatError::NotReply);
        };
        place.at = end;
        Ok(bytes)
    }

    /// Bytes as a text.
    fn text(&self, bytes: &[u8]) -> Result<Text, FlatError>
        ensures { Makes (of_text (λ text. text) bytes.now) result }
    {
        match text_in(bytes) {
            Some(text) => Ok(Text::from_str(self.alloc, text)?),
            None => Err(FlatError::NotReply),
        }
    }

    /// A leaf of this kind.
    fn leaf(&self, kind: TokenKind, bytes: &[u8]) -> Result<Value, FlatError>
        ensures { Makes (leaf_of kind bytes.now) result }
    {
        match kind {
            TokenKind::SimpleString => Ok(Value::SimpleString(self.text(bytes)?)),
            TokenKind::BulkString => Ok(Value::BulkString(Bytes::from_slice(self.alloc, bytes)?)),
            TokenKind::ServerError => self.error(bytes),
            TokenKind::Double => Ok(Value::Double(self.text(bytes)?)),
            TokenKind::BigNumber => Ok(Value::BigNumber(Bytes::from_slice(self.alloc, bytes)?)),
            TokenKind::VerbatimString => self.verbatim(bytes),
            _ => Err(FlatError::NotReply),
        }
    }

    /// An error, by its text.
    fn error(&self, bytes: &[u8]) -> Result<Value, FlatError>
        ensures { Makes (of_text (λ text. value.ServerError (server_error text)) bytes.now) result }
    {
        let Some(text) = text_in(bytes) else {
            return Err(FlatError::NotReply);
        };
        match ServerError::from_text(self.alloc, text) {
            Ok(error) => Ok(Value::ServerError(error)),
            Err(_) => Err(FlatError::Memory),
        }
    }

    /// A text for display, with its format before the first colon.
    fn verbatim(&self, bytes: &[u8]) -> Result<Value, FlatError>
        ensures { Makes (cut_text bytes.now) result }
    {
        let Some(text) = text_in(bytes) else {
            return Err(FlatError::NotReply);
        };
        match text.split_once(':') {
            Some((format, text)) => Ok(Value::VerbatimString {
                format: verbatim_format(String::from_str(self.alloc, format)?),
                text: Text::from_str(self.alloc, text)?,
            }),
            None => Err(FlatError::NotReply),
        }
    }

    /// The kind of a push, by the bulk string that names it.
    fn push_kind(&self, place: &mut Place<'_>) -> Result<PushKind, FlatError>
        ensures { Reads (next_kind self.now.text.now) place.old result place.new }
    {
        let token = place.token()?;
        if token.kind != TokenKind::BulkString {
            return Err(FlatError::NotReply);
        }
        let name = self.text(self.bytes(place, token.size)?)?;
        Ok(get_push_kind(name.into_string()))
    }

    /// A value, where so many levels are left.
    #[cycle(value)]
    #[tactic(auto, unfolding(crate::specs::Reading::next_value))]
    pub(crate) fn value(&self, place: &mut Place<'_>, levels: usize) -> Result<Value, FlatError>
        ensures { Reads (next_value self.now.text.now levels) place.old result place.new }
    {
        if levels == 0 {
            return Err(FlatError::NotReply);
        }
        let token = place.token()?;
        self.after_token(place, token, levels - 1)
    }

    /// The value that a token begins, with those inside it.
    #[cycle(value)]
    fn after_token(
        &self,
        place: &mut Place<'_>,
        token: Token,
        levels: usize,
    ) -> Result<Value, FlatError>
        ensures { Reads (after_token (next_value self.now.text.now levels) self.now.text.now
            token.kind token.size token.number) place.old result place.new }
    {
        match token.kind {
            TokenKind::Nil => Ok(Value::Nil),
            TokenKind::Okay => Ok(Value::Okay),
            TokenKind::Int => Ok(Value::Int(token.number)),
            TokenKind::Boolean => Ok(Value::Boolean(token.number == 1)),
            TokenKind::Array => self.values(place, token.size, levels).map(Value::Array),
            TokenKind::Set => self.values(place, token.size, levels).map(Value::Set),
            TokenKind::Map => self.pairs(place, token.size, levels).map(Value::Map),
            TokenKind::Attribute => self.attribute(place, token.size, levels),
            TokenKind::Push => self.push(place, token.size.saturating_sub(1), levels),
            _ => self.leaf(token.kind, self.bytes(place, token.size)?),
        }
    }

    /// An attribute of so many pairs, and the value that they describe.
    #[cycle(value)]
    fn attribute(
        &self,
        place: &mut Place<'_>,
        count: usize,
        levels: usize,
    ) -> Result<Value, FlatError>
        ensures { Reads (next_attribute (next_value self.now.text.now levels) count)
            place.old result place.new }
    {
        let attributes = self.pairs(place, count, levels)?;
        let payload = self.value(place, levels)?;
        Ok(Value::Attribute {
            payload: Boxed::new(self.alloc, payload)?,
            attributes,
        })
    }

    /// A push of so many values after its kind.
    #[cycle(value)]
    fn push(&self, place: &mut Place<'_>, count: usize, levels: usize) -> Result<Value, FlatError>
        ensures { Reads (next_push (next_value self.now.text.now levels) self.now.text.now count)
            place.old result place.new }
    {
        let kind = self.push_kind(place)?;
        self.values(place, count, levels)
            .map(|payload| Value::Push { kind, payload })
    }

    /// As many values.
    #[cycle(value)]
    fn values(
        &self,
        place: &mut Place<'_>,
        count: usize,
        levels: usize,
    ) -> Result<Items<Value>, FlatError>
        ensures { Reads (next_values (next_value self.now.text.now levels) count)
            place.old result place.new }
    {
        let room = count.min(place.tokens.len());
        let mut values = Items::from(Vec::with_capacity(self.alloc, room)?);
        for _ in 0..count {
            values.push(self.value(place, levels)?)?;
        }
        Ok(values)
    }

    /// As many pairs.
    #[cycle(value)]
    fn pairs(
        &self,
        place: &mut Place<'_>,
        count: usize,
        levels: usize,
    ) -> Result<Items<(Value, Value)>, FlatError>
        ensures { Reads (next_pairs (next_value self.now.text.now levels) count)
            place.old result place.new }
    {
        let room = count.min(place.tokens.len() / 2);
        let mut pairs = Items::from(Vec::with_capacity(self.alloc, room)?);
        for _ in 0..count {
            let key = self.value(place, levels)?;
            pairs.push((key, self.value(place, levels)?))?;
        }
        Ok(pairs)
    }
}

/// The value of which these are all tokens and all bytes, of up to [`LEVELS`] levels.
pub(crate) fn whole_value(alloc: Global, tokens: &[Token], text: &[u8]) -> Result<Value, FlatError>
    ensures { Makes (whole (length text.now) (next_value text.now LEVELS tokens.now 0)) result }
{
    let mut place = Place { tokens, at: 0 };
    let value = Source { alloc, text }.value(&mut place, LEVELS)?;
    if !place.tokens.is_empty() || place.at != text.len() {
        drop(value);
        return Err(FlatError::NotReply);
    }
    Ok(value)
}

/// The value that this token begins, of up to [`LEVELS`] levels; these tokens come after it.
pub(crate) fn value_from(
    alloc: Global,
    token: &Token,
    others: &[Token],
    text: &[u8],
) -> Result<Value, FlatError>
    ensures { Makes (value_from text.now LEVELS token.now others.now) result }
{
    let at = token.start;
    if at > text.len() {
        return Err(FlatError::NotReply);
    }
    if !token.may_stand() {
        return Err(FlatError::NotReply);
    }
    let mut place = Place { tokens: others, at };
    Source { alloc, text }.after_token(&mut place, *token, LEVELS - 1)
}
