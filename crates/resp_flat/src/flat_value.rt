//! A value inside a flat reply.

ghost use Rattle.std.specs.Prelude.{◌≡◌, ◌<◌, ◌↔◌, ◌^◌, ◌-◌, [], ◌∷◌, length, min, IsTrue};
ghost use Rattle.std.specs.Prelude.{IfOk, IfErr};
ghost use Rattle.std.specs.Prelude.{MatchOption, option_and_then};
ghost use Rattle.std.specs.List.{AllZip};
ghost use Rattle.std.specs.Option.{option_copied};
ghost use Rattle.resp_errors.specs.Memory.{OnlyMemory};
ghost use Rattle.resp_value.specs.declared.value.Value.{Value};
ghost use Rattle.resp_flat.specs.Readable.{IsReadable};
ghost use Rattle.resp_flat.specs.Reading.{of_text};
ghost use Rattle.resp_flat.specs.Refusals.{IsRefusal};
ghost use Rattle.resp_flat.specs.FlatValues.{Shows, ShowsIf, IsShownIn, BothAreShownIn, view_of};
ghost use Rattle.resp_flat.specs.FlatValues.{kind_of, int_of, truth_of, leaf_bytes, count_of};
ghost use Rattle.resp_flat.specs.FlatValues.{elements_of, pairs_of, described_by, elements_left};
ghost use Rattle.resp_flat.specs.FlatValues.{pairs_left, after_values, part_count, bytes_at};
ghost use Rattle.resp_flat.specs.FlatValues.{HasAllElements, HasAllPairs, kind_at};

use crate::flat_error::refusal;
use crate::flat_iter::{FlatElements, FlatPairs};
use crate::reading::{text_in, value_from};
use crate::token::{Token, TokenKind};
use resp_errors::RedisResult;
use resp_value::Value;
use std::alloc::Global;

/// A value of a flat reply, with those inside it: a place in the tokens, which is cheap to copy.
///
/// It is made by [`FlatReply::root`](crate::FlatReply::root), and takes no memory.
#[derive(Clone, Copy)]
pub struct FlatValue<'a> {
    /// Its own token.
    token: &'a Token,
    /// The tokens after that, and so those of the values inside it.
    others: &'a [Token],
    /// The text of the whole reply.
    text: &'a [u8],
}

impl<'a> FlatValue<'a> {
    /// The value of this token, which these tokens come after.
    pub(crate) fn at(token: &'a Token, others: &'a [Token], text: &'a [u8]) -> FlatValue<'a>
        ensures { view_of result ≡ (token.now ∷ others.now, text.now) }
    {
        FlatValue {
            token,
            others,
            text,
        }
    }

    /// The value whose token is the first of these, if there is one.
    pub(crate) fn first(tokens: &'a [Token], text: &'a [u8]) -> Option<FlatValue<'a>>
        ensures { MatchOption result (tokens.now ≡ []) (λ c. view_of c ≡ (tokens.now, text.now)) }
    {
        let (token, others) = tokens.split_first()?;
        Some(FlatValue {
            token,
            others,
            text,
        })
    }

    /// What it is.
    pub fn kind(&self) -> TokenKind
        ensures shown { (v : Value) → Shows self.now v → result ≡ kind_of v }
        ensures token { result ≡ kind_at self.now }
    {
        self.token.kind
    }

    /// The integer, of [`TokenKind::Int`].
    pub fn as_int(&self) -> Option<i64>
        ensures shown { (v : Value) → Shows self.now v → result ≡ int_of v }
    {
        self.token.int()
    }

    /// The truth value, of [`TokenKind::Boolean`].
    pub fn as_bool(&self) -> Option<bool>
        ensures shown { (v : Value) → Shows self.now v → result ≡ truth_of v }
    {
        self.token.truth()
    }

    /// The bytes of a kind that [has text](TokenKind::has_text): of an error, the code and where
    /// there is a detail a space and the detail; of a verbatim string, the format, a colon and the
    /// text.
    pub fn as_bytes(&self) -> Option<&'a [u8]>
        ensures shown { (v : Value) → Shows self.now v → option_copied result ≡ leaf_bytes v }
    {
        if self.token.kind.has_text() {
            bytes_at(self.text, self.token.start, self.token.size)
        } else {
            None
        }
    }

    /// The same as a text, if it is UTF-8. Only that of a bulk string may not be.
    pub fn as_str(&self) -> Option<&'a str>
        ensures shown { (v : Value) → Shows self.now v
            → option_copied result ≡ option_and_then (of_text (λ text. text)) (leaf_bytes v) }
    {
        text_in(self.as_bytes()?)
    }

    /// How many elements or pairs it has: 0 of a leaf.
    pub fn len(&self) -> usize
        ensures shown { (v : Value) → Shows self.now v → result ≡ count_of v }
    {
        self.token.count()
    }

    /// Whether it has no elements and no pairs.
    pub fn is_empty(&self) -> bool
        ensures shown { (v : Value) → Shows self.now v → IsTrue result ↔ (count_of v ≡ 0) }
    {
        self.len() == 0
    }

    /// The values of an array, a set or a push, of which the first is the name of its kind; none of
    /// any other kind.
    ///
    /// A step past a value looks at each token of it.
    pub fn elements(&self) -> FlatElements<'a>
        ensures shown { (v : Value) → Shows self.now v
            → AllZip IsShownIn (elements_left result) (elements_of v) }
        ensures fits { length (elements_left result) < 2 ^ 64 }
        ensures all { (v : Value) → Shows self.now v → HasAllElements result }
    {
        FlatElements::over(self.token.element_count(), self.others, self.text)
    }

    /// The keys and values of a map or of an attribute; none of any other kind.
    ///
    /// A step past a value looks at each token of it.
    pub fn pairs(&self) -> FlatPairs<'a>
        ensures shown { (v : Value) → Shows self.now v
            → AllZip BothAreShownIn (pairs_left result) (pairs_of v) }
        ensures fits { length (pairs_left result) < 2 ^ 64 }
        ensures all { (v : Value) → Shows self.now v → HasAllPairs result }
    {
        FlatPairs::over(self.token.pair_count(), self.others, self.text)
    }

    /// The value that an attribute describes; of any other kind, nothing.
    pub fn described(&self) -> Option<FlatValue<'a>>
        ensures shown { (v : Value) → Shows self.now v → ShowsIf result (described_by v) }
    {
        if !self.token.is_attribute() {
            return None;
        }
        let pairs = self.token.size.saturating_mul(2);
        FlatValue::first(after_values(self.others, pairs), self.text)
    }
}

impl FlatValue<'_> {
    /// The value, as a tree.
    ///
    /// As [`FlatReply::to_value`](crate::FlatReply::to_value), of the tokens from its own on: values of
    /// up to 1,000 levels are read, refused with kind `Client` and the same text where the tokens are
    /// no value's, and else only with `OutOfMemory`.
    pub fn to_value(&self, alloc: Global) -> RedisResult<Value>
        ensures value { (v : Value) → Shows self.now v → IsReadable 1000 v
            → IfOk result (λ w. w ≡ v) }
        ensures memory { (v : Value) → Shows self.now v → IsReadable 1000 v → OnlyMemory result }
        ensures shown { IfOk result (λ w. Shows self.now w) }
        ensures readable { IfOk result (λ w. IsReadable 1000 w) }
        ensures refused { IfErr result IsRefusal }
    {
        match value_from(alloc, self.token, self.others, self.text) {
            Ok(value) => Ok(value),
            Err(error) => Err(refusal(error)),
        }
    }
}

/// So many bytes of a text from there on, if it has them.
fn bytes_at(text: &[u8], start: usize, size: usize) -> Option<&[u8]>
    ensures { option_copied result ≡ bytes_at text.now start size }
{
    let end = start.checked_add(size)?;
    text.get(start..end)
}

/// How many values come after a token as parts of its value.
fn part_count(kind: TokenKind, size: usize) -> usize
    ensures { result ≡ min (part_count kind size) (2 ^ 64 - 1) }
{
    match kind {
        TokenKind::Array | TokenKind::Set | TokenKind::Push => size,
        TokenKind::Map => size.saturating_mul(2),
        TokenKind::Attribute => size.saturating_mul(2).saturating_add(1),
        _ => 0,
    }
}

/// The tokens after so many values.
pub(crate) fn after_values(tokens: &[Token], count: usize) -> &[Token]
    ensures { result.now ≡ after_values count tokens.now }
{
    let mut rest = tokens;
    let mut values = count;
    while values > 0 {
        let Some((token, others)) = rest.split_first() else {
            return &[];
        };
        values = (values - 1).saturating_add(part_count(token.kind, token.size));
        rest = others;
    }
    rest
}

/// The tokens after the value that this one begins.
pub(crate) fn after_value<'a>(token: &Token, others: &'a [Token]) -> &'a [Token]
    ensures { result.now
        ≡ after_values (part_count token.now.kind token.now.size) others.now }
{
    after_values(others, part_count(token.kind, token.size))
}
