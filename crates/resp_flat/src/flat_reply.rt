//! A reply as tokens and text.

ghost use Rattle.std.specs.Prelude.{◌≡◌, ◌↔◌, ◌++◌, ◌∷◌, [], length, map, false, Some, IsNone};
ghost use Rattle.std.specs.Prelude.{OnOk, OnErr, IfOk, IfErr, IfSome, vec_capacity};
ghost use Rattle.resp_flat.specs.FlatValues.{IsShownIn, ShowsIf, view_of};
ghost use Rattle.resp_errors.specs.Memory.{OnlyMemory};
ghost use Rattle.resp_value.specs.declared.value.Value.{Value};
ghost use Rattle.resp_flat.specs.FlatReplies.{IsFlatOf, Keeps};
ghost use Rattle.resp_flat.specs.Readable.{IsReadable};
ghost use Rattle.resp_flat.specs.Refusals.{IsRefusal};
ghost use Rattle.resp_flat.specs.FlatReplies.{tokens_of, text_of, placed, sized, numbered, has_text};
ghost use Rattle.resp_flat.specs.FlatReplies.{joined, joined_pairs, tokens_of_pair, text_of_pair};
ghost use Rattle.resp_flat.specs.FlatReplies.{verbatim_text, list_tokens, pairs_tokens};
ghost use Rattle.resp_flat.specs.FlatReplies.{push_tokens};
ghost use Rattle.resp_flat.specs.declared.token.TokenKind.TheVariants as kind;
ghost use Rattle.resp_errors.specs.ServerErrors.{text_of as error_text};

use crate::flat_error::refusal;
use crate::flat_value::FlatValue;
use crate::reading::whole_value;
use crate::token::{Token, TokenKind};
use resp_errors::RedisResult;
use resp_value::{ServerError, Value, VerbatimFormat};
use std::alloc::{AllocError, Global};

/// A reply as tokens in preorder, and the bytes of its leaves one after another.
///
/// It is made to be used again: cleared, it keeps its memory.
#[derive(Drop)]
pub struct FlatReply {
    /// Each value before those inside it.
    pub tokens: Vec<Token>,
    /// The bytes of the leaves, in order.
    pub text: Vec<u8>,
}

impl FlatReply {
    /// Nothing. Takes no memory.
    pub fn new(alloc: Global) -> FlatReply
        ensures tokens { result.tokens.items ≡ [] }
        ensures text { result.text.items ≡ [] }
    {
        FlatReply {
            tokens: Vec::new(alloc),
            text: Vec::new(alloc),
        }
    }

    /// Forgets what it holds, and keeps the memory.
    pub fn clear(&mut self)
        ensures tokens { self.new.tokens.items ≡ [] }
        ensures text { self.new.text.items ≡ [] }
        ensures token_room { vec_capacity self.new.tokens ≡ vec_capacity self.old.tokens }
        ensures text_room { vec_capacity self.new.text ≡ vec_capacity self.old.text }
    {
        self.tokens.clear();
        self.text.clear();
    }

    /// The value that was appended to it, if that was all.
    ///
    /// Values of up to 1,000 levels are read, of which a value without others inside it has one. A
    /// value that a parser made is read back as it was; of any other, texts must be UTF-8, and
    /// errors, formats and kinds those that their texts are read as (`IsReadable`).
    ///
    /// Refused with kind `Client` and the text `the tokens and the text are no value's` where they
    /// are none's, and else only with `OutOfMemory`.
    pub fn to_value(&self, alloc: Global) -> RedisResult<Value>
        ensures value { (v : Value) → IsFlatOf self.now v → IsReadable 1000 v
            → IfOk result (λ w. w ≡ v) }
        ensures memory { (v : Value) → IsFlatOf self.now v → IsReadable 1000 v
            → OnlyMemory result }
        ensures flat { IfOk result (λ w. IsFlatOf self.now w) }
        ensures readable { IfOk result (λ w. IsReadable 1000 w) }
        ensures refused { IfErr result IsRefusal }
    {
        match whole_value(alloc, self.tokens.as_slice(), self.text.as_slice()) {
            Ok(value) => Ok(value),
            Err(error) => Err(refusal(error)),
        }
    }

    /// The first value, to be looked at where it is; `None` where there are no tokens.
    pub fn root(&self) -> Option<FlatValue<'_>>
        ensures empty { IsNone result ↔ (self.now.tokens.items ≡ []) }
        ensures shown { (v : Value) → IsFlatOf self.now v → ShowsIf result (Some v) }
        ensures first { (v : Value) → IsShownIn (self.now.tokens.items, self.now.text.items) v
            → ShowsIf result (Some v) }
        ensures view { IfSome result (λ c.
            view_of c ≡ (self.now.tokens.items, self.now.text.items)) }
    {
        FlatValue::first(self.tokens.as_slice(), self.text.as_slice())
    }

    /// A token of this size, whose bytes or values come next.
    fn size(&mut self, kind: TokenKind, size: usize) -> Result<(), AllocError>
        ensures tokens { OnOk result (self.new.tokens.items
            ≡ self.old.tokens.items ++ placed (length self.old.text.items) (sized kind size ∷ [])) }
        ensures text { OnOk result (self.new.text.items ≡ self.old.text.items) }
        ensures kept_tokens { Keeps self.old.tokens.items self.new.tokens.items }
        ensures kept_text { Keeps self.old.text.items self.new.text.items }
    {
        self.tokens.push(Token {
            kind,
            size,
            number: 0,
            start: self.text.len(),
        })?;
        Ok(())
    }

    /// A token of this number.
    fn number(&mut self, kind: TokenKind, number: i64) -> Result<(), AllocError>
        ensures tokens { OnOk result (self.new.tokens.items
            ≡ self.old.tokens.items ++ placed (length self.old.text.items) (numbered kind number ∷ [])) }
        ensures text { OnOk result (self.new.text.items ≡ self.old.text.items) }
        ensures kept_tokens { Keeps self.old.tokens.items self.new.tokens.items }
        ensures kept_text { Keeps self.old.text.items self.new.text.items }
    {
        self.tokens.push(Token {
            kind,
            size: 0,
            number,
            start: self.text.len(),
        })?;
        Ok(())
    }

    /// A leaf of these bytes.
    #[tactic(auto, using(crate::proofs::Appending::keeps_then))]
    fn leaf(&mut self, kind: TokenKind, bytes: &[u8]) -> Result<(), AllocError>
        ensures tokens { OnOk result (self.new.tokens.items
            ≡ self.old.tokens.items
            ++ placed (length self.old.text.items) (sized kind (length bytes.now) ∷ [])) }
        ensures text { OnOk result (self.new.text.items ≡ self.old.text.items ++ bytes.now) }
        ensures kept_tokens { Keeps self.old.tokens.items self.new.tokens.items }
        ensures kept_text { Keeps self.old.text.items self.new.text.items }
    {
        self.size(kind, bytes.len())?;
        self.text.extend_from_slice(bytes)
    }

    /// An error, by its code and its detail.
    #[tactic(auto, using(crate::proofs::Appending::keeps_then))]
    fn error(&mut self, error: &ServerError) -> Result<(), AllocError>
        ensures tokens { OnOk result (self.new.tokens.items
            ≡ self.old.tokens.items ++ placed (length self.old.text.items)
            (sized kind.ServerError (length (error_text error.now)) ∷ [])) }
        ensures text { OnOk result (self.new.text.items
            ≡ self.old.text.items ++ error_text error.now) }
        ensures kept_tokens { Keeps self.old.tokens.items self.new.tokens.items }
        ensures kept_text { Keeps self.old.text.items self.new.text.items }
    {
        let start = self.text.len();
        self.text.extend_from_slice(error.code().as_bytes())?;
        if let Some(detail) = error.details() {
            self.text.push(b' ')?;
            self.text.extend_from_slice(detail.as_bytes())?;
        }
        self.tokens.push(Token {
            kind: TokenKind::ServerError,
            size: self.text.len() - start,
            number: 0,
            start,
        })?;
        Ok(())
    }

    /// A text for display, by its format and the text.
    #[tactic(auto, using(crate::proofs::Appending::keeps_then))]
    fn verbatim(&mut self, format: &VerbatimFormat, text: &str) -> Result<(), AllocError>
        ensures tokens { OnOk result (self.new.tokens.items
            ≡ self.old.tokens.items ++ placed (length self.old.text.items)
            (sized kind.VerbatimString (length (verbatim_text format.now text.now)) ∷ [])) }
        ensures text { OnOk result (self.new.text.items
            ≡ self.old.text.items ++ verbatim_text format.now text.now) }
        ensures kept_tokens { Keeps self.old.tokens.items self.new.tokens.items }
        ensures kept_text { Keeps self.old.text.items self.new.text.items }
    {
        let start = self.text.len();
        self.text.extend_from_slice(format.name().as_bytes())?;
        self.text.push(b':')?;
        self.text.extend_from_slice(text.as_bytes())?;
        self.tokens.push(Token {
            kind: TokenKind::VerbatimString,
            size: self.text.len() - start,
            number: 0,
            start,
        })?;
        Ok(())
    }

    /// Appends the tokens and the text of a value. Where memory runs out, the reply is as it was.
    pub fn append(&mut self, value: &Value) -> Result<(), AllocError>
        ensures tokens { OnOk result (self.new.tokens.items
            ≡ self.old.tokens.items ++ placed (length self.old.text.items) (tokens_of value.now)) }
        ensures text { OnOk result (self.new.text.items ≡ self.old.text.items ++ text_of value.now) }
        ensures tokens_stay { OnErr result (self.new.tokens.items ≡ self.old.tokens.items) }
        ensures text_stays { OnErr result (self.new.text.items ≡ self.old.text.items) }
    {
        let tokens = self.tokens.len();
        let text = self.text.len();
        let added = self.add(value);
        if added.is_err() {
            self.tokens.truncate(tokens);
            self.text.truncate(text);
        }
        added
    }

    /// Adds those of a value, or where memory runs out a part of them.
    #[cycle(add)]
    #[tactic(auto, using(crate::proofs::Appending::keeps_then))]
    fn add(&mut self, value: &Value) -> Result<(), AllocError>
        ensures tokens { OnOk result (self.new.tokens.items
            ≡ self.old.tokens.items ++ placed (length self.old.text.items) (tokens_of value.now)) }
        ensures text { OnOk result (self.new.text.items ≡ self.old.text.items ++ text_of value.now) }
        ensures kept_tokens { Keeps self.old.tokens.items self.new.tokens.items }
        ensures kept_text { Keeps self.old.text.items self.new.text.items }
    {
        match value {
            Value::Nil => self.size(TokenKind::Nil, 0),
            Value::Okay => self.size(TokenKind::Okay, 0),
            Value::Int(n) => self.number(TokenKind::Int, *n),
            Value::SimpleString(text) => self.leaf(
                TokenKind::SimpleString,
                text.as_str().as_bytes(),
            ),
            Value::BulkString(bytes) => self.leaf(TokenKind::BulkString, bytes.as_slice()),
            Value::Array(elements) => self.list(TokenKind::Array, elements.as_slice()),
            Value::Map(pairs) => self.pairs(TokenKind::Map, pairs.as_slice()),
            Value::Attribute {
                payload,
                attributes,
            } => {
                self.pairs(TokenKind::Attribute, attributes.as_slice())?;
                self.add(payload.get())
            }
            Value::ServerError(error) => self.error(error),
            Value::Boolean(truth) => self.number(TokenKind::Boolean, if *truth { 1 } else { 0 }),
            Value::Double(text) => self.leaf(TokenKind::Double, text.as_str().as_bytes()),
            Value::BigNumber(bytes) => self.leaf(TokenKind::BigNumber, bytes.as_slice()),
            Value::Set(elements) => self.list(TokenKind::Set, elements.as_slice()),
            Value::VerbatimString { format, text } => self.verbatim(format, text.as_str()),
            Value::Push { kind, payload } => self.push(kind.name(), payload.as_slice()),
        }
    }

    /// A list, with its elements.
    #[cycle(add)]
    #[tactic(auto, using(crate::proofs::Appending::keeps_then))]
    fn list(&mut self, kind: TokenKind, elements: &[Value]) -> Result<(), AllocError>
        requires aggregate { has_text kind ≡ false }
        ensures tokens { OnOk result (self.new.tokens.items ≡ self.old.tokens.items
            ++ placed (length self.old.text.items) (list_tokens kind elements.now)) }
        ensures text { OnOk result (self.new.text.items
            ≡ self.old.text.items ++ joined (map text_of elements.now)) }
        ensures kept_tokens { Keeps self.old.tokens.items self.new.tokens.items }
        ensures kept_text { Keeps self.old.text.items self.new.text.items }
    {
        self.size(kind, elements.len())?;
        self.elements(elements)
    }

    /// A push, with the name of its kind and its data.
    #[cycle(add)]
    #[tactic(auto, using(crate::proofs::Appending::keeps_then))]
    fn push(&mut self, name: &str, payload: &[Value]) -> Result<(), AllocError>
        ensures tokens { OnOk result (self.new.tokens.items ≡ self.old.tokens.items
            ++ placed (length self.old.text.items) (push_tokens name.now payload.now)) }
        ensures text { OnOk result (self.new.text.items
            ≡ self.old.text.items ++ (name.now ++ joined (map text_of payload.now))) }
        ensures kept_tokens { Keeps self.old.tokens.items self.new.tokens.items }
        ensures kept_text { Keeps self.old.text.items self.new.text.items }
    {
        let Some(count) = payload.len().checked_add(1) else {
            return Err(AllocError);
        };
        self.size(TokenKind::Push, count)?;
        self.leaf(TokenKind::BulkString, name.as_bytes())?;
        self.elements(payload)
    }

    /// Values, one after another.
    #[cycle(add)]
    #[tactic(auto, using(crate::proofs::Appending::keeps_then))]
    fn elements(&mut self, elements: &[Value]) -> Result<(), AllocError>
        ensures tokens { OnOk result (self.new.tokens.items ≡ self.old.tokens.items
            ++ placed (length self.old.text.items) (joined (map tokens_of elements.now))) }
        ensures text { OnOk result (self.new.text.items
            ≡ self.old.text.items ++ joined (map text_of elements.now)) }
        ensures kept_tokens { Keeps self.old.tokens.items self.new.tokens.items }
        ensures kept_text { Keeps self.old.text.items self.new.text.items }
    {
        for element in elements {
            self.add(element)?;
        }
        Ok(())
    }

    /// A map, or the pairs of an attribute, with their keys and values.
    #[cycle(add)]
    #[tactic(auto, using(crate::proofs::Appending::keeps_then))]
    fn pairs(&mut self, kind: TokenKind, pairs: &[(Value, Value)]) -> Result<(), AllocError>
        requires aggregate { has_text kind ≡ false }
        ensures tokens { OnOk result (self.new.tokens.items ≡ self.old.tokens.items
            ++ placed (length self.old.text.items) (pairs_tokens kind pairs.now)) }
        ensures text { OnOk result (self.new.text.items
            ≡ self.old.text.items ++ joined_pairs (map text_of_pair pairs.now)) }
        ensures kept_tokens { Keeps self.old.tokens.items self.new.tokens.items }
        ensures kept_text { Keeps self.old.text.items self.new.text.items }
    {
        self.size(kind, pairs.len())?;
        self.entries(pairs)
    }

    /// Keys and values, one after another.
    #[cycle(add)]
    #[tactic(auto, using(crate::proofs::Appending::keeps_then))]
    fn entries(&mut self, pairs: &[(Value, Value)]) -> Result<(), AllocError>
        ensures tokens { OnOk result (self.new.tokens.items ≡ self.old.tokens.items
            ++ placed (length self.old.text.items)
            (joined_pairs (map tokens_of_pair pairs.now))) }
        ensures text { OnOk result (self.new.text.items
            ≡ self.old.text.items ++ joined_pairs (map text_of_pair pairs.now)) }
        ensures kept_tokens { Keeps self.old.tokens.items self.new.tokens.items }
        ensures kept_text { Keeps self.old.text.items self.new.text.items }
    {
        for (key, value) in pairs {
            self.add(key)?;
            self.add(value)?;
        }
        Ok(())
    }
}
