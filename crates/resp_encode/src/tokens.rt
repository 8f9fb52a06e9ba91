//! Tokens that are read one after another.

ghost use Rattle.std.specs.Prelude.{◌≡◌, ◌∷◌, [], List, true, false, IfOk, MatchOption, MatchResult};
ghost use Rattle.std.specs.Str.{is_utf8};
ghost use Rattle.resp_value.specs.Names.{kind_named};
ghost use Rattle.resp_flat.specs.declared.token.Token.{Token};
ghost use Rattle.resp_flat.specs.Reading.{next_token, next_bytes, next_kind};
ghost use Rattle.resp_encode.specs.FlatEncoding.{GivesRead};
ghost use Rattle.resp_encode.specs.declared.write_error.WriteError.TheVariants.{NoSpelling};

use crate::write_error::WriteError;
use resp_flat::{Token, TokenKind};

/// The tokens of a reply, one after another.
pub trait Tokens: Drop {
    // Those that are left.
    ghost left: { Self → List Token };

    /// The next one, if one is left.
    fn next_token(&mut self) -> Option<Token>
        ensures next { MatchOption result (left self.old ≡ [])
            (λ token. left self.old ≡ token ∷ left self.new) };
}

impl Tokens for &[Token] {
    ghost left = { λ tokens. tokens.now };

    fn next_token(&mut self) -> Option<Token> {
        let (token, others) = self.split_first()?;
        *self = others;
        Some(*token)
    }
}

/// Where reading stands.
#[derive(Drop)]
pub(crate) struct Place<T> {
    /// The tokens that are left.
    pub(crate) tokens: T,
    /// Where the bytes of the next one begin.
    pub(crate) at: usize,
}

impl<T: Tokens> Place<T> {
    /// The next token, if a reply may have it here.
    pub(crate) fn token(&mut self) -> Result<Token, WriteError>
        ensures token { GivesRead (λ token. token) (next_token (T.left self.old.tokens) self.old.at)
            result (T.left self.new.tokens) self.new.at }
    {
        let Some(token) = self.tokens.next_token() else {
            return Err(WriteError::NoSpelling);
        };
        if token.start != self.at || !token.may_stand() {
            return Err(WriteError::NoSpelling);
        }
        Ok(token)
    }

    /// The next bytes of the text.
    pub(crate) fn bytes<'a>(&mut self, text: &'a [u8], size: usize) -> Result<&'a [u8], WriteError>
        ensures bytes { GivesRead (λ bytes. bytes.now)
            (next_bytes text.now size (T.left self.old.tokens) self.old.at) result
            (T.left self.new.tokens) self.new.at }
    {
        let Some(end) = self.at.checked_add(size) else {
            return Err(WriteError::NoSpelling);
        };
        let Some(bytes) = text.get(self.at..end) else {
            return Err(WriteError::NoSpelling);
        };
        self.at = end;
        Ok(bytes)
    }

    /// The name of a push's kind, a bulk string.
    pub(crate) fn name<'a>(&mut self, text: &'a [u8]) -> Result<&'a str, WriteError>
        ensures name { GivesRead (λ name. kind_named name.now)
            (next_kind text.now (T.left self.old.tokens) self.old.at) result
            (T.left self.new.tokens) self.new.at }
        ensures text { IfOk result (λ name. is_utf8 name.now ≡ true) }
    {
        let token = self.token()?;
        if token.kind != TokenKind::BulkString {
            return Err(WriteError::NoSpelling);
        }
        text_in(self.bytes(text, token.size)?)
    }
}

/// The bytes as a text, if they are UTF-8.
#[tactic(auto, using(crate::proofs::FlatLeaves::utf8_tests))]
pub(crate) fn text_in(bytes: &[u8]) -> Result<&str, WriteError>
    ensures text { MatchResult result
        (λ text. (text.now ≡ bytes.now) × (is_utf8 bytes.now ≡ true))
        (λ e. (e ≡ NoSpelling) × (is_utf8 bytes.now ≡ false)) }
{
    match std::str::from_utf8(bytes) {
        Ok(text) => Ok(text),
        Err(_) => Err(WriteError::NoSpelling),
    }
}
