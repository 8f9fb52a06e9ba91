//! The tokens that C gives.

ghost use Rattle.std.specs.Prelude.{◌≡◌, Some, IfSome};
ghost use Rattle.resp_flat.specs.declared.token.TokenKind.{TokenKind};
ghost use Rattle.resp_c.specs.GivenTokens.{is_known};
ghost use Rattle.resp_c.specs.Replies.{number_of_kind, in_c};
ghost use Rattle.resp_flat.specs.declared.token.Token.{Token};

use resp_flat::{Token, TokenKind};

/// A token as C has it: its kind may be any number.
#[repr(C)]
#[derive(Clone, Copy, Drop)]
pub struct RespToken {
    pub kind: u8,
    pub size: usize,
    pub number: i64,
    pub start: usize,
}

impl RespToken {
    /// Whether its kind is one.
    pub fn is_known(&self) -> bool
        ensures { result ≡ is_known self.now }
    {
        kind_numbered(self.kind).is_some()
    }

    /// The token, if its kind is one.
    pub fn token(&self) -> Option<Token>
        ensures token { IfSome result (λ t. in_c t ≡ self.now) }
        ensures known { (t : Token) → in_c t ≡ self.now → result ≡ Some t }
    {
        Some(Token {
            kind: kind_numbered(self.kind)?,
            size: self.size,
            number: self.number,
            start: self.start,
        })
    }
}

/// The kind of this number, if it is one's.
fn kind_numbered(number: u8) -> Option<TokenKind>
    ensures number { IfSome result (λ k. number_of_kind k ≡ number) }
    ensures known { (k : TokenKind) → number_of_kind k ≡ number → result ≡ Some k }
{
    match number {
        0 => Some(TokenKind::Nil),
        1 => Some(TokenKind::Okay),
        2 => Some(TokenKind::Int),
        3 => Some(TokenKind::SimpleString),
        4 => Some(TokenKind::BulkString),
        5 => Some(TokenKind::Array),
        6 => Some(TokenKind::Map),
        7 => Some(TokenKind::Attribute),
        8 => Some(TokenKind::ServerError),
        9 => Some(TokenKind::Boolean),
        10 => Some(TokenKind::Double),
        11 => Some(TokenKind::BigNumber),
        12 => Some(TokenKind::Set),
        13 => Some(TokenKind::VerbatimString),
        14 => Some(TokenKind::Push),
        _ => None,
    }
}
