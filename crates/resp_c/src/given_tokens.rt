//! The tokens that C gives, one after another.

use crate::token::RespToken;
use resp_encode::Tokens;
use resp_flat::Token;

/// Those that are left; none is read from the first on whose kind is none.
#[derive(Drop)]
pub struct GivenTokens<'a> {
    pub tokens: &'a [RespToken],
}

impl Tokens for GivenTokens<'_> {
    ghost use Rattle.resp_c.specs.GivenTokens.{known_tokens};

    ghost left = { λ given. known_tokens given.tokens.now };

    fn next_token(&mut self) -> Option<Token> {
        let (token, others) = self.tokens.split_first()?;
        self.tokens = others;
        token.token()
    }
}
