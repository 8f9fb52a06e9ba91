//! What C reads of a reply.

ghost use Rattle.resp_c.specs.Views.{Shows};

use resp_flat::{FlatReply, Token};

/// Where the tokens and the text of a reply lie, until the next call with its parser.
#[repr(C)]
#[derive(Drop)]
pub struct RespView {
    /// The tokens, in preorder.
    pub tokens: *const Token,
    /// How many there are.
    pub token_count: usize,
    /// The bytes of the leaves.
    pub text: *const u8,
    /// How many there are.
    pub text_size: usize,
}

impl RespView {
    /// From here on it shows this reply.
    pub fn show(&mut self, reply: &FlatReply)
        ensures shows { Shows self.new reply.now }
    {
        self.tokens = reply.tokens.as_ptr();
        self.token_count = reply.tokens.len();
        self.text = reply.text.as_ptr();
        self.text_size = reply.text.len();
    }
}
