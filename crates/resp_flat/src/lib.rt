//! Replies without a tree: tokens in preorder, and the bytes of the leaves in one text.
#![tactic(auto)]

mod flat_error;
mod flat_iter;
mod flat_reply;
mod flat_value;
mod laws;
mod reading;
mod token;

pub use flat_iter::{FlatElements, FlatPairs};
pub use flat_reply::FlatReply;
pub use flat_value::FlatValue;
pub use token::{Token, TokenKind};
