//! Values as a server sends them.
#![tactic(auto)]

mod flat;
pub mod laws;
mod leaves;
mod lines;
mod own_names;
mod resp2;
mod texts;
mod tokens;
mod values;
mod write_error;

pub use flat::{encode_reply, encode_tokens};
pub use resp2::as_resp2;
pub use tokens::Tokens;
pub use values::{encode, encode_within};
