//! Errors: what a server answers in place of a value, what stops a parser or a conversion, and
//! what a call over a connection can fail with.
#![tactic(auto)]

mod clones;
mod description;
mod equality;
mod kinds;
pub mod laws;
mod parsing_error;
mod questions;
mod redirects;
mod redis_error;
mod server_error;

pub use description::Description;
pub use kinds::{ErrorKind, FrameFault, IoKind, RetryMethod, ServerErrorKind};
pub use parsing_error::ParsingError;
pub use redis_error::{RedisError, RedisResult, make_extension_error};
pub use server_error::ServerError;
