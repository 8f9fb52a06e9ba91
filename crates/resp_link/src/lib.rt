//! A connection over a source and a sink of bytes.
#![tactic(auto)]

mod inbox;
mod link;
mod messages;
mod pieces;
mod pushes;
mod request_body;
mod sink;
mod streamed;
mod writer_sink;

pub use link::ByteLink;
pub use sink::{CommandSink, send_all};
pub use streamed::Streamed;
pub use writer_sink::Writing;
