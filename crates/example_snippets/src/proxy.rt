//! What users write of a proxy: the bytes of a client's command go on to a server as they are, and
//! the value that it replies comes back, as it is or as the bytes that the client is sent for it in
//! its own version of the protocol.
//!
//! `pass_on` does so with each command of a client that has one reply; the others it refuses or
//! handles, by the table of `handling_of`.
//!
//! A link sets pushes aside, so that none is taken for a reply. `hand_on_pushes` sends them on to a
//! client of RESP3, where a push may stand before and after each reply; RESP2 has no pushes.

mod commands;
mod forwarding;
mod passing;
mod pushes;
mod reply;

pub use commands::{ClientState, Handling, handling_of};
pub use forwarding::{forward, relay};
pub use passing::pass_on;
pub use pushes::hand_on_pushes;
pub use reply::Reply;
