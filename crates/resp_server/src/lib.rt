//! The server's side of a connection: requests that are read, and values that are sent.
#![tactic(auto)]

mod args;
pub mod laws;
mod request;
mod sending;

pub use args::{OwnedArgs, RequestArgs};
pub use request::Request;
pub use sending::{send_reply, send_value};
