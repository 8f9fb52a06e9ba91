//! Commands, the connections that take them, and queries of one command.
#![tactic(auto)]

mod args_iter;
mod batch;
mod command;
mod command_error;
mod connection;
mod copies;
mod encoded_args;
mod fetching;
mod frames;
mod framing;
pub mod laws;
mod packing;
mod pages;
mod progress;
mod push_source;
mod scan;
mod start;
mod subscriptions;

pub use args_iter::{Arg, ArgsIter};
pub use command::Cmd;
pub use command_error::CommandError;
pub use connection::{ConnectionLike, Unrouted};
pub use packing::pack_command;
pub use progress::ScanProgress;
pub use push_source::PushSource;
pub use scan::{Iter, Scan};
pub use start::cmd;
