//! Pipelines: commands that are sent at once, and whose replies are answered together; and calls
//! over a connection that are tried again where they are refused.
#![tactic(auto)]

mod attempts;
mod composing;
pub mod laws;
mod pipeline;
mod retries;

pub use pipeline::{Pipeline, pipe};
pub use retries::{Attempt, retrying};
