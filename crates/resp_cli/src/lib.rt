//! What the program `resp` does, over any streams and any connection. The crate `resp` joins it to
//! the streams of a process.
#![tactic(auto)]

mod program;

pub use program::{Task, pack, print_no_words, print_usage, query, read, task_of};
