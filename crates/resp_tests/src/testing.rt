//! What the tests share: commands of words, links over memory, a device that fails at a chosen call,
//! and what answers show.
//!
//! A text is empty where memory runs out for it, so that a test that wants one fails.

mod device;
mod memory;
mod session;
mod texts;

pub use device::Device;
pub use memory::{
    MemoryLink, command, command_text, link_over, listed_text, pipeline, pipeline_text, sent_text,
};
pub use session::{Call, parsing_text, session_text};
pub use texts::{
    answer_text, args_text, bytes_text, debug_text, display_text, next_text, refusal_text,
};
