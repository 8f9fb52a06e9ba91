//! What the crates above make their conversions of; not for users.

pub use crate::attributes::strip_attribute;
pub use crate::refusals::refuse;
pub use crate::tuples::{Elements, Ignored, take_elements};
