//! Conversions of replies to Rust values.
#![tactic(auto)]

mod arrays;
mod attributes;
mod booleans;
mod conversion;
mod digits;
mod flat_reply;
mod integers;
mod lists;
mod maps;
pub mod parts;
mod refusals;
mod reply;
mod results;
mod rules;
mod texts;
mod tuples;
mod values;
mod wrappers;

pub use conversion::{FromRedisValue, from_redis_value, from_redis_value_by, from_redis_value_ref};
pub use flat_reply::from_flat_reply;
pub use reply::Reply;
