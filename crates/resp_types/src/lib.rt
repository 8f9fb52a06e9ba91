//! Replies of a shape: the fields of a reply by name and structs that are made of them; and replies
//! of single commands as types of their own: INFO, ROLE, TYPE, INCREX, doubles by their texts, and
//! integers with two answers that are no number.
#![tactic(auto)]

mod double;
mod equality;
mod fields;
mod increx;
mod info;
mod integer_reply;
mod refusals;
mod role;
mod rows;
mod structs;
mod value_type;

pub use double::DoubleText;
pub use fields::Fields;
pub use increx::IncrexResult;
pub use info::InfoDict;
pub use integer_reply::IntegerReplyOrNoOp;
pub use role::{ReplicaInfo, Role};
pub use rows::from_redis_fields_by;
pub use structs::{FromFields, from_redis_fields};
pub use value_type::ValueType;
