//! Rust values as arguments of a command.
#![tactic(auto)]

mod arg_list;
mod args;
mod comparison;
mod copies;
mod impls;
mod joined;
pub mod laws;
mod options;
mod shown;
mod single_arg;
mod write;
mod writer;

pub use arg_list::ArgList;
pub use args::{NumericBehavior, ToRedisArgs, write_each_arg};
pub use comparison::ValueComparison;
pub use joined::{ArgPart, Joined};
pub use options::{
    ExistenceCheck, ExpireOption, Expiry, FieldExistenceCheck, ProtocolVersion, SetExpiry,
    is_valid_16_bytes_hex_digest,
};
pub use single_arg::ToSingleRedisArg;
pub use write::RedisWrite;
pub use writer::ArgWriter;
