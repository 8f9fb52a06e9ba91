#![tactic(auto)]
//! Reading replies of a RESP server (RESP2 and RESP3) from bytes.

mod body;
mod builder;
mod decoder;
mod double;
mod elements;
mod flat_builder;
mod flat_parser;
mod history;
pub mod laws;
mod limits;
mod line;
mod machine;
mod number;
mod open_aggregates;
mod parser;
mod read_error;
mod reader_source;
mod seen;
mod shape;
mod source;
mod tree_builder;
mod type_byte;
mod value_of;

pub use decoder::{BulkHeader, parse_redis_value};
pub use double::is_double_text;
pub use flat_parser::FlatParser;
pub use history::History;
pub use limits::Limits;
pub use parser::Parser;
pub use reader_source::Reading;
pub use source::ReplySource;
