//! Replies of a RESP server as trees.
#![tactic(auto)]

mod equality;
mod making;
mod map_iter;
mod names;
mod value;
mod views;

pub use map_iter::{MapIter, OwnedMapIter};
pub use names::{PushKind, VerbatimFormat, get_push_kind, verbatim_format};
pub use resp_containers::{
    Boxed, Bytes, ExactClone, Items, StructuralEq, Text, law_of_clones, law_of_equal_values,
};
pub use resp_errors::{
    Description, ErrorKind, FrameFault, IoKind, ParsingError, RedisError, RedisResult, RetryMethod,
    ServerError, ServerErrorKind, make_extension_error,
};
pub use value::{PushInfo, Value};
