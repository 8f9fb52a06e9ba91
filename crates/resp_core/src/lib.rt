//! Commands, connections and queries of a RESP server, in the names of the crate `redis`.
//!
//! A command is made by [`cmd`] and sent over a connection by [`Cmd::query`], which converts its
//! reply:
//!
//! ```text
//! let mut link = ByteLink::new(rt.alloc(), rt.stdin(), rt.stdout());
//! let visits: i64 = cmd(rt.alloc(), "INCR")?.arg("visits")?.query(&mut link)?;
//! ```
//!
//! In `crates/example_counter/src/main.rt`.
//!
//! This crate gives out the public names of the crates below it, so a user names it alone.
#![tactic(auto)]

pub mod laws;

/// The version of the library, as CHANGELOG.md has it.
pub const VERSION: &str = "0.1.0";

pub use resp_args::{
    ArgList, ArgPart, ArgWriter, ExistenceCheck, ExpireOption, Expiry, FieldExistenceCheck, Joined,
    NumericBehavior, ProtocolVersion, RedisWrite, SetExpiry, ToRedisArgs, ToSingleRedisArg,
    ValueComparison, is_valid_16_bytes_hex_digest, write_each_arg,
};
pub use resp_command::{
    Arg, ArgsIter, Cmd, CommandError, ConnectionLike, Iter, PushSource, Scan, ScanProgress,
    Unrouted, cmd, pack_command,
};
pub use resp_flat::{FlatElements, FlatPairs, FlatReply, FlatValue, Token, TokenKind};
pub use resp_from::{
    FromRedisValue, Reply, from_flat_reply, from_redis_value, from_redis_value_by,
    from_redis_value_ref,
};
pub use resp_link::{ByteLink, CommandSink, Streamed, Writing, send_all};
pub use resp_parse::{
    BulkHeader, FlatParser, History, Limits, Parser, Reading, ReplySource, is_double_text,
    parse_redis_value,
};
pub use resp_pipeline::{Attempt, Pipeline, pipe, retrying};
pub use resp_types::{
    DoubleText, Fields, FromFields, IncrexResult, InfoDict, IntegerReplyOrNoOp, ReplicaInfo, Role,
    ValueType, from_redis_fields, from_redis_fields_by,
};
pub use resp_value::{
    Boxed, Bytes, Description, ErrorKind, FrameFault, IoKind, Items, MapIter, OwnedMapIter,
    ParsingError, PushInfo, PushKind, RedisError, RedisResult, RetryMethod, ServerError,
    ServerErrorKind, Text, Value, VerbatimFormat, get_push_kind, make_extension_error,
    verbatim_format,
};
