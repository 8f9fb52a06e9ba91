//! What the tests assert of texts, arguments, commands and copies; replies, links and tokens.

use crate::testing::{
    MemoryLink, answer_text, args_text, command_text, debug_text, display_text, link_over,
};
use resp_core::{
    Cmd, FromRedisValue, RedisResult, Text, ToRedisArgs, Token, TokenKind, Value, from_redis_value,
    from_redis_value_ref, parse_redis_value,
};
use std::fmt::{Debug, Display};
use std::process::Abort;

/// A test's runtime.
pub trait Test: Abort + AllocGlobal {}

impl<R: Abort + AllocGlobal> Test for R {}

/// The text is this.
pub fn assert_text(rt: &impl Test, text: String, wanted: &str) {
    assert_eq!(rt; text.as_str(), wanted);
}

/// `{:?}` prints this.
pub fn assert_debug<T: Debug>(rt: &impl Test, value: &T, wanted: &str) {
    assert_text(rt, debug_text(rt.alloc(), value), wanted);
}

/// `{}` prints this.
pub fn assert_display<T: Display>(rt: &impl Test, value: &T, wanted: &str) {
    assert_text(rt, display_text(rt.alloc(), value), wanted);
}

/// The answer shows this: its Debug form, or its refusal.
pub fn assert_answer<T: Debug + Drop>(rt: &impl Test, answer: RedisResult<T>, wanted: &str) {
    assert_text(rt, answer_text(rt.alloc(), answer), wanted);
}

/// The value gives these arguments and counts for so many, as `2:EX 2:10 (1)`.
pub fn assert_args<T: ToRedisArgs>(rt: &impl Test, value: &T, wanted: &str) {
    assert_text(rt, args_text(rt.alloc(), value), wanted);
}

/// The value that was made gives these arguments.
pub fn assert_made_args<T: ToRedisArgs + Drop, E: Debug>(
    rt: &impl Test,
    made: Result<T, E>,
    wanted: &str,
) {
    assert_args(rt, &made.expect(rt, "no refusal"), wanted);
}

/// The command is packed as these bytes.
pub fn assert_packed(rt: &impl Test, command: &Cmd, wanted: &str) {
    assert_text(rt, command_text(rt.alloc(), command), wanted);
}

/// What was made, such as a copy, equals the value.
pub fn assert_equal<T: PartialEq + Drop, E: Debug>(rt: &impl Test, made: Result<T, E>, value: &T) {
    assert!(rt; made.expect(rt, "no refusal") == *value);
}

/// A string of this text.
pub fn string(rt: &impl Test, text: &str) -> String {
    String::from_str(rt.alloc(), text).expect(rt, "memory")
}

/// The same, as a text of the library's.
pub fn text(rt: &impl Test, from: &str) -> Text {
    Text::from_str(rt.alloc(), from).expect(rt, "memory")
}

/// The token of these parts.
pub fn token(kind: TokenKind, size: usize, number: i64, start: usize) -> Token {
    Token {
        kind,
        size,
        number,
        start,
    }
}

/// A link on which these bytes come in.
pub fn link(rt: &impl Test, incoming: &[u8]) -> MemoryLink {
    link_over(rt.alloc(), incoming).expect(rt, "memory")
}

/// The value of a reply's bytes.
pub fn reply(rt: &impl Test, bytes: &[u8]) -> Value {
    parse_redis_value(rt.alloc(), bytes).expect(rt, "a reply")
}

/// What the reply converts to, by move and borrowed.
pub fn both<T: FromRedisValue>(rt: &impl Test, bytes: &[u8]) -> (T, T) {
    let value = reply(rt, bytes);
    let borrowed: T = from_redis_value_ref(rt.alloc(), &value).expect(rt, "no refusal");
    let moved: T = from_redis_value(rt.alloc(), value).expect(rt, "no refusal");
    (moved, borrowed)
}
