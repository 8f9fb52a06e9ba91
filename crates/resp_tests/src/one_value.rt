//! A reply of which both conversions give one value.

ghost use Rattle.std.specs.Prelude.{◌≡◌, IfOk};

use crate::checks::assert_answer;
use resp_core::{FromRedisValue, RedisResult, parse_redis_value};
use resp_laws::{SingleValued, law_of_one_value};
use std::alloc::Global;

/// What a reply converts to when it is borrowed, and when it is moved: they look the same.
fn borrowed_and_moved<T: SingleValued>(alloc: Global, reply: &[u8]) -> RedisResult<(T, T)>
    ensures alike { IfOk result (λ both. T.seen both.0 ≡ T.seen both.1) }
{
    law_of_one_value::<T>();
    let reply = parse_redis_value(alloc, reply)?;
    let borrowed = T::from_redis_value_ref(alloc, &reply)?;
    let moved = T::from_redis_value(alloc, reply)?;
    Ok((borrowed, moved))
}

#[test]
fn a_reply_is_one_value_of_a_type(rt: HostRuntime) {
    let reply = b"*2\r\n*1\r\n*2\r\n:1\r\n+a\r\n#t\r\n";
    let both = borrowed_and_moved::<(Vec<(i64, String)>, Option<bool>)>(rt.alloc(), reply);
    let wanted = "(([(1, \"a\")], Some(true)), ([(1, \"a\")], Some(true)))";
    assert_answer(&rt, both, wanted);
}
