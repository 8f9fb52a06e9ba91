//! Own types out of replies.

use crate::checks::{Test, reply};
use example_snippets::replies::{Point, Scored};
use resp_core::{FromRedisValue, from_redis_value};

/// The reply as a value of the type, if it is one.
fn read<T: FromRedisValue>(rt: &impl Test, bytes: &[u8]) -> Option<T> {
    from_redis_value(rt.alloc(), reply(rt, bytes)).ok()
}

#[test]
fn points_and_scores(rt: HostRuntime) {
    for (bytes, wanted) in [
        (
            b"*2\r\n:3\r\n$2\r\n-4\r\n".as_slice(),
            Some(Point { x: 3, y: -4 }),
        ),
        (b"*3\r\n:3\r\n:4\r\n:5\r\n", None),
        (b"-ERR x\r\n", None),
    ] {
        assert!(rt; read::<Point>(&rt, bytes) == wanted, "{bytes:?}");
    }
    let pair = read::<Vec<Point>>(&rt, b"*2\r\n*2\r\n:1\r\n:2\r\n*2\r\n:3\r\n:4\r\n");
    assert_eq!(rt; pair.map(|points| points.len()), Some(2));
    assert!(rt; matches!(read::<Option<Point>>(&rt, b"_\r\n"), Some(None)));
    let scored = read::<Scored>(&rt, b"*2\r\n$3\r\nann\r\n:7\r\n").expect(&rt, "a score");
    assert_eq!(rt; (scored.name.as_str(), scored.score), ("ann", 7));
}
