//! Types of a caller's own that replies convert to, each by way of a tuple.
//!
//! `From` says how the elements make the type, and one line says what a reply is to it. No proof
//! file is needed; an `Option` or a `Vec` of the type then converts too, with its contract. Two
//! lines more say what a value looks like, and that a reply is one at most.

ghost use Rattle.std.specs.Prelude.{◌≡◌};
ghost use Rattle.resp_core.specs.Replies.{OfVia};

use resp_core::{FromRedisValue, ParsingError, Value, from_redis_value_by};
use resp_laws::SingleValued;
use std::alloc::Global;

/// A point of a plane.
#[derive(Clone, Copy, PartialEq, Eq, Debug)]
pub struct Point {
    /// How far to the right.
    pub x: i64,
    /// How far up.
    pub y: i64,
}

impl From<(i64, i64)> for Point {
    ghost from_gives = { λ t p. (p.x ≡ t.0) × (p.y ≡ t.1) };

    fn from((x, y): (i64, i64)) -> Point {
        Point { x, y }
    }
}

impl FromRedisValue for Point {
    const WIDTH: usize = 0;

    const BYTES: bool = false;

    ghost of_value = { OfVia ⟦<(i64, i64) as FromRedisValue>⟧.of_value
        ⟦<Point as From<(i64, i64)>>⟧.from_gives };

    fn from_redis_value(alloc: Global, value: Value) -> Result<Point, ParsingError> {
        from_redis_value_by::<(i64, i64), Point>(alloc, value)
    }
}

impl SingleValued for Point {
    ghost use Rattle.std.specs.Prelude.{ℤ};
    ghost use Rattle.std.specs.Int.{w64};
    ghost use Rattle.resp_laws.specs.OneValue.{last_one, one_and, one_via, one_signed, one_tuple};

    ghost Seen = { ℤ × ℤ };

    ghost seen = { λ p. (p.x, p.y) };

    ghost single = { one_via (λ pair. pair)
        (one_tuple 2 (one_and (one_signed w64) (last_one (one_signed w64))))
        (λ t p made i. (made.0 i, made.1 i)) };
}

/// A member of a sorted set with its score.
#[derive(Drop)]
pub struct Scored {
    /// The member.
    pub name: String,
    /// Its score.
    pub score: i64,
}

impl From<(String, i64)> for Scored {
    ghost from_gives = { λ t s. (s.name ≡ t.0) × (s.score ≡ t.1) };

    fn from((name, score): (String, i64)) -> Scored {
        Scored { name, score }
    }
}

impl FromRedisValue for Scored {
    const WIDTH: usize = 0;

    const BYTES: bool = false;

    ghost of_value = { OfVia ⟦<(String, i64) as FromRedisValue>⟧.of_value
        ⟦<Scored as From<(String, i64)>>⟧.from_gives };

    fn from_redis_value(alloc: Global, value: Value) -> Result<Scored, ParsingError> {
        from_redis_value_by::<(String, i64), Scored>(alloc, value)
    }
}

impl SingleValued for Scored {
    ghost use Rattle.std.specs.Prelude.{ℕ, ℤ, List, string_bytes};
    ghost use Rattle.std.specs.Int.{w64};
    ghost use Rattle.resp_laws.specs.OneValue.{last_one, one_and, one_via, one_signed, one_string};
    ghost use Rattle.resp_laws.specs.OneValue.{one_tuple};

    ghost Seen = { List ℕ × ℤ };

    ghost seen = { λ s. (string_bytes s.name, s.score) };

    ghost single = { one_via (λ pair. pair)
        (one_tuple 2 (one_and one_string (last_one (one_signed w64))))
        (λ t s made i. (string_bytes (made.0 i), made.1 i)) };
}
