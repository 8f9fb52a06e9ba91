//! A struct that takes its fields one by one and refuses any other, and one with a list of it.

ghost use Rattle.std.specs.Prelude.{◌≡◌, ◌∷◌, [], codes};
ghost use Rattle.resp_core.specs.Replies.{OfFields, OfVia, OfRow, Field, NoOthers};

use resp_core::{
    Fields, FromFields, FromRedisValue, ParsingError, Value, from_redis_fields,
    from_redis_fields_by,
};
use std::alloc::Global;

/// A point of a plane.
#[derive(Clone, Copy, PartialEq, Eq, Debug)]
pub struct Point {
    /// How far to the right.
    pub x: i64,
    /// How far up.
    pub y: i64,
}

impl FromFields for Point {
    ghost of_fields = { λ fields p. Field (codes "x") ⟦<i64 as FromRedisValue>⟧.of_value p.x
        (Field (codes "y") ⟦<i64 as FromRedisValue>⟧.of_value p.y NoOthers) fields };

    fn from_fields(alloc: Global, fields: &mut Fields) -> Result<Point, ParsingError> {
        let point = Point {
            x: fields.take(alloc, "x")?,
            y: fields.take(alloc, "y")?,
        };
        if !fields.is_empty() {
            return Err(ParsingError::from("unknown field"));
        }
        Ok(point)
    }
}

impl FromRedisValue for Point {
    const WIDTH: usize = 0;

    const BYTES: bool = false;

    ghost of_value = { OfVia OfFields ⟦<Point as FromFields>⟧.of_fields };

    fn from_redis_value(alloc: Global, value: Value) -> Result<Point, ParsingError> {
        from_redis_fields(alloc, value)
    }
}

/// Points, one after another.
#[derive(Debug, Drop)]
pub struct Path {
    /// Its name.
    pub name: String,
    /// Its points.
    pub points: Vec<Point>,
    /// Where it begins, if that is known.
    pub start: Option<Point>,
}

type Row = (String, Vec<Point>, Option<Point>);

impl From<Row> for Path {
    ghost from_gives = { λ t p. p ≡ record { name = t.0; points = t.1; start = t.2 } };

    fn from((name, points, start): Row) -> Path {
        Path {
            name,
            points,
            start,
        }
    }
}

impl FromRedisValue for Path {
    const WIDTH: usize = 0;

    const BYTES: bool = false;

    ghost of_value = { OfRow (codes "name" ∷ codes "points" ∷ []) (codes "start" ∷ [])
        (OfVia ⟦<Row as FromRedisValue>⟧.of_value ⟦<Path as From<Row>>⟧.from_gives) };

    fn from_redis_value(alloc: Global, value: Value) -> Result<Path, ParsingError> {
        from_redis_fields_by::<Row, Path>(alloc, value, &["name", "points"], &["start"])
    }
}
