//! A type that is written as the vector it holds.

use crate::arguments::point::Point;
use resp_core::{NumericBehavior, RedisResult, RedisWrite, ToRedisArgs};

/// A path: its points, in order.
#[derive(Drop)]
pub struct Path {
    /// Its points.
    pub points: Vec<Point>,
}

impl ToRedisArgs for Path {
    ghost gives = { λ p. ⟦<Vec<Point> as ToRedisArgs>⟧.gives p.points };

    ghost count = { λ p. ⟦<Vec<Point> as ToRedisArgs>⟧.count p.points };

    fn write_redis_args<W: RedisWrite>(&self, out: &mut W) -> RedisResult<()> {
        self.points.write_redis_args(out)
    }

    fn write_args_from_slice<W: RedisWrite>(items: &[Self], out: &mut W) -> RedisResult<()> {
        Self::write_each_arg(items, out)
    }

    fn num_of_args(&self) -> usize {
        self.points.num_of_args()
    }

    fn describe_numeric_behavior(&self) -> NumericBehavior {
        NumericBehavior::NonNumeric
    }

    fn is_single_vec_arg(items: &[Self]) -> bool {
        match items {
            [item] => item.num_of_args() <= 1,
            _ => false,
        }
    }
}
