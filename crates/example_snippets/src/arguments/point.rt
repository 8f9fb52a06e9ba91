//! A type that writes its fields one after another.

ghost use Rattle.std.specs.Prelude.{◌≡◌, [], ◌∷◌};
ghost use Rattle.std.specs.Fmt.{signed_decimal};

use resp_core::{NumericBehavior, RedisResult, RedisWrite, ToRedisArgs};

/// A point of a plane: two arguments, which count for one.
#[derive(Clone, Copy)]
pub struct Point {
    /// How far to the right.
    pub x: i64,
    /// How far up.
    pub y: i64,
}

impl ToRedisArgs for Point {
    ghost gives = { λ p args. args ≡ signed_decimal p.x ∷ signed_decimal p.y ∷ [] };

    fn write_redis_args<W: RedisWrite>(&self, out: &mut W) -> RedisResult<()> {
        self.x.write_redis_args(out)?;
        self.y.write_redis_args(out)
    }

    fn write_args_from_slice<W: RedisWrite>(items: &[Self], out: &mut W) -> RedisResult<()> {
        Self::write_each_arg(items, out)
    }

    fn num_of_args(&self) -> usize {
        1
    }

    fn describe_numeric_behavior(&self) -> NumericBehavior {
        NumericBehavior::NonNumeric
    }

    fn is_single_vec_arg(items: &[Self]) -> bool {
        items.len() == 1
    }
}
