//! A type that is written as a slice.

ghost use Rattle.std.specs.Prelude.{◌≡◌, [], ◌∷◌};
ghost use Rattle.std.specs.Fmt.{signed_decimal};

use resp_core::{NumericBehavior, RedisResult, RedisWrite, ToRedisArgs};

/// A range of places in a list, from the first to the last.
#[derive(Clone, Copy)]
pub struct Range {
    /// The first place.
    pub first: i64,
    /// The last place.
    pub last: i64,
}

impl ToRedisArgs for Range {
    ghost gives = { λ r args. args ≡ signed_decimal r.first ∷ signed_decimal r.last ∷ [] };

    ghost count = { λ _. 2 };

    fn write_redis_args<W: RedisWrite>(&self, out: &mut W) -> RedisResult<()> {
        [self.first, self.last].as_slice().write_redis_args(out)
    }

    fn write_args_from_slice<W: RedisWrite>(items: &[Self], out: &mut W) -> RedisResult<()> {
        Self::write_each_arg(items, out)
    }

    fn num_of_args(&self) -> usize {
        2
    }

    fn describe_numeric_behavior(&self) -> NumericBehavior {
        NumericBehavior::NonNumeric
    }

    fn is_single_vec_arg(_items: &[Self]) -> bool {
        false
    }
}
