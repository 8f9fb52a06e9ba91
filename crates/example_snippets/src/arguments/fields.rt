//! A type that is refused where the map it holds is.

use resp_core::{NumericBehavior, RedisResult, RedisWrite, ToRedisArgs};
use std::collections::BTreeMap;

/// The fields of a hash, each with its values: refused where a field has several.
#[derive(Drop)]
pub struct Fields {
    /// The values of each field.
    pub values: BTreeMap<String, Vec<i64>>,
}

impl ToRedisArgs for Fields {
    ghost gives = { λ f. ⟦<BTreeMap<String, Vec<i64>> as ToRedisArgs>⟧.gives f.values };

    ghost refuses = { λ f. ⟦<BTreeMap<String, Vec<i64>> as ToRedisArgs>⟧.refuses f.values };

    fn write_redis_args<W: RedisWrite>(&self, out: &mut W) -> RedisResult<()> {
        self.values.write_redis_args(out)
    }

    fn write_args_from_slice<W: RedisWrite>(items: &[Self], out: &mut W) -> RedisResult<()> {
        Self::write_each_arg(items, out)
    }

    fn num_of_args(&self) -> usize {
        1
    }

    fn describe_numeric_behavior(&self) -> NumericBehavior {
        NumericBehavior::NonNumeric
    }

    fn is_single_vec_arg(items: &[Self]) -> bool {
        items.len() == 1
    }
}
