//! A hashed map is written as its pairs, in some order.

ghost use Rattle.std.specs.Prelude.{length};
ghost use Rattle.std.specs.List.{Any};
ghost use Rattle.resp_args.specs.Args.{Writes, GivesInSomeOrder, GivesPair, RefusesPair};
ghost use Rattle.resp_args.specs.Args.{FailsInSomeOrder, FailsPair};
ghost use Rattle.resp_args.specs.Kept.{Stays};

use super::pairs::write_pair;
use crate::args::{NumericBehavior, ToRedisArgs};
use crate::write::RedisWrite;
use resp_errors::RedisResult;
use std::collections::HashMap;
use std::hash::Hash;

fn write_pairs<K: ToRedisArgs + Eq + Hash, V: ToRedisArgs, W: RedisWrite>(
    pairs: &HashMap<K, V>,
    out: &mut W,
) -> RedisResult<()>
    ensures written { Writes (GivesInSomeOrder (GivesPair K.gives V.gives) pairs.now.entries)
        (Any (RefusesPair K.count V.count K.refuses V.refuses) pairs.now.entries) (W.args out.old)
        (W.args out.new) result }
    ensures failed { FailsInSomeOrder (GivesPair K.gives V.gives)
        (RefusesPair K.count V.count K.refuses V.refuses)
        (FailsPair K.count V.count K.gives K.fails V.fails) pairs.now.entries (W.args out.old)
        (W.args out.new) result }
    ensures kept { Stays W.kept out.old out.new }
{
    for (key, value) in pairs {
        write_pair(key, value, out)?;
    }
    Ok(())
}

/// Written as its pairs, in some order. Refused with kind `Client` at the first pair whose key or
/// value counts for more than one argument, of which nothing is written then, or is itself refused;
/// the pairs before it are written whole.
impl<K: ToRedisArgs + Eq + Hash, V: ToRedisArgs> ToRedisArgs for HashMap<K, V> {
    ghost gives = { λ m. GivesInSomeOrder (GivesPair K.gives V.gives) m.entries };

    ghost refuses = { λ m. Any (RefusesPair K.count V.count K.refuses V.refuses) m.entries };

    ghost fails = { λ m. FailsInSomeOrder (GivesPair K.gives V.gives)
        (RefusesPair K.count V.count K.refuses V.refuses)
        (FailsPair K.count V.count K.gives K.fails V.fails) m.entries };

    ghost count = { λ m. length m.entries };

    fn write_redis_args<W: RedisWrite>(&self, out: &mut W) -> RedisResult<()> {
        write_pairs(self, out)
    }

    fn write_args_from_slice<W: RedisWrite>(items: &[Self], out: &mut W) -> RedisResult<()> {
        Self::write_each_arg(items, out)
    }

    fn num_of_args(&self) -> usize {
        self.len()
    }

    fn describe_numeric_behavior(&self) -> NumericBehavior {
        NumericBehavior::NonNumeric
    }

    fn is_single_vec_arg(items: &[Self]) -> bool {
        match items {
            [item] => item.num_of_args() <= 1,
            _ => false,
        }
    }
}
