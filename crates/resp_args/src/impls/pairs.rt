//! A pair of a map.

ghost use Rattle.resp_args.specs.Args.{Writes, GivesPair, RefusesPair, FailsPair};
ghost use Rattle.resp_args.specs.Kept.{Stays};

use crate::args::ToRedisArgs;
use crate::write::RedisWrite;
use resp_errors::{ErrorKind, RedisError, RedisResult};

/// Appends a pair's arguments. Fails with kind `Client` where the key or the value counts for more
/// than one argument, and then appends nothing; and where the key or the value is refused.
pub(super) fn write_pair<K: ToRedisArgs, V: ToRedisArgs, W: RedisWrite>(
    key: &K,
    value: &V,
    out: &mut W,
) -> RedisResult<()>
    ensures written { Writes (GivesPair K.gives V.gives (key.now, value.now))
        (RefusesPair K.count V.count K.refuses V.refuses (key.now, value.now)) (W.args out.old)
        (W.args out.new) result }
    ensures failed { FailsPair K.count V.count K.gives K.fails V.fails (key.now, value.now)
        (W.args out.old) (W.args out.new) result }
    ensures kept { Stays W.kept out.old out.new }
{
    if key.num_of_args() > 1 || value.num_of_args() > 1 {
        return Err(RedisError::from((
            ErrorKind::Client,
            "map key or value is more than one argument",
        )));
    }
    (key, value).write_redis_args(out)
}
