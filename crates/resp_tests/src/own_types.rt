//! Types of a caller: a word whose case nobody sees, and an argument of two parts.

ghost use Rattle.std.specs.Prelude.{◌≡◌, [], ◌∷◌};
ghost use Rattle.resp_core.specs.Replies.{OfVia};

use crate::checks::{assert_made_args, both};
use resp_core::{
    FromRedisValue, NumericBehavior, ParsingError, RedisResult, RedisWrite, ToRedisArgs, Value,
    from_redis_value_by,
};
use std::alloc::Global;
use std::collections::{BTreeMap, BTreeSet, HashMap, HashSet};

/// A word that doesn't see the case of its letters, and its first byte as it came.
#[derive(Drop)]
#[derive_where(PartialEq, Eq, PartialOrd, Ord, Hash)]
struct Word {
    folded: String,
    #[derive_where(skip)]
    first: u8,
}

impl From<String> for Word {
    ghost from_gives = { λ _ _. Unit {0} };

    fn from(mut text: String) -> Word {
        let first = text.as_bytes().first().copied().unwrap_or(0);
        text.make_ascii_lowercase();
        Word {
            folded: text,
            first,
        }
    }
}

impl FromRedisValue for Word {
    const WIDTH: usize = 0;

    const BYTES: bool = false;

    ghost of_value = { OfVia ⟦<String as FromRedisValue>⟧.of_value
        ⟦<Word as From<String>>⟧.from_gives };

    fn from_redis_value(alloc: Global, value: Value) -> Result<Word, ParsingError> {
        from_redis_value_by::<String, Word>(alloc, value)
    }
}

/// A reply whose keys are one word.
const ONE_KEY: &[u8] = b"*4\r\n+A\r\n:1\r\n+a\r\n:2\r\n";

#[test]
fn of_equal_keys_the_first_stays_with_the_last_value(rt: HostRuntime) {
    let (sorted, _): (BTreeMap<Word, i64>, _) = both(&rt, ONE_KEY);
    let keeps = sorted.iter().all(|(word, n)| word.first == b'A' && *n == 2);
    assert!(rt; sorted.len() == 1 && keeps);
    let (hashed, _): (HashMap<Word, i64>, _) = both(&rt, ONE_KEY);
    let keeps = hashed.iter().all(|(word, n)| word.first == b'A' && *n == 2);
    assert!(rt; hashed.len() == 1 && keeps);
}

/// Members that are one word.
const ONE_MEMBER: &[u8] = b"~2\r\n+A\r\n+a\r\n";

#[test]
fn of_equal_members_the_first_stays(rt: HostRuntime) {
    let (sorted, _): (BTreeSet<Word>, _) = both(&rt, ONE_MEMBER);
    assert!(rt; sorted.len() == 1 && sorted.iter().all(|word| word.first == b'A'));
    let (hashed, _): (HashSet<Word>, _) = both(&rt, ONE_MEMBER);
    assert!(rt; hashed.len() == 1 && hashed.iter().all(|word| word.first == b'A'));
}

/// Two arguments that count for one.
#[derive(Clone, Copy)]
struct Two;

impl ToRedisArgs for Two {
    ghost gives = { λ _ args. args ≡ (120 ∷ []) ∷ (121 ∷ []) ∷ [] };

    fn write_redis_args<W: RedisWrite>(&self, out: &mut W) -> RedisResult<()> {
        out.write_arg(b"x")?;
        out.write_arg(b"y")
    }

    fn write_args_from_slice<W: RedisWrite>(items: &[Self], out: &mut W) -> RedisResult<()> {
        Self::write_each_arg(items, out)
    }

    fn num_of_args(&self) -> usize {
        1
    }

    fn describe_numeric_behavior(&self) -> NumericBehavior {
        NumericBehavior::NonNumeric
    }

    fn is_single_vec_arg(items: &[Self]) -> bool {
        items.len() == 1
    }
}

#[test]
fn a_value_of_two_arguments_that_counts_for_one(rt: HostRuntime) {
    each! { assert_made_args, rt;
        BTreeMap::from_array(rt.alloc(), [("k", Two)]) => "1:k 1:x 1:y (1)",
        HashMap::from_array(rt.alloc(), [("k", Two)]) => "1:k 1:x 1:y (1)",
    }
}
