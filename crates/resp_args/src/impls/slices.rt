//! Slices, arrays and vectors are written as their items, those of bytes as one argument. They are
//! refused at the first item that is refused; those before it are written whole.

ghost use Rattle.std.specs.Prelude.{◌≡◌};
ghost use Rattle.resp_args.specs.Args.{GivesSlice, RefusesSlice, FailsSlice, count_of_slice};
ghost use Rattle.resp_args.specs.Args.{GivesOne};

use crate::args::{NumericBehavior, ToRedisArgs};
use crate::write::RedisWrite;
use resp_errors::RedisResult;
use std::borrow::CowSlice;
use std::boxed::BoxedSlice;
use std::rc::RcSlice;

/// How many arguments a slice counts for: one where it counts as a single argument, as many as its
/// item where it has one, and else its length.
fn num_of_slice_args<T: ToRedisArgs>(items: &[T]) -> usize
    ensures { result ≡ count_of_slice T.slices T.count items.now }
{
    if T::is_single_vec_arg(items) {
        return 1;
    }
    match items {
        [item] => item.num_of_args(),
        _ => items.len(),
    }
}

impl<T: ToRedisArgs> ToRedisArgs for &[T] {
    ghost gives = { λ s. GivesSlice T.slices T.gives s.now };

    ghost refuses = { λ s. RefusesSlice T.slices T.refuses s.now };

    ghost fails = { λ s. FailsSlice T.slices T.gives T.refuses T.fails s.now };

    ghost count = { λ s. count_of_slice T.slices T.count s.now };

    fn write_redis_args<W: RedisWrite>(&self, out: &mut W) -> RedisResult<()> {
        T::write_args_from_slice(self, out)
    }

    fn write_args_from_slice<W: RedisWrite>(items: &[Self], out: &mut W) -> RedisResult<()> {
        Self::write_each_arg(items, out)
    }

    fn num_of_args(&self) -> usize {
        num_of_slice_args(self)
    }

    fn describe_numeric_behavior(&self) -> NumericBehavior {
        NumericBehavior::NonNumeric
    }

    fn is_single_vec_arg(items: &[Self]) -> bool {
        match items {
            [item] => item.num_of_args() <= 1,
            _ => false,
        }
    }
}

impl<T: ToRedisArgs> ToRedisArgs for &mut [T] {
    ghost gives = { λ s. GivesSlice T.slices T.gives s.now };

    ghost refuses = { λ s. RefusesSlice T.slices T.refuses s.now };

    ghost fails = { λ s. FailsSlice T.slices T.gives T.refuses T.fails s.now };

    ghost count = { λ s. count_of_slice T.slices T.count s.now };

    fn write_redis_args<W: RedisWrite>(&self, out: &mut W) -> RedisResult<()> {
        T::write_args_from_slice(self, out)
    }

    fn write_args_from_slice<W: RedisWrite>(items: &[Self], out: &mut W) -> RedisResult<()> {
        Self::write_each_arg(items, out)
    }

    fn num_of_args(&self) -> usize {
        num_of_slice_args(self)
    }

    fn describe_numeric_behavior(&self) -> NumericBehavior {
        NumericBehavior::NonNumeric
    }

    fn is_single_vec_arg(items: &[Self]) -> bool {
        match items {
            [item] => item.num_of_args() <= 1,
            _ => false,
        }
    }
}

impl<T: ToRedisArgs, const N: usize> ToRedisArgs for &[T; N] {
    ghost gives = { λ s. GivesSlice T.slices T.gives s.now };

    ghost refuses = { λ s. RefusesSlice T.slices T.refuses s.now };

    ghost fails = { λ s. FailsSlice T.slices T.gives T.refuses T.fails s.now };

    ghost count = { λ s. count_of_slice T.slices T.count s.now };

    fn write_redis_args<W: RedisWrite>(&self, out: &mut W) -> RedisResult<()> {
        T::write_args_from_slice(self.as_slice(), out)
    }

    fn write_args_from_slice<W: RedisWrite>(items: &[Self], out: &mut W) -> RedisResult<()> {
        Self::write_each_arg(items, out)
    }

    fn num_of_args(&self) -> usize {
        num_of_slice_args(self.as_slice())
    }

    fn describe_numeric_behavior(&self) -> NumericBehavior {
        NumericBehavior::NonNumeric
    }

    fn is_single_vec_arg(items: &[Self]) -> bool {
        match items {
            [item] => item.num_of_args() <= 1,
            _ => false,
        }
    }
}

impl<T: ToRedisArgs> ToRedisArgs for Vec<T> {
    ghost gives = { λ s. GivesSlice T.slices T.gives s.items };

    ghost refuses = { λ s. RefusesSlice T.slices T.refuses s.items };

    ghost fails = { λ s. FailsSlice T.slices T.gives T.refuses T.fails s.items };

    ghost count = { λ s. count_of_slice T.slices T.count s.items };

    fn write_redis_args<W: RedisWrite>(&self, out: &mut W) -> RedisResult<()> {
        T::write_args_from_slice(self.as_slice(), out)
    }

    fn write_args_from_slice<W: RedisWrite>(items: &[Self], out: &mut W) -> RedisResult<()> {
        Self::write_each_arg(items, out)
    }

    fn num_of_args(&self) -> usize {
        num_of_slice_args(self.as_slice())
    }

    fn describe_numeric_behavior(&self) -> NumericBehavior {
        NumericBehavior::NonNumeric
    }

    fn is_single_vec_arg(items: &[Self]) -> bool {
        match items {
            [item] => item.num_of_args() <= 1,
            _ => false,
        }
    }
}

impl<T: ToRedisArgs> ToRedisArgs for BoxedSlice<T> {
    ghost use Rattle.std.specs.Box.{boxed_slice_items};

    ghost gives = { λ s. GivesSlice T.slices T.gives (boxed_slice_items s) };

    ghost refuses = { λ s. RefusesSlice T.slices T.refuses (boxed_slice_items s) };

    ghost fails = { λ s. FailsSlice T.slices T.gives T.refuses T.fails (boxed_slice_items s) };

    ghost count = { λ s. count_of_slice T.slices T.count (boxed_slice_items s) };

    fn write_redis_args<W: RedisWrite>(&self, out: &mut W) -> RedisResult<()> {
        T::write_args_from_slice(self.as_slice(), out)
    }

    fn write_args_from_slice<W: RedisWrite>(items: &[Self], out: &mut W) -> RedisResult<()> {
        Self::write_each_arg(items, out)
    }

    fn num_of_args(&self) -> usize {
        num_of_slice_args(self.as_slice())
    }

    fn describe_numeric_behavior(&self) -> NumericBehavior {
        NumericBehavior::NonNumeric
    }

    fn is_single_vec_arg(items: &[Self]) -> bool {
        match items {
            [item] => item.num_of_args() <= 1,
            _ => false,
        }
    }
}

impl<T: ToRedisArgs> ToRedisArgs for RcSlice<T> {
    ghost use Rattle.std.specs.Rc.{rc_slice_items};

    ghost gives = { λ s. GivesSlice T.slices T.gives (rc_slice_items s) };

    ghost refuses = { λ s. RefusesSlice T.slices T.refuses (rc_slice_items s) };

    ghost fails = { λ s. FailsSlice T.slices T.gives T.refuses T.fails (rc_slice_items s) };

    ghost count = { λ s. count_of_slice T.slices T.count (rc_slice_items s) };

    fn write_redis_args<W: RedisWrite>(&self, out: &mut W) -> RedisResult<()> {
        T::write_args_from_slice(self.as_slice(), out)
    }

    fn write_args_from_slice<W: RedisWrite>(items: &[Self], out: &mut W) -> RedisResult<()> {
        Self::write_each_arg(items, out)
    }

    fn num_of_args(&self) -> usize {
        num_of_slice_args(self.as_slice())
    }

    fn describe_numeric_behavior(&self) -> NumericBehavior {
        NumericBehavior::NonNumeric
    }

    fn is_single_vec_arg(items: &[Self]) -> bool {
        match items {
            [item] => item.num_of_args() <= 1,
            _ => false,
        }
    }
}

impl ToRedisArgs for CowSlice<'_, u8> {
    ghost use Rattle.std.specs.Cow.{cow_slice_items};

    ghost gives = { GivesOne cow_slice_items };

    fn write_redis_args<W: RedisWrite>(&self, out: &mut W) -> RedisResult<()> {
        out.write_arg(self.as_slice())
    }

    fn write_args_from_slice<W: RedisWrite>(items: &[Self], out: &mut W) -> RedisResult<()> {
        Self::write_each_arg(items, out)
    }

    fn num_of_args(&self) -> usize {
        1
    }

    fn describe_numeric_behavior(&self) -> NumericBehavior {
        NumericBehavior::NonNumeric
    }

    fn is_single_vec_arg(items: &[Self]) -> bool {
        items.len() == 1
    }
}
