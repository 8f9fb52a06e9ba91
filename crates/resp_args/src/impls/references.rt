//! Optional values, references and owners are written as what they hold.

ghost use Rattle.resp_args.specs.Args.{GivesOption, RefusesOption, FailsOption, count_of_option};
ghost use Rattle.resp_args.specs.Args.{behaviour_of_option};

use crate::args::{NumericBehavior, ToRedisArgs};
use crate::write::RedisWrite;
use resp_errors::RedisResult;
use std::rc::Rc;

/// `None` gives no argument.
impl<T: ToRedisArgs> ToRedisArgs for Option<T> {
    ghost gives = { GivesOption T.gives };

    ghost refuses = { RefusesOption T.refuses };

    ghost fails = { FailsOption T.fails };

    ghost count = { count_of_option T.count };

    ghost behaviour = { behaviour_of_option T.behaviour };

    fn write_redis_args<W: RedisWrite>(&self, out: &mut W) -> RedisResult<()> {
        match self {
            Some(item) => item.write_redis_args(out),
            None => Ok(()),
        }
    }

    fn write_args_from_slice<W: RedisWrite>(items: &[Self], out: &mut W) -> RedisResult<()> {
        Self::write_each_arg(items, out)
    }

    fn num_of_args(&self) -> usize {
        match self {
            Some(item) => item.num_of_args(),
            None => 0,
        }
    }

    fn describe_numeric_behavior(&self) -> NumericBehavior {
        match self {
            Some(item) => item.describe_numeric_behavior(),
            None => NumericBehavior::NonNumeric,
        }
    }

    fn is_single_vec_arg(items: &[Self]) -> bool {
        match items {
            [item] => item.num_of_args() <= 1,
            _ => false,
        }
    }
}

impl<T: ToRedisArgs> ToRedisArgs for &T {
    ghost gives = { λ x. T.gives x.now };

    ghost refuses = { λ x. T.refuses x.now };

    ghost fails = { λ x. T.fails x.now };

    ghost count = { λ x. T.count x.now };

    ghost behaviour = { λ x. T.behaviour x.now };

    fn write_redis_args<W: RedisWrite>(&self, out: &mut W) -> RedisResult<()> {
        (**self).write_redis_args(out)
    }

    fn write_args_from_slice<W: RedisWrite>(items: &[Self], out: &mut W) -> RedisResult<()> {
        Self::write_each_arg(items, out)
    }

    fn num_of_args(&self) -> usize {
        (**self).num_of_args()
    }

    fn describe_numeric_behavior(&self) -> NumericBehavior {
        (**self).describe_numeric_behavior()
    }

    fn is_single_vec_arg(items: &[Self]) -> bool {
        match items {
            [item] => item.num_of_args() <= 1,
            _ => false,
        }
    }
}

impl<T: ToRedisArgs> ToRedisArgs for &mut T {
    ghost gives = { λ x. T.gives x.now };

    ghost refuses = { λ x. T.refuses x.now };

    ghost fails = { λ x. T.fails x.now };

    ghost count = { λ x. T.count x.now };

    ghost behaviour = { λ x. T.behaviour x.now };

    fn write_redis_args<W: RedisWrite>(&self, out: &mut W) -> RedisResult<()> {
        (**self).write_redis_args(out)
    }

    fn write_args_from_slice<W: RedisWrite>(items: &[Self], out: &mut W) -> RedisResult<()> {
        Self::write_each_arg(items, out)
    }

    fn num_of_args(&self) -> usize {
        (**self).num_of_args()
    }

    fn describe_numeric_behavior(&self) -> NumericBehavior {
        (**self).describe_numeric_behavior()
    }

    fn is_single_vec_arg(items: &[Self]) -> bool {
        match items {
            [item] => item.num_of_args() <= 1,
            _ => false,
        }
    }
}

impl<T: ToRedisArgs> ToRedisArgs for Box<T> {
    ghost gives = { λ x. T.gives x.value };

    ghost refuses = { λ x. T.refuses x.value };

    ghost fails = { λ x. T.fails x.value };

    ghost count = { λ x. T.count x.value };

    ghost behaviour = { λ x. T.behaviour x.value };

    fn write_redis_args<W: RedisWrite>(&self, out: &mut W) -> RedisResult<()> {
        (**self).write_redis_args(out)
    }

    fn write_args_from_slice<W: RedisWrite>(items: &[Self], out: &mut W) -> RedisResult<()> {
        Self::write_each_arg(items, out)
    }

    fn num_of_args(&self) -> usize {
        (**self).num_of_args()
    }

    fn describe_numeric_behavior(&self) -> NumericBehavior {
        (**self).describe_numeric_behavior()
    }

    fn is_single_vec_arg(items: &[Self]) -> bool {
        match items {
            [item] => item.num_of_args() <= 1,
            _ => false,
        }
    }
}

impl<T: ToRedisArgs> ToRedisArgs for Rc<T> {
    ghost gives = { λ x. T.gives x.value };

    ghost refuses = { λ x. T.refuses x.value };

    ghost fails = { λ x. T.fails x.value };

    ghost count = { λ x. T.count x.value };

    ghost behaviour = { λ x. T.behaviour x.value };

    fn write_redis_args<W: RedisWrite>(&self, out: &mut W) -> RedisResult<()> {
        (**self).write_redis_args(out)
    }

    fn write_args_from_slice<W: RedisWrite>(items: &[Self], out: &mut W) -> RedisResult<()> {
        Self::write_each_arg(items, out)
    }

    fn num_of_args(&self) -> usize {
        (**self).num_of_args()
    }

    fn describe_numeric_behavior(&self) -> NumericBehavior {
        (**self).describe_numeric_behavior()
    }

    fn is_single_vec_arg(items: &[Self]) -> bool {
        match items {
            [item] => item.num_of_args() <= 1,
            _ => false,
        }
    }
}
