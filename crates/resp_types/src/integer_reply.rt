//! Integers with two answers that are no number.

ghost use Rattle.std.specs.Prelude.{◌≡◌, ◌↔◌, IsTrue, MatchOption, FitsSigned, pos};
ghost use Rattle.std.specs.Int.{w64};
ghost use Rattle.resp_from.specs.Conversion.{Decides};
ghost use Rattle.resp_types.specs.IntegerReplies.{number_of};

use resp_from::FromRedisValue;
use resp_from::parts::refuse;
use resp_value::{ParsingError, Value};
use std::alloc::Global;

/// The integer that a command answers, or that there was nothing to do.
#[derive(Clone, PartialEq, Eq, Debug, Drop)]
pub enum IntegerReplyOrNoOp {
    /// The number of the reply.
    IntegerReply(usize),
    /// The key or the field isn't there: -2.
    NotExists,
    /// It is there, but lacks what was asked for, as a time to live: -1.
    ExistsButNotRelevant,
}

impl IntegerReplyOrNoOp {
    /// The integer of the reply; `None` of a number past the greatest `isize`.
    pub fn raw(&self) -> Option<isize>
        ensures { MatchOption result (FitsSigned w64 (number_of self.now) → ⊥)
            (λ n. n ≡ number_of self.now) }
    {
        match self {
            IntegerReplyOrNoOp::IntegerReply(n) => isize::try_from(*n).ok(),
            IntegerReplyOrNoOp::NotExists => Some(-2),
            IntegerReplyOrNoOp::ExistsButNotRelevant => Some(-1),
        }
    }

    /// Whether it is the reply of this integer.
    pub fn eq_isize(&self, other: isize) -> bool
        ensures { IsTrue result ↔ (number_of self.now ≡ other) }
    {
        self.raw() == Some(other)
    }

    /// Whether it is the reply of this number.
    pub fn eq_usize(&self, other: usize) -> bool
        ensures { IsTrue result ↔ (number_of self.now ≡ pos other) }
    {
        match self {
            IntegerReplyOrNoOp::IntegerReply(n) => *n == other,
            _ => false,
        }
    }

    /// Whether it is the reply of this integer.
    pub fn eq_i32(&self, other: i32) -> bool
        ensures { IsTrue result ↔ (number_of self.now ≡ other) }
    {
        self.eq_isize(other as isize)
    }

    /// Whether it is the reply of this number.
    pub fn eq_u32(&self, other: u32) -> bool
        ensures { IsTrue result ↔ (number_of self.now ≡ pos other) }
    {
        self.eq_usize(other as usize)
    }

    fn from_number(number: i64) -> Result<IntegerReplyOrNoOp, ParsingError>
        ensures decides { Decides (λ answer. number_of answer ≡ number) result }
    {
        match number {
            -2 => Ok(IntegerReplyOrNoOp::NotExists),
            -1 => Ok(IntegerReplyOrNoOp::ExistsButNotRelevant),
            _ => match usize::try_from(number) {
                Ok(n) => Ok(IntegerReplyOrNoOp::IntegerReply(n)),
                Err(_) => Err(ParsingError::from("Value should be at least -2")),
            },
        }
    }
}

/// An integer of at least -2. Takes no memory.
impl FromRedisValue for IntegerReplyOrNoOp {
    ghost use Rattle.resp_from.specs.Conversion.{AnyButMemory};
    ghost use Rattle.resp_types.specs.IntegerReplies.{OfIntegerReply};

    const WIDTH: usize = 0;

    const BYTES: bool = false;

    ghost of_value = { OfIntegerReply };

    ghost error_of_value = { AnyButMemory };

    fn from_redis_value(_alloc: Global, value: Value) -> Result<IntegerReplyOrNoOp, ParsingError> {
        match value {
            Value::Int(number) => IntegerReplyOrNoOp::from_number(number),
            other => refuse(other, "Value should be an integer"),
        }
    }
}
