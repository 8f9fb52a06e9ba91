//! Types of which a reply is one value at most.

mod commands;
mod fields;
mod integers;
mod lists;
mod maps;
mod scalars;
mod tuples;
mod wrappers;

ghost use Rattle.resp_types.specs.OneValue.{GoesBySeen, IsSingleValued};

use resp_from::FromRedisValue;

/// A type of which a reply is one value at most, up to where its memory lies.
///
/// Two values of one reply look the same, which `seen` says: of a scalar it is the value, of a text
/// its bytes, of a box what is inside, of a list, a tuple, a sorted map or a sorted set what its
/// items look like. A hashed map or set is no such type, since it keeps its entries in any order.
pub trait SingleValued: FromRedisValue {
    ghost Seen: { Type 0 };

    // What a value looks like.
    ghost seen: { Self → Seen };

    ghost single: { IsSingleValued Self.of_value seen };
}

/// A type whose order depends on no more than what its values look like, so that sorted maps and
/// sets of one reply hold their keys alike.
pub trait SingleKey: SingleValued + Ord {
    ghost goes_by_seen: { GoesBySeen Self.cmp Self.seen };
}

/// A reply is one value of a type at most: two values of it look the same. So an owned and a
/// borrowed conversion, which meet one contract, give values that look the same where both succeed.
pub fn law_of_one_value<T: SingleValued>()
    ensures one { IsSingleValued T.of_value T.seen }
{}
