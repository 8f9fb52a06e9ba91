//! Laws of every conversion, and of what scalars are written as.

ghost use Rattle.std.specs.Prelude.{◌≡◌, ⊤, FitsSigned, Result, string_bytes};
ghost use Rattle.std.specs.List.{AllByRecursion};
ghost use Rattle.std.specs.Str.{IsUtf8};
ghost use Rattle.std.specs.Int.{w8, w16, w32, w64, w128};
ghost use Rattle.resp_from.specs.Conversion.{Converts};
ghost use Rattle.resp_laws.specs.Laws.{Agree, ConvertAlike, FitsUnsigned, ReadsBack};
ghost use Rattle.resp_laws.specs.Laws.{SameEntries, SameMembers};
ghost use Rattle.resp_errors.specs.declared.parsing_error.ParsingError.{ParsingError};
ghost use Rattle.resp_value.specs.declared.value.Value.{Value};

use crate::single_valued::{SingleKey, SingleValued};
use resp_args::ToRedisArgs;
use resp_from::FromRedisValue;
use std::collections::{HashMap, HashSet};
use std::hash::Hash;

/// Two conversions of one reply agree, such as an owned and a borrowed one: both give values of the
/// reply, or both refuse; unless memory ran out.
///
/// Whether the values are equal is said by [`law_of_equal_conversions`], and of hashed containers by
/// [`law_of_hashed_maps`] and [`law_of_hashed_sets`].
#[tactic(auto, using(crate::proofs::OwnedAndBorrowed::agreeing))]
pub fn law_of_owned_and_borrowed<T: FromRedisValue>()
    ensures agree { (reply : Value) (owned borrowed : Result T ParsingError)
        → Converts (T.of_value reply) owned → Converts (T.of_value reply) borrowed
        → Agree (T.of_value reply) owned borrowed }
{}

/// Two conversions of one reply give values that look the same, or both refuse; unless memory ran
/// out.
pub fn law_of_equal_conversions<T: SingleValued>()
    ensures equal { ConvertAlike T.of_value (λ x y. T.seen x ≡ T.seen y) }
{}

/// Two conversions of one reply to hashed maps give the same entries, in any order, or both refuse;
/// unless memory ran out. Each key has values that look the same, or none in either.
pub fn law_of_hashed_maps<K: SingleKey + Hash, V: SingleValued>()
    ensures equal { ConvertAlike ⟦<HashMap<K, V> as FromRedisValue>⟧.of_value
        (λ m n. SameEntries K.eq V.seen m.entries n.entries) }
{}

/// Two conversions of one reply to hashed sets give the same members, in any order, or both refuse;
/// unless memory ran out.
pub fn law_of_hashed_sets<T: SingleKey + Hash>()
    ensures equal { ConvertAlike ⟦<HashSet<T> as FromRedisValue>⟧.of_value
        (λ s t. SameMembers T.eq s.keys t.keys) }
{}

/// A scalar is written as one argument, and converts back from it as a bulk string: each integer in
/// its type's range, truth values, texts and bytes.
pub fn law_of_written_scalars()
    ensures of_i8 { ReadsBack (FitsSigned w8) ⟦<i8 as ToRedisArgs>⟧.gives
        ⟦<i8 as FromRedisValue>⟧.of_value }
    ensures of_i16 { ReadsBack (FitsSigned w16) ⟦<i16 as ToRedisArgs>⟧.gives
        ⟦<i16 as FromRedisValue>⟧.of_value }
    ensures of_i32 { ReadsBack (FitsSigned w32) ⟦<i32 as ToRedisArgs>⟧.gives
        ⟦<i32 as FromRedisValue>⟧.of_value }
    ensures of_i64 { ReadsBack (FitsSigned w64) ⟦<i64 as ToRedisArgs>⟧.gives
        ⟦<i64 as FromRedisValue>⟧.of_value }
    ensures of_i128 { ReadsBack (FitsSigned w128) ⟦<i128 as ToRedisArgs>⟧.gives
        ⟦<i128 as FromRedisValue>⟧.of_value }
    ensures of_isize { ReadsBack (FitsSigned w64) ⟦<isize as ToRedisArgs>⟧.gives
        ⟦<isize as FromRedisValue>⟧.of_value }
    ensures of_u8 { ReadsBack (FitsUnsigned 8) ⟦<u8 as ToRedisArgs>⟧.gives
        ⟦<u8 as FromRedisValue>⟧.of_value }
    ensures of_u16 { ReadsBack (FitsUnsigned 16) ⟦<u16 as ToRedisArgs>⟧.gives
        ⟦<u16 as FromRedisValue>⟧.of_value }
    ensures of_u32 { ReadsBack (FitsUnsigned 32) ⟦<u32 as ToRedisArgs>⟧.gives
        ⟦<u32 as FromRedisValue>⟧.of_value }
    ensures of_u64 { ReadsBack (FitsUnsigned 64) ⟦<u64 as ToRedisArgs>⟧.gives
        ⟦<u64 as FromRedisValue>⟧.of_value }
    ensures of_u128 { ReadsBack (FitsUnsigned 128) ⟦<u128 as ToRedisArgs>⟧.gives
        ⟦<u128 as FromRedisValue>⟧.of_value }
    ensures of_usize { ReadsBack (FitsUnsigned 64) ⟦<usize as ToRedisArgs>⟧.gives
        ⟦<usize as FromRedisValue>⟧.of_value }
    ensures of_bool { ReadsBack (λ _. ⊤) ⟦<bool as ToRedisArgs>⟧.gives
        ⟦<bool as FromRedisValue>⟧.of_value }
    ensures of_string { ReadsBack (λ x. IsUtf8 (string_bytes x)) ⟦<String as ToRedisArgs>⟧.gives
        ⟦<String as FromRedisValue>⟧.of_value }
    ensures of_bytes { ReadsBack (λ x. AllByRecursion (FitsUnsigned 8) x.items)
        ⟦<Vec<u8> as ToRedisArgs>⟧.gives ⟦<Vec<u8> as FromRedisValue>⟧.of_value }
{}
