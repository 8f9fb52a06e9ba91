//! Integers of replies.
//!
//! Each type has its impl written out, since a macro of a repository may not write impls.

ghost use Rattle.std.specs.Prelude.{◌≡◌, ℤ, ℕ, List, Bool, IfErr, IfSome, MatchResult, Ok, pos};
ghost use Rattle.std.specs.Result.{IsErrAnd};
ghost use Rattle.std.specs.Str.Parse.{IsNumeral, digits_value};
ghost use Rattle.resp_from.specs.Conversion.{AnyButMemory, Converts, Decides, IsDescribed};
ghost use Rattle.resp_from.specs.Integers.{OfInteger, OfTextBytes};

use crate::attributes::strip_attribute_ref;
use crate::conversion::FromRedisValue;
use crate::digits::few_digits;
use crate::reply::Reply;
use resp_value::{ParsingError, Value};
use std::alloc::Global;
use std::num::{ParseIntError, TryFromIntError};

/// An integer type that replies convert to: which numbers and which texts are its values.
///
/// One impl of [`FromRedisValue`] serves them all. So of a type that has no conversion the compiler
/// says that it isn't this, be it an integer type or not: what it lacks is `FromRedisValue`. There
/// are no floats: take the text of such a reply, as a `String`, or the [`Value`].
pub trait IntegerFromRedisValue: Sized + Drop {
    /// Whether the type is that of bytes.
    const IS_BYTE: bool;

    ghost IS_BYTE: { Bool };

    // Holds of a number and the integer of the type that it is.
    ghost of_number: { ℤ → Self → Type 0 };

    // Holds of a text and the integer of the type that it writes.
    ghost of_text: { List ℕ → Self → Type 0 };

    /// The integer that a number is; refused where it lies outside the type's range.
    fn from_number(number: i64) -> Result<Self, ParsingError>
        ensures decides { Decides (of_number number) result };

    /// The integer that a text writes in decimal; refused where it writes none of the type.
    fn from_text(text: &str) -> Result<Self, ParsingError>
        ensures decides { Decides (of_text text.now) result };

    // Digits alone write the number that they are.
    ghost numerals: { (text : List ℕ) → (x : Self) → IsNumeral 10 text
        → of_number (pos (digits_value 10 text)) x → of_text text x };
}

/// The integer that a few digits alone write; None where it isn't one of the type, and of any other
/// bytes.
fn read_few_digits<T: IntegerFromRedisValue>(bytes: &[u8]) -> Option<T>
    ensures { IfSome result (λ x. OfTextBytes T.of_text bytes.now x) }
{
    let number = few_digits(bytes)? as i64;
    T::from_number(number).ok()
}

/// The integer that bytes write, as text.
fn read_bytes<T: IntegerFromRedisValue>(bytes: &[u8]) -> Result<T, ParsingError>
    ensures decides { Decides (OfTextBytes T.of_text bytes.now) result }
{
    if let Some(number) = read_few_digits(bytes) {
        return Ok(number);
    }
    match std::str::from_utf8(bytes) {
        Ok(text) => T::from_text(text),
        Err(_) => Err(ParsingError::from("Invalid UTF-8")),
    }
}

/// The integer of a number, or of a bulk string of a few digits; None of any other reply, and where
/// it isn't one of the type.
fn plain_integer<T: IntegerFromRedisValue>(value: &Value) -> Option<T>
    ensures { IfSome result (OfInteger T.of_number T.of_text value.now) }
{
    match value {
        Value::Int(number) => T::from_number(*number).ok(),
        Value::BulkString(bytes) => read_few_digits(bytes.as_slice()),
        _ => None,
    }
}

/// The integer of a reply, of whatever type and however it is written.
#[inline(never)]
fn read_integer<T: IntegerFromRedisValue>(value: &Value) -> Result<T, ParsingError>
    ensures decides { Decides (OfInteger T.of_number T.of_text value.now) result }
{
    match strip_attribute_ref(value) {
        Value::Int(number) => T::from_number(i64::from(*number)),
        Value::SimpleString(text) => T::from_text(text.as_str()),
        Value::BulkString(bytes) => read_bytes(bytes.as_slice()),
        _ => Err(ParsingError::from("Response type not convertible to numeric")),
    }
}

/// The integer of a reply; plain ones need no place for an error.
#[inline(always)]
fn integer_of<T: IntegerFromRedisValue>(value: &Value) -> Result<T, ParsingError>
    ensures decides { Decides (OfInteger T.of_number T.of_text value.now) result }
{
    match plain_integer(value) {
        Some(number) => Ok(number),
        None => read_integer(value),
    }
}

/// As [`integer_of`]; not inlined, so that a reply that is a number has no value to drop.
#[inline(never)]
fn written_integer<T: IntegerFromRedisValue>(value: Value) -> Result<T, ParsingError>
    ensures decides { Decides (OfInteger T.of_number T.of_text value) result }
{
    integer_of(&value)
}

/// An integer is the reply's number, or the number that its text writes in decimal: `+`, or for
/// signed types `-`, or no sign, and digits, without white space. At most one attribute is removed.
/// Takes no memory.
impl<T: IntegerFromRedisValue> FromRedisValue for T {
    const WIDTH: usize = 0;

    const BYTES: bool = T::IS_BYTE;

    ghost BYTES = { T.IS_BYTE };

    ghost of_value = { OfInteger T.of_number T.of_text };

    ghost error_of_value = { AnyButMemory };

    ghost reads_tree = { λ _. ⊥ };

    #[tactic(auto, using(crate::proofs::Conversions::decided))]
    fn from_redis_value(_alloc: Global, value: Value) -> Result<T, ParsingError> {
        match value {
            Value::Int(number) => T::from_number(i64::from(number)),
            other => written_integer(other),
        }
    }

    #[tactic(auto, using(crate::proofs::Conversions::decided))]
    fn from_redis_value_ref(_alloc: Global, value: &Value) -> Result<T, ParsingError>
        ensures converts { Converts (OfInteger T.of_number T.of_text value.now) result }
        ensures errors { IfErr result (AnyButMemory value.now) }
    {
        integer_of(value)
    }

    fn from_reply<R: Reply>(alloc: Global, reply: R) -> Result<T, ParsingError> {
        if let Some(number) = reply.as_int() {
            return T::from_number(i64::from(number));
        }
        match reply.as_line() {
            Some(bytes) => read_bytes(bytes),
            None => read_integer(&reply.into_value(alloc)?),
        }
    }
}

/// The integer that a number is, with our own refusal in place of the library's.
fn in_range<T>(number: Result<T, TryFromIntError>) -> Result<T, ParsingError>
    ensures { MatchResult number (λ x. result ≡ Ok x) (λ _. IsErrAnd result IsDescribed) }
{
    match number {
        Ok(number) => Ok(number),
        Err(_) => Err(ParsingError::from("Number out of range")),
    }
}

/// The integer that a text writes, with our own refusal in place of the library's.
fn numeral<T>(number: Result<T, ParseIntError>) -> Result<T, ParsingError>
    ensures { MatchResult number (λ x. result ≡ Ok x) (λ _. IsErrAnd result IsDescribed) }
{
    match number {
        Ok(number) => Ok(number),
        Err(_) => Err(ParsingError::from("Could not convert from string.")),
    }
}

impl IntegerFromRedisValue for i8 {
    ghost use Rattle.std.specs.Prelude.{false};
    ghost use Rattle.std.specs.Int.{w8};
    ghost use Rattle.resp_from.specs.Integers.{SignedNumber, SignedText};
    ghost use Rattle.resp_from.specs.lemmas.Numerals.{signed_numerals};

    const IS_BYTE: bool = false;

    ghost IS_BYTE = { false };

    ghost of_number = { SignedNumber w8 };

    ghost of_text = { SignedText w8 };

    ghost numerals = { signed_numerals w8 };

    fn from_number(number: i64) -> Result<i8, ParsingError> {
        in_range(i8::try_from(number))
    }

    fn from_text(text: &str) -> Result<i8, ParsingError> {
        numeral(text.parse::<i8>())
    }
}

impl IntegerFromRedisValue for i16 {
    ghost use Rattle.std.specs.Prelude.{false};
    ghost use Rattle.std.specs.Int.{w16};
    ghost use Rattle.resp_from.specs.Integers.{SignedNumber, SignedText};
    ghost use Rattle.resp_from.specs.lemmas.Numerals.{signed_numerals};

    const IS_BYTE: bool = false;

    ghost IS_BYTE = { false };

    ghost of_number = { SignedNumber w16 };

    ghost of_text = { SignedText w16 };

    ghost numerals = { signed_numerals w16 };

    fn from_number(number: i64) -> Result<i16, ParsingError> {
        in_range(i16::try_from(number))
    }

    fn from_text(text: &str) -> Result<i16, ParsingError> {
        numeral(text.parse::<i16>())
    }
}

impl IntegerFromRedisValue for i32 {
    ghost use Rattle.std.specs.Prelude.{false};
    ghost use Rattle.std.specs.Int.{w32};
    ghost use Rattle.resp_from.specs.Integers.{SignedNumber, SignedText};
    ghost use Rattle.resp_from.specs.lemmas.Numerals.{signed_numerals};

    const IS_BYTE: bool = false;

    ghost IS_BYTE = { false };

    ghost of_number = { SignedNumber w32 };

    ghost of_text = { SignedText w32 };

    ghost numerals = { signed_numerals w32 };

    fn from_number(number: i64) -> Result<i32, ParsingError> {
        in_range(i32::try_from(number))
    }

    fn from_text(text: &str) -> Result<i32, ParsingError> {
        numeral(text.parse::<i32>())
    }
}

impl IntegerFromRedisValue for i64 {
    ghost use Rattle.std.specs.Prelude.{false};
    ghost use Rattle.std.specs.Int.{w64};
    ghost use Rattle.resp_from.specs.Integers.{SignedNumber, SignedText};
    ghost use Rattle.resp_from.specs.lemmas.Numerals.{signed_numerals};

    const IS_BYTE: bool = false;

    ghost IS_BYTE = { false };

    ghost of_number = { SignedNumber w64 };

    ghost of_text = { SignedText w64 };

    ghost numerals = { signed_numerals w64 };

    fn from_number(number: i64) -> Result<i64, ParsingError> {
        in_range(i64::try_from(number))
    }

    fn from_text(text: &str) -> Result<i64, ParsingError> {
        numeral(text.parse::<i64>())
    }
}

impl IntegerFromRedisValue for i128 {
    ghost use Rattle.std.specs.Prelude.{false};
    ghost use Rattle.std.specs.Int.{w128};
    ghost use Rattle.resp_from.specs.Integers.{SignedNumber, SignedText};
    ghost use Rattle.resp_from.specs.lemmas.Numerals.{signed_numerals};

    const IS_BYTE: bool = false;

    ghost IS_BYTE = { false };

    ghost of_number = { SignedNumber w128 };

    ghost of_text = { SignedText w128 };

    ghost numerals = { signed_numerals w128 };

    fn from_number(number: i64) -> Result<i128, ParsingError> {
        in_range(i128::try_from(number))
    }

    fn from_text(text: &str) -> Result<i128, ParsingError> {
        numeral(text.parse::<i128>())
    }
}

impl IntegerFromRedisValue for isize {
    ghost use Rattle.std.specs.Prelude.{false};
    ghost use Rattle.std.specs.Int.{w64};
    ghost use Rattle.resp_from.specs.Integers.{SignedNumber, SignedText};
    ghost use Rattle.resp_from.specs.lemmas.Numerals.{signed_numerals};

    const IS_BYTE: bool = false;

    ghost IS_BYTE = { false };

    ghost of_number = { SignedNumber w64 };

    ghost of_text = { SignedText w64 };

    ghost numerals = { signed_numerals w64 };

    fn from_number(number: i64) -> Result<isize, ParsingError> {
        in_range(isize::try_from(number))
    }

    fn from_text(text: &str) -> Result<isize, ParsingError> {
        numeral(text.parse::<isize>())
    }
}

impl IntegerFromRedisValue for u8 {
    ghost use Rattle.std.specs.Prelude.{true};
    ghost use Rattle.resp_from.specs.Integers.{UnsignedNumber, UnsignedText};
    ghost use Rattle.resp_from.specs.lemmas.Numerals.{unsigned_numerals};

    const IS_BYTE: bool = true;

    ghost IS_BYTE = { true };

    ghost of_number = { UnsignedNumber 8 };

    ghost of_text = { UnsignedText 8 };

    ghost numerals = { unsigned_numerals 8 };

    fn from_number(number: i64) -> Result<u8, ParsingError> {
        in_range(u8::try_from(number))
    }

    fn from_text(text: &str) -> Result<u8, ParsingError> {
        numeral(text.parse::<u8>())
    }
}

impl IntegerFromRedisValue for u16 {
    ghost use Rattle.std.specs.Prelude.{false};
    ghost use Rattle.resp_from.specs.Integers.{UnsignedNumber, UnsignedText};
    ghost use Rattle.resp_from.specs.lemmas.Numerals.{unsigned_numerals};

    const IS_BYTE: bool = false;

    ghost IS_BYTE = { false };

    ghost of_number = { UnsignedNumber 16 };

    ghost of_text = { UnsignedText 16 };

    ghost numerals = { unsigned_numerals 16 };

    fn from_number(number: i64) -> Result<u16, ParsingError> {
        in_range(u16::try_from(number))
    }

    fn from_text(text: &str) -> Result<u16, ParsingError> {
        numeral(text.parse::<u16>())
    }
}

impl IntegerFromRedisValue for u32 {
    ghost use Rattle.std.specs.Prelude.{false};
    ghost use Rattle.resp_from.specs.Integers.{UnsignedNumber, UnsignedText};
    ghost use Rattle.resp_from.specs.lemmas.Numerals.{unsigned_numerals};

    const IS_BYTE: bool = false;

    ghost IS_BYTE = { false };

    ghost of_number = { UnsignedNumber 32 };

    ghost of_text = { UnsignedText 32 };

    ghost numerals = { unsigned_numerals 32 };

    fn from_number(number: i64) -> Result<u32, ParsingError> {
        in_range(u32::try_from(number))
    }

    fn from_text(text: &str) -> Result<u32, ParsingError> {
        numeral(text.parse::<u32>())
    }
}

impl IntegerFromRedisValue for u64 {
    ghost use Rattle.std.specs.Prelude.{false};
    ghost use Rattle.resp_from.specs.Integers.{UnsignedNumber, UnsignedText};
    ghost use Rattle.resp_from.specs.lemmas.Numerals.{unsigned_numerals};

    const IS_BYTE: bool = false;

    ghost IS_BYTE = { false };

    ghost of_number = { UnsignedNumber 64 };

    ghost of_text = { UnsignedText 64 };

    ghost numerals = { unsigned_numerals 64 };

    fn from_number(number: i64) -> Result<u64, ParsingError> {
        in_range(u64::try_from(number))
    }

    fn from_text(text: &str) -> Result<u64, ParsingError> {
        numeral(text.parse::<u64>())
    }
}

impl IntegerFromRedisValue for u128 {
    ghost use Rattle.std.specs.Prelude.{false};
    ghost use Rattle.resp_from.specs.Integers.{UnsignedNumber, UnsignedText};
    ghost use Rattle.resp_from.specs.lemmas.Numerals.{unsigned_numerals};

    const IS_BYTE: bool = false;

    ghost IS_BYTE = { false };

    ghost of_number = { UnsignedNumber 128 };

    ghost of_text = { UnsignedText 128 };

    ghost numerals = { unsigned_numerals 128 };

    fn from_number(number: i64) -> Result<u128, ParsingError> {
        in_range(u128::try_from(number))
    }

    fn from_text(text: &str) -> Result<u128, ParsingError> {
        numeral(text.parse::<u128>())
    }
}

impl IntegerFromRedisValue for usize {
    ghost use Rattle.std.specs.Prelude.{false};
    ghost use Rattle.resp_from.specs.Integers.{UnsignedNumber, UnsignedText};
    ghost use Rattle.resp_from.specs.lemmas.Numerals.{unsigned_numerals};

    const IS_BYTE: bool = false;

    ghost IS_BYTE = { false };

    ghost of_number = { UnsignedNumber 64 };

    ghost of_text = { UnsignedText 64 };

    ghost numerals = { unsigned_numerals 64 };

    fn from_number(number: i64) -> Result<usize, ParsingError> {
        in_range(usize::try_from(number))
    }

    fn from_text(text: &str) -> Result<usize, ParsingError> {
        numeral(text.parse::<usize>())
    }
}
