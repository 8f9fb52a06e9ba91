//! Replies as lists of values or of pairs.

ghost use Rattle.std.specs.Prelude.{◌≡◌, ◌++◌, MatchOption, IsOkAnd, option_map, Err};
ghost use Rattle.std.specs.Option.{option_copied};
ghost use Rattle.resp_value.specs.MapIters.{pairs_left, owned_pairs_left};
ghost use Rattle.resp_value.specs.Views.{pairs, sequence_of, pairs_of, is_cursor};

use crate::map_iter::{MapIter, OwnedMapIter, OwnedRest, Rest};
use crate::value::Value;
use std::alloc::Global;

impl Value {
    /// Whether this is an array of exactly a bulk string and an array, as a scan's reply is.
    pub fn looks_like_cursor(&self) -> bool
        ensures { result ≡ is_cursor self.now }
    {
        match self {
            Value::Array(elements) => matches!(
                elements.as_slice(),
                [Value::BulkString(_), Value::Array(_)]
            ),
            _ => false,
        }
    }

    /// The values of an array or a set, or none of `Nil`; `None` for any other value.
    pub fn as_sequence(&self) -> Option<&[Value]>
        ensures { option_copied result ≡ sequence_of self.now }
    {
        match self {
            Value::Array(elements) | Value::Set(elements) => Some(elements.as_slice()),
            Value::Nil => Some(&[]),
            _ => None,
        }
    }

    /// The values of an array or a set, or none of `Nil`, by move; any other value comes back as
    /// the `Err`. Takes no memory.
    pub fn into_sequence(self, alloc: Global) -> Result<Vec<Value>, Value>
        ensures { MatchOption (sequence_of self) (result
            ≡ Err self) (λ elements. IsOkAnd result (λ v. v.items ≡ elements)) }
    {
        match self {
            Value::Array(elements) | Value::Set(elements) => Ok(elements.into_vec()),
            Value::Nil => Ok(Vec::new(alloc)),
            other => Err(other),
        }
    }

    /// The pairs of a map, or of an array of even length; `None` for any other value.
    pub fn as_map_iter(&self) -> Option<MapIter<'_>>
        ensures { option_map pairs_left result ≡ pairs_of self.now }
    {
        match self {
            Value::Map(entries) => Some(MapIter::over(Rest::Entries(entries.as_slice()))),
            Value::Array(elements) => {
                if elements.len() % 2 == 0 {
                    Some(MapIter::over(Rest::Elements(elements.as_slice())))
                } else {
                    None
                }
            }
            _ => None,
        }
    }

    /// The pairs of a map, or of an array of even length, by move; any other value comes back as
    /// the `Err`. Takes no memory.
    pub fn into_map_iter(self) -> Result<OwnedMapIter, Value>
        ensures { MatchOption (pairs_of self) (result
            ≡ Err self) (λ entries. IsOkAnd result (λ it. owned_pairs_left it ≡ entries)) }
    {
        match self {
            Value::Map(entries) => Ok(OwnedMapIter::over(OwnedRest::Entries(
                entries.into_vec().into_iter(),
            ))),
            Value::Array(elements) => {
                if elements.len() % 2 == 0 {
                    Ok(OwnedMapIter::over(OwnedRest::Elements(elements.into_vec().into_iter())))
                } else {
                    Err(Value::Array(elements))
                }
            }
            other => Err(other),
        }
    }
}
