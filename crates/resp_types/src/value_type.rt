//! Types of stored values.

ghost use Rattle.std.specs.Prelude.{◌≡◌, ⊤, IfOk, MatchOption, string_bytes};
ghost use Rattle.resp_errors.specs.Memory.{OnlyMemory};
ghost use Rattle.resp_types.specs.ValueTypes.{type_named, name_of_type};
ghost use Rattle.resp_types.specs.declared.value_type.ValueType.TheVariants as type;

use resp_from::FromRedisValue;
use resp_from::parts::refuse;
use resp_value::{ParsingError, RedisResult, Text, Value};
use std::alloc::{AllocError, Global};

/// The type of a stored value, as TYPE answers it.
#[derive(PartialEq, Eq, Debug, Drop)]
pub enum ValueType {
    /// `none`: the key has no value.
    None,
    /// `string`
    String,
    /// `list`
    List,
    /// `set`
    Set,
    /// `zset`: a sorted set.
    ZSet,
    /// `hash`
    Hash,
    /// `stream`
    Stream,
    /// `vectorset`
    VectorSet,
    /// `ReJSON-RL`: a JSON document.
    JSON,
    /// `MBbloom--`: a Bloom filter of Redis.
    BloomFilterRedis,
    /// `MBbloomCF`: a cuckoo filter.
    CuckooFilter,
    /// `CMSk-TYPE`: a count-min sketch.
    CountMin,
    /// `TDIS-TYPE`: a t-digest.
    TDigest,
    /// `TopK-TYPE`: the most frequent items.
    TopK,
    /// `TSDB-TYPE`: a time series.
    TimeSeries,
    /// `trietype0`: a trie of suggestions.
    Trie,
    /// `bloomfltr`: a Bloom filter of Valkey.
    BloomFilterValKey,
    /// A type with another name.
    Unknown(Text),
}

impl ValueType {
    /// The type with this name. Fails only with `OutOfMemory`.
    pub fn read(alloc: Global, name: &str) -> RedisResult<ValueType>
        ensures read { IfOk result (λ t. t ≡ type_named name.now) }
        ensures named { IfOk result (λ t. name_of_type t ≡ name.now) }
        ensures memory { OnlyMemory result }
    {
        match known_type(name) {
            Some(known) => Ok(known),
            None => Ok(ValueType::Unknown(Text::from_str(alloc, name)?)),
        }
    }

    /// The name of the type, as a server sends it.
    pub fn name(&self) -> &str
        ensures { result.now ≡ name_of_type self.now }
    {
        match self {
            ValueType::None => "none",
            ValueType::String => "string",
            ValueType::List => "list",
            ValueType::Set => "set",
            ValueType::ZSet => "zset",
            ValueType::Hash => "hash",
            ValueType::Stream => "stream",
            ValueType::VectorSet => "vectorset",
            ValueType::JSON => "ReJSON-RL",
            ValueType::BloomFilterRedis => "MBbloom--",
            ValueType::CuckooFilter => "MBbloomCF",
            ValueType::CountMin => "CMSk-TYPE",
            ValueType::TDigest => "TDIS-TYPE",
            ValueType::TopK => "TopK-TYPE",
            ValueType::TimeSeries => "TSDB-TYPE",
            ValueType::Trie => "trietype0",
            ValueType::BloomFilterValKey => "bloomfltr",
            ValueType::Unknown(name) => name.as_str(),
        }
    }

    /// The name of the type as a text. Fails only with `OutOfMemory`.
    pub fn into_text(self, alloc: Global) -> RedisResult<String>
        ensures text { IfOk result (λ text. string_bytes text ≡ name_of_type self) }
        ensures memory { OnlyMemory result }
    {
        match self {
            ValueType::Unknown(name) => Ok(name.into_string()),
            known => Ok(String::from_str(alloc, known.name())?),
        }
    }

    /// An equal type. Fails only when out of memory.
    pub fn try_clone(&self, alloc: Global) -> Result<ValueType, AllocError>
        ensures { IfOk result (λ t. t ≡ self.now) }
    {
        match self {
            ValueType::None => Ok(ValueType::None),
            ValueType::String => Ok(ValueType::String),
            ValueType::List => Ok(ValueType::List),
            ValueType::Set => Ok(ValueType::Set),
            ValueType::ZSet => Ok(ValueType::ZSet),
            ValueType::Hash => Ok(ValueType::Hash),
            ValueType::Stream => Ok(ValueType::Stream),
            ValueType::VectorSet => Ok(ValueType::VectorSet),
            ValueType::JSON => Ok(ValueType::JSON),
            ValueType::BloomFilterRedis => Ok(ValueType::BloomFilterRedis),
            ValueType::CuckooFilter => Ok(ValueType::CuckooFilter),
            ValueType::CountMin => Ok(ValueType::CountMin),
            ValueType::TDigest => Ok(ValueType::TDigest),
            ValueType::TopK => Ok(ValueType::TopK),
            ValueType::TimeSeries => Ok(ValueType::TimeSeries),
            ValueType::Trie => Ok(ValueType::Trie),
            ValueType::BloomFilterValKey => Ok(ValueType::BloomFilterValKey),
            ValueType::Unknown(name) => Ok(ValueType::Unknown(name.try_clone(alloc)?)),
        }
    }
}

/// The type with this name, if it is none of `Unknown`.
#[tactic(auto, unfolding(crate::specs::ValueTypes::type_named))]
fn known_type(name: &str) -> Option<ValueType>
    ensures known { MatchOption result (type_named name.now ≡ type.Unknown name.now)
        (λ t. t ≡ type_named name.now) }
    ensures named { MatchOption result ⊤ (λ t. name_of_type t ≡ name.now) }
{
    match name {
        "none" => Some(ValueType::None),
        "string" => Some(ValueType::String),
        "list" => Some(ValueType::List),
        "set" => Some(ValueType::Set),
        "zset" => Some(ValueType::ZSet),
        "hash" => Some(ValueType::Hash),
        "stream" => Some(ValueType::Stream),
        "vectorset" => Some(ValueType::VectorSet),
        "ReJSON-RL" => Some(ValueType::JSON),
        "MBbloom--" => Some(ValueType::BloomFilterRedis),
        "MBbloomCF" => Some(ValueType::CuckooFilter),
        "CMSk-TYPE" => Some(ValueType::CountMin),
        "TDIS-TYPE" => Some(ValueType::TDigest),
        "TopK-TYPE" => Some(ValueType::TopK),
        "TSDB-TYPE" => Some(ValueType::TimeSeries),
        "trietype0" => Some(ValueType::Trie),
        "bloomfltr" => Some(ValueType::BloomFilterValKey),
        _ => None,
    }
}

/// A simple string that names the type. Takes no memory.
impl FromRedisValue for ValueType {
    ghost use Rattle.resp_from.specs.Conversion.{AnyButMemory};
    ghost use Rattle.resp_types.specs.ValueTypes.{OfType};

    const WIDTH: usize = 0;

    const BYTES: bool = false;

    ghost of_value = { OfType };

    ghost error_of_value = { AnyButMemory };

    fn from_redis_value(_alloc: Global, value: Value) -> Result<ValueType, ParsingError> {
        match value {
            Value::SimpleString(name) => match known_type(name.as_str()) {
                Some(known) => Ok(known),
                None => Ok(ValueType::Unknown(name)),
            },
            other => refuse(other, "Value type should be a simple string"),
        }
    }
}
