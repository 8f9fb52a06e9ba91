//! What a server says of itself.

ghost use Rattle.std.specs.Prelude.{◌≡◌, ◌↔◌, [], IfOk, IsTrue, OnOk, is_some, length};
ghost use Rattle.std.specs.Prelude.{option_map, string_cmp};
ghost use Rattle.std.specs.BTreeMap.{insert_entry};
ghost use Rattle.std.specs.List.{AllZip};
ghost use Rattle.std.specs.Option.{option_copied};
ghost use Rattle.resp_errors.specs.Memory.{OnlyMemory};
ghost use Rattle.resp_types.specs.Info.{entries_of, entry_of_line, value_at, Gets, HoldsText};
ghost use Rattle.resp_types.specs.Info.{SameEntry};

use resp_containers::FillMap;
use resp_from::FromRedisValue;
use resp_from::parts::strip_attribute;
use resp_value::{ParsingError, RedisResult, Text, Value};
use std::alloc::{AllocError, Global};
use std::collections::BTreeMap;

/// What INFO answers, a line a key as in `role:master`: values under their keys.
#[derive(Drop)]
pub struct InfoDict {
    map: BTreeMap<String, Value>,
}

impl InfoDict {
    /// The dictionary of a text.
    ///
    /// Lines end at LF or CR LF. A line that begins with `#` is skipped, and so is one without a
    /// colon; any other is a key up to its first colon, and then the value, a simple string. Of
    /// equal keys the last value stays. Fails only with `OutOfMemory`.
    pub fn new(alloc: Global, text: &str) -> RedisResult<InfoDict>
        ensures read { IfOk result (λ dict. HoldsText text.now (entries_of dict)) }
        ensures memory { OnlyMemory result }
    {
        let map = read_text(alloc, text)?;
        Ok(InfoDict { map })
    }

    /// The value of a key, as a `T`; `None` where there is no such key, or where its value is no
    /// `T`. Fails only with `OutOfMemory`.
    pub fn get<T: FromRedisValue>(
        &self,
        alloc: Global,
        key: &str,
    ) -> Result<Option<T>, ParsingError>
        ensures { Gets T.of_value (value_at key.now self.now) result }
    {
        match self.find(&key) {
            Some(value) => match T::from_redis_value_ref(alloc, value) {
                Ok(found) => Ok(Some(found)),
                Err(ParsingError::OutOfMemory) => Err(ParsingError::OutOfMemory),
                Err(_) => Ok(None),
            },
            None => Ok(None),
        }
    }

    /// The value of a key, if it is there.
    pub fn find(&self, key: &&str) -> Option<&Value>
        ensures { option_copied result ≡ value_at key.now.now self.now }
    {
        self.map.get(*key)
    }

    /// Whether a key is there.
    pub fn contains_key(&self, key: &&str) -> bool
        ensures { result ≡ is_some (value_at key.now.now self.now) }
    {
        self.map.contains_key(*key)
    }

    /// How many keys there are.
    pub fn len(&self) -> usize
        ensures { result ≡ length (entries_of self.now) }
    {
        self.map.len()
    }

    /// Whether there is no key.
    pub fn is_empty(&self) -> bool
        ensures { IsTrue result ↔ (entries_of self.now ≡ []) }
    {
        self.map.is_empty()
    }

    /// The values under their keys, in the order of the keys.
    pub fn as_map(&self) -> &BTreeMap<String, Value>
        ensures { result.now.entries ≡ entries_of self.now }
    {
        &self.map
    }

    /// A dictionary of equal entries. Fails only when out of memory.
    pub fn try_clone(&self, alloc: Global) -> Result<InfoDict, AllocError>
        ensures { IfOk result (λ copy. AllZip SameEntry (entries_of self.now) (entries_of copy)) }
    {
        let mut map = BTreeMap::new(alloc);
        for (key, value) in self.map.iter() {
            let value = value.try_clone(alloc)?;
            add(&mut map, String::from_str(alloc, key.as_str())?, value)?;
        }
        Ok(InfoDict { map })
    }
}

/// The key and the value of a line, if it has them.
fn entry_of_line(line: &str) -> Option<(&str, &str)>
    ensures { option_map (λ entry. (entry.0.now, entry.1.now)) result ≡ entry_of_line line.now }
{
    if line.starts_with('#') {
        return None;
    }
    line.split_once(':')
}

/// The entries of a text.
fn read_text(alloc: Global, text: &str) -> Result<BTreeMap<String, Value>, AllocError>
    ensures { IfOk result (λ map. HoldsText text.now map.entries) }
{
    let mut map: BTreeMap<String, Value> = FillMap::none(alloc);
    for line in text.lines() {
        if let Some((key, value)) = entry_of_line(line) {
            let value = Value::SimpleString(Text::from_str(alloc, value)?);
            map.put(String::from_str(alloc, key)?, value)?;
        }
    }
    Ok(map)
}

fn add(map: &mut BTreeMap<String, Value>, key: String, value: Value) -> Result<(), AllocError>
    ensures { OnOk result (map.new.entries ≡ insert_entry string_cmp map.old.entries key value) }
{
    map.insert(key, value)?;
    Ok(())
}

/// A text, as [`InfoDict::new`] reads it. At most two attributes are removed.
impl FromRedisValue for InfoDict {
    ghost use Rattle.resp_types.specs.Info.{OfInfo};

    const WIDTH: usize = 0;

    const BYTES: bool = false;

    ghost of_value = { OfInfo };

    fn from_redis_value(alloc: Global, value: Value) -> Result<InfoDict, ParsingError> {
        let text = Text::from_redis_value(alloc, strip_attribute(value))?;
        let map = read_text(alloc, text.as_str())?;
        Ok(InfoDict { map })
    }
}
