//! Views of replies, the texts of INFO, and names.

use crate::rows::{Row, malformed, text_of};
use crate::texts::{add_part, debug_text};
use resp_core::{
    InfoDict, RedisResult, Value, ValueType, get_push_kind, is_valid_16_bytes_hex_digest,
    parse_redis_value, verbatim_format,
};
use std::alloc::Global;

/// The only word of a row.
fn only_word(row: &Row) -> RedisResult<&[u8]> {
    match row.words() {
        [word] => Ok(word.as_slice()),
        _ => Err(malformed()),
    }
}

/// `view BYTES`
pub fn view(alloc: Global, row: &Row) -> RedisResult<String> {
    let reply = parse_redis_value(alloc, only_word(row)?)?;
    let text = seen(alloc, &reply)?;
    same_by_move(alloc, reply, text)
}

/// How many values or pairs a reply is seen as, and whether it looks like a cursor.
fn seen(alloc: Global, reply: &Value) -> RedisResult<String> {
    let mut text = String::new(alloc);
    if let Some(values) = reply.as_sequence() {
        write!(text, "sequence {}", values.len())?;
    }
    if let Some(pairs) = reply.as_map_iter() {
        add_part(
            &mut text,
            format!(in alloc; "pairs {}", pairs.size_hint().0)?.as_str(),
        )?;
    }
    if reply.looks_like_cursor() {
        add_part(&mut text, "cursor")?;
    }
    if text.is_empty() {
        text.push_str("none")?;
    }
    Ok(text)
}

/// The text, if a reply that is moved is seen as many values or pairs as one that is borrowed.
fn same_by_move(alloc: Global, reply: Value, text: String) -> RedisResult<String> {
    let values = reply.as_sequence().map(|values| values.len());
    let pairs = reply.as_map_iter().map(|pairs| pairs.size_hint().0);
    let moved_pairs = pairs_by_move(reply.try_clone(alloc)?);
    let moved = values_by_move(alloc, reply);
    if moved == values && moved_pairs == pairs {
        return Ok(text);
    }
    Ok(format!(in alloc; "{text}; by move {moved:?} and {moved_pairs:?}")?)
}

/// How many pairs a reply is seen as that is moved.
fn pairs_by_move(reply: Value) -> Option<usize> {
    reply.into_map_iter().ok().map(|pairs| pairs.size_hint().0)
}

/// How many values a reply is seen as that is moved.
fn values_by_move(alloc: Global, reply: Value) -> Option<usize> {
    reply.into_sequence(alloc).ok().map(|values| values.len())
}

/// `info BYTES KEY..`
pub fn info(alloc: Global, row: &Row) -> RedisResult<String> {
    let Some((text, keys)) = row.words().split_first() else {
        return Err(malformed());
    };
    let info = InfoDict::new(alloc, text_of(text.as_slice())?)?;
    let mut shown = format!(in alloc; "{}", info.len())?;
    for key in keys {
        add_entry(alloc, &info, text_of(key.as_slice())?, &mut shown)?;
    }
    Ok(shown)
}

/// Adds a key with its value, or the key alone.
fn add_entry(alloc: Global, info: &InfoDict, key: &str, shown: &mut String) -> RedisResult<()> {
    let found: Option<String> = info.get(alloc, key)?;
    match found {
        Some(value) => write!(shown, " {key}={value}")?,
        None => write!(shown, " {key}")?,
    }
    Ok(())
}

/// `type NAME`
pub fn value_type(alloc: Global, row: &Row) -> RedisResult<String> {
    let read = ValueType::read(alloc, text_of(only_word(row)?)?)?;
    let mut shown = debug_text(alloc, &read)?;
    add_part(&mut shown, read.into_text(alloc)?.as_str())?;
    Ok(shown)
}

/// `push NAME`
pub fn push(alloc: Global, row: &Row) -> RedisResult<String> {
    let name = String::from_str(alloc, text_of(only_word(row)?)?)?;
    let kind = get_push_kind(name);
    Ok(format!(in alloc; "{kind:?} {kind}")?)
}

/// `format NAME`
pub fn format(alloc: Global, row: &Row) -> RedisResult<String> {
    let name = String::from_str(alloc, text_of(only_word(row)?)?)?;
    let format = verbatim_format(name);
    Ok(format!(in alloc; "{format:?} {format}")?)
}

/// `digest WORD`
pub fn digest(alloc: Global, row: &Row) -> RedisResult<String> {
    let is_one = is_valid_16_bytes_hex_digest(text_of(only_word(row)?)?);
    Ok(format!(in alloc; "{is_one}")?)
}
