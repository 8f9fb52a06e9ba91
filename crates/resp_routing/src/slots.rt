//! Slots of keys.

ghost use Rattle.std.specs.Prelude.{◌≡◌, ◌<◌};
ghost use Rattle.resp_routing.specs.Slots.{IsHashTag, IsSlot};

use crate::checksum::{crc16, crc16_without_brace};
use memchr::memchr;

/// How many slots a cluster has.
pub const SLOT_COUNT: u16 = 16384;

/// The bytes of a key that its slot is computed of: those between the first `{` and the first `}`
/// after it, where there are any; else the whole key. The tag of `{user:7}:visits` is `user:7`, and
/// that of `{}:visits` is the whole.
pub fn hash_tag(key: &[u8]) -> &[u8]
    ensures { IsHashTag key.now result.now }
{
    let Some(opening) = memchr(b'{', key) else {
        return key;
    };
    let rest = &key[opening + 1..];
    match memchr(b'}', rest) {
        Some(length) if length > 0 => &rest[..length],
        _ => key,
    }
}

/// The slot of a key, below [`SLOT_COUNT`]: the checksum of its hash tag, modulo the number of
/// slots. Those of `foo` and `{foo}new` are 12182.
pub fn get_slot(key: &[u8]) -> u16
    ensures slot { IsSlot key.now result }
    ensures range { result < SLOT_COUNT }
{
    match crc16_without_brace(key) {
        Some(checksum) => checksum % SLOT_COUNT,
        None => slot_of_tag(key),
    }
}

/// The same of a key that has a `{`.
#[inline(never)]
fn slot_of_tag(key: &[u8]) -> u16
    ensures slot { IsSlot key.now result }
    ensures range { result < SLOT_COUNT }
{
    crc16(hash_tag(key)) % SLOT_COUNT
}
