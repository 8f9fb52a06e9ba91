//! Integers in decimal, as a server writes them.

ghost use Rattle.std.specs.Prelude.{◌≡◌, IfOk};
ghost use Rattle.std.specs.Fmt.{signed_decimal};
ghost use Rattle.example_server.specs.Integers.{ReadsInteger, integer};

use itoa::Buffer;
use resp_core::Bytes;
use std::alloc::{AllocError, Global};

/// The integer that a server writes as these bytes: no plus sign, no leading zero, no space.
pub fn integer_of(bytes: &[u8]) -> Option<i64>
    ensures writes { ReadsInteger bytes.now result }
    ensures value { result ≡ integer bytes.now }
{
    let Ok(text) = str::from_utf8(bytes) else {
        return None;
    };
    let Ok(number) = text.parse::<i64>() else {
        return None;
    };
    if Buffer::new().format(number).as_bytes() == bytes {
        Some(number)
    } else {
        None
    }
}

/// An integer as bytes.
pub fn digits(alloc: Global, number: i64) -> Result<Bytes, AllocError>
    ensures { IfOk result (λ bytes. bytes ≡ signed_decimal number) }
{
    Bytes::from_slice(alloc, Buffer::new().format(number).as_bytes())
}
