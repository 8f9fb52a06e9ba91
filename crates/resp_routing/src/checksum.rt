//! The checksum that slots are computed of.

ghost use Rattle.std.specs.Prelude.{◌≡◌, ◌≢◌, IfSome, IsTrue, Some, not};
ghost use Rattle.resp_routing.specs.Checksums.{remainder, after_byte, after_bytes, without_brace};

use crate::remainder_tables::REMAINDERS;

/// The checksum CRC-16/XMODEM: the remainder of the bytes, followed by sixteen zero bits, as a
/// polynomial over the field of two elements, divided by x^16 + x^12 + x^5 + 1. That of `123456789`
/// is 0x31c3.
pub fn crc16(bytes: &[u8]) -> u16
    ensures { result ≡ remainder bytes.now }
{
    let mut register: u16 = 0;
    let mut left = bytes;
    while let [a, b, c, d, rest @ ..] = left {
        register = fed_four(register, *a, *b, *c, *d);
        left = rest;
    }
    fed_all(register, left)
}

/// The register after these bytes.
fn fed_all(before: u16, bytes: &[u8]) -> u16
    ensures { result ≡ after_bytes before bytes.now }
{
    let mut register = before;
    for byte in bytes {
        register = fed(register, *byte);
    }
    register
}

/// The register after one more byte.
fn fed(register: u16, byte: u8) -> u16
    ensures { result ≡ after_byte register byte }
{
    let high = (register >> 8) ^ u16::from(byte);
    (register << 8) ^ REMAINDERS[0][usize::from(high)]
}

/// The checksum of a text without `{`; None where it has one.
pub(crate) fn crc16_without_brace(text: &[u8]) -> Option<u16>
    ensures { IfSome result (λ checksum. without_brace 0 text.now ≡ Some checksum) }
{
    let mut register = 0;
    let mut left = text;
    while let [a, b, c, d, rest @ ..] = left {
        if has_brace(*a, *b, *c, *d) {
            return None;
        }
        register = fed_four(register, *a, *b, *c, *d);
        left = rest;
    }
    fed_without_brace(register, left)
}

/// Whether one of these bytes is `{`.
fn has_brace(a: u8, b: u8, c: u8, d: u8) -> bool
    ensures { IsTrue (not result) → (a ≢ 0x7b) × (b ≢ 0x7b) × (c ≢ 0x7b) × (d ≢ 0x7b) }
{
    a == b'{' || b == b'{' || c == b'{' || d == b'{'
}

/// The register after a text without `{`; None where it has one.
fn fed_without_brace(before: u16, text: &[u8]) -> Option<u16>
    ensures { IfSome result (λ after. without_brace before text.now ≡ Some after) }
{
    let mut register = before;
    for byte in text {
        if *byte == b'{' {
            return None;
        }
        register = fed(register, *byte);
    }
    Some(register)
}

/// The register after four more bytes.
fn fed_four(register: u16, a: u8, b: u8, c: u8, d: u8) -> u16
    ensures { result ≡ after_byte (after_byte (after_byte (after_byte register a) b) c) d }
{
    let high = (register >> 8) ^ u16::from(a);
    let low = (register % 256) ^ u16::from(b);
    REMAINDERS[3][usize::from(high)]
        ^ REMAINDERS[2][usize::from(low)]
        ^ REMAINDERS[1][usize::from(c)]
        ^ REMAINDERS[0][usize::from(d)]
}
