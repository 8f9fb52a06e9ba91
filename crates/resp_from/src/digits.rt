//! Numbers of few digits.

ghost use Rattle.std.specs.Prelude.{◌≡◌, ◌<◌, ◌^◌, IfSome};
ghost use Rattle.std.specs.Str.{IsUtf8};
ghost use Rattle.std.specs.Str.Parse.{IsNumeral, digits_value};

/// So many digits make no number that is too large, whatever they are.
const FEW: usize = 18;

/// The number that a few digits alone write; None of any other bytes. Such bytes are text.
pub fn few_digits(bytes: &[u8]) -> Option<u64>
    ensures numeral { IfSome result (λ n. IsNumeral 10 bytes.now) }
    ensures value { IfSome result (λ n. n ≡ digits_value 10 bytes.now) }
    ensures bound { IfSome result (λ n. n < 2 ^ 63) }
    ensures text { IfSome result (λ n. IsUtf8 bytes.now) }
{
    if bytes.is_empty() || bytes.len() > FEW {
        return None;
    }
    let mut value: u64 = 0;
    for at in 0..bytes.len() {
        let byte = bytes[at];
        if !byte.is_ascii_digit() {
            return None;
        }
        value = value * 10 + (byte - b'0') as u64;
    }
    Some(value)
}
