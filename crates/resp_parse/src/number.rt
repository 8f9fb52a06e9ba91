//! Integer lines (RESP, "Integers").

ghost use Rattle.std.specs.Prelude.{◌≡◌, ◌<◌, ◌^◌, IfOk};
ghost use Rattle.resp_parse.specs.Number.{number, integer_in, length_in};

use resp_value::FrameFault;

/// The number that a text writes, white space around it aside, if it writes one of 64 bits.
fn read_number(text: &str) -> Option<i64>
    ensures value { result ≡ number text.now }
{
    text.trim().parse::<i64>().ok()
}

/// The number of a line that must be one.
pub(crate) fn integer_of(text: &str) -> Result<i64, FrameFault>
    ensures value { result ≡ integer_in text.now }
{
    read_number(text).ok_or(FrameFault::NotInteger)
}

/// The number of a line that must be one and not negative.
pub(crate) fn length_of(text: &str) -> Result<usize, FrameFault>
    ensures value { result ≡ length_in text.now }
    ensures bound { IfOk result (λ len. len < 2 ^ 63) }
{
    let len = integer_of(text)?;
    if len < 0 {
        return Err(FrameFault::NegativeLength);
    }
    Ok(len as usize)
}
