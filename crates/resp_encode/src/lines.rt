//! The lines and bodies of which values are spelled.

ghost use Rattle.std.specs.Prelude.{◌≡◌, ◌++◌, length, Some};
ghost use Rattle.std.specs.Fmt.{◌++?◌, signed_decimal};
ghost use Rattle.resp_encode.specs.Encoding.{given, fits_i64, is_line, has_break};
ghost use Rattle.resp_encode.specs.Appending.{AppendsText, counted, marked};
ghost use Rattle.resp_parse.specs.Lines.{crlf};

use crate::write_error::WriteError;
use itoa::Buffer;

/// Appends the byte of a type, a text and CR LF.
#[tactic(auto, unfolding(crate::specs::Appending::AppendsText))]
pub(crate) fn write_line(out: &mut Vec<u8>, mark: u8, text: &[u8]) -> Result<(), WriteError>
    ensures { AppendsText result (Some (marked mark text.now)) out.old.items out.new.items }
{
    out.push(mark)?;
    write_content(out, text)
}

/// Appends bytes and CR LF.
#[tactic(auto, unfolding(crate::specs::Appending::AppendsText))]
fn write_content(out: &mut Vec<u8>, bytes: &[u8]) -> Result<(), WriteError>
    ensures { AppendsText result (Some (bytes.now ++ crlf)) out.old.items out.new.items }
{
    out.extend_from_slice(bytes)?;
    out.extend_from_slice(b"\r\n")?;
    Ok(())
}

/// Appends the line of a length or a count.
#[tactic(auto, unfolding(crate::specs::Appending::AppendsText))]
pub(crate) fn write_length(out: &mut Vec<u8>, mark: u8, len: usize) -> Result<(), WriteError>
    ensures { AppendsText result (counted mark len) out.old.items out.new.items }
{
    if len > isize::MAX as usize {
        return Err(WriteError::NoSpelling);
    }
    write_line(out, mark, Buffer::new().format(len).as_bytes())
}

/// Appends a body, with the line of its length.
pub(crate) fn write_body(out: &mut Vec<u8>, mark: u8, bytes: &[u8]) -> Result<(), WriteError>
    ensures { AppendsText result (counted mark (length bytes.now) ++? Some (bytes.now ++ crlf))
        out.old.items out.new.items }
{
    write_length(out, mark, bytes.len())?;
    write_content(out, bytes)
}

/// Appends the line of an integer.
pub(crate) fn write_integer(out: &mut Vec<u8>, n: i64) -> Result<(), WriteError>
    ensures { AppendsText result (given (fits_i64 n) (marked 58 (signed_decimal n)))
        out.old.items out.new.items }
{
    write_line(out, b':', Buffer::new().format(n).as_bytes())
}

/// Appends a line, if its text may stand in one.
pub(crate) fn write_text(out: &mut Vec<u8>, mark: u8, text: &[u8]) -> Result<(), WriteError>
    ensures { AppendsText result (given (is_line text.now) (marked mark text.now))
        out.old.items out.new.items }
{
    if !may_be_line(text) {
        return Err(WriteError::NoSpelling);
    }
    write_line(out, mark, text)
}

/// Whether a line may hold these bytes.
fn may_be_line(bytes: &[u8]) -> bool
    ensures { result ≡ is_line bytes.now }
{
    match std::str::from_utf8(bytes) {
        Ok(_) => !breaks(bytes),
        Err(_) => false,
    }
}

/// Whether CR LF stands in the text.
pub(crate) fn breaks(text: &[u8]) -> bool
    ensures { result ≡ has_break text.now }
{
    let mut after_cr = false;
    for byte in text {
        if after_cr && *byte == b'\n' {
            return true;
        }
        after_cr = *byte == b'\r';
    }
    false
}
