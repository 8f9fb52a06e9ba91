//! Errors, strings and names.

ghost use Rattle.std.specs.Prelude.{◌≡◌, ◌∷◌, ◌++◌, ◌&&◌, not, codes, Some, IfOk, string_bytes};
ghost use Rattle.std.specs.Str.{bytes_eq};
ghost use Rattle.resp_errors.specs.ServerErrors.{text_of};
ghost use Rattle.resp_encode.specs.Encoding.{given, is_line, error_text, error_of};
ghost use Rattle.resp_encode.specs.Encoding.{verbatim_of, body_of};
ghost use Rattle.resp_parse.specs.declared.type_byte.TypeByte.TheVariants as type_byte;
ghost use Rattle.resp_parse.specs.Double.{is_double};
ghost use Rattle.resp_parse.specs.Lines.{crlf};
ghost use Rattle.resp_encode.specs.Resp2Encoding.{resp2_error_of};
ghost use Rattle.resp_encode.specs.Appending.{AppendsText, marked};

use crate::lines::{breaks, write_body, write_length, write_line, write_text};
use crate::own_names::{has_own_code, has_own_format};
use crate::write_error::WriteError;
use resp_errors::ServerError;
use resp_parse::is_double_text;
use resp_value::VerbatimFormat;
use std::alloc::{AllocError, Global};

/// Appends the simple string that `Okay` is.
pub(crate) fn write_okay(out: &mut Vec<u8>) -> Result<(), WriteError>
    ensures { AppendsText result (Some (marked 43 (codes "OK"))) out.old.items out.new.items }
{
    write_line(out, b'+', b"OK")
}

/// Appends a simple string, if its text may stand in a line and isn't that of `Okay`.
pub(crate) fn write_simple(out: &mut Vec<u8>, text: &str) -> Result<(), WriteError>
    ensures { AppendsText result (given (is_line text.now && not (bytes_eq text.now (codes "OK")))
        (marked 43 text.now)) out.old.items out.new.items }
{
    if text == "OK" {
        return Err(WriteError::NoSpelling);
    }
    write_text(out, b'+', text.as_bytes())
}

/// Appends a double, if its text is one's.
#[tactic(auto, using(crate::proofs::AppendedTexts::given_yes, crate::proofs::AppendedTexts::given_no))]
pub(crate) fn write_double(out: &mut Vec<u8>, text: &str) -> Result<(), WriteError>
    ensures { AppendsText result (given (is_double text.now) (marked 44 text.now))
        out.old.items out.new.items }
{
    if !is_double_text(text) {
        return Err(WriteError::NoSpelling);
    }
    write_line(out, b',', text.as_bytes())
}

/// The text of an error, its code first.
fn text_from(alloc: Global, error: &ServerError) -> Result<String, AllocError>
    ensures { IfOk result (λ text. string_bytes text ≡ text_of error.now) }
{
    let mut text = String::from_str(alloc, error.code())?;
    if let Some(detail) = error.details() {
        text.push_str(" ")?;
        text.push_str(detail)?;
    }
    Ok(text)
}

/// Appends an error in RESP3.
pub(crate) fn write_error(out: &mut Vec<u8>, error: &ServerError) -> Result<(), WriteError>
    ensures { AppendsText result (error_of error.now) out.old.items out.new.items }
{
    if !has_own_code(error) {
        return Err(WriteError::NoSpelling);
    }
    let text = text_from(*out.allocator(), error)?;
    write_error_text(out, text.as_str().as_bytes())
}

/// Appends an error's text in a line, or in a body where CR LF stands in it.
#[tactic(auto, using(crate::proofs::AppendedTexts::chosen))]
pub(crate) fn write_error_text(out: &mut Vec<u8>, text: &[u8]) -> Result<(), WriteError>
    ensures { AppendsText result (error_text text.now) out.old.items out.new.items }
{
    if breaks(text) {
        write_body(out, b'!', text)
    } else {
        write_line(out, b'-', text)
    }
}

/// Appends an error in RESP2, which has lines for errors alone.
pub(crate) fn write_error_line(out: &mut Vec<u8>, error: &ServerError) -> Result<(), WriteError>
    ensures { AppendsText result (resp2_error_of error.now) out.old.items out.new.items }
{
    if !has_own_code(error) {
        return Err(WriteError::NoSpelling);
    }
    let text = text_from(*out.allocator(), error)?;
    write_text(out, b'-', text.as_str().as_bytes())
}

/// Appends a verbatim string.
pub(crate) fn write_verbatim(
    out: &mut Vec<u8>,
    format: &VerbatimFormat,
    text: &str,
) -> Result<(), WriteError>
    ensures { AppendsText result (verbatim_of format.now text.now) out.old.items out.new.items }
{
    if !has_own_format(*out.allocator(), format)? {
        return Err(WriteError::NoSpelling);
    }
    write_verbatim_body(out, format.name().as_bytes(), text.as_bytes())
}

/// Appends the name of a format, a colon and a text as a body, with the line of its length.
fn write_verbatim_body(out: &mut Vec<u8>, name: &[u8], text: &[u8]) -> Result<(), WriteError>
    ensures { AppendsText result (body_of type_byte.VerbatimString (name.now ++ (58 ∷ text.now)))
        out.old.items out.new.items }
{
    let Some(len) = name.len().checked_add(text.len() + 1) else {
        return Err(WriteError::NoSpelling);
    };
    write_length(out, b'=', len)?;
    write_named_text(out, name, text)
}

/// Appends a name, a colon, a text and CR LF.
#[tactic(auto, unfolding(crate::specs::Appending::AppendsText))]
fn write_named_text(out: &mut Vec<u8>, name: &[u8], text: &[u8]) -> Result<(), WriteError>
    ensures { AppendsText result (Some ((name.now ++ (58 ∷ text.now)) ++ crlf))
        out.old.items out.new.items }
{
    out.extend_from_slice(name)?;
    write_line(out, b':', text)
}
