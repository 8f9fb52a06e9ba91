//! Values without others inside them, by their tokens and their bytes.

ghost use Rattle.std.specs.Prelude.{◌≡◌, ◌==◌, ℕ, suc, length, true, false, MatchResult};
ghost use Rattle.std.specs.Prelude.{option_and_then};
ghost use Rattle.std.specs.List.{position_or_len, after_first};
ghost use Rattle.resp_value.specs.declared.value.Value.{Nil, Okay, Int, SimpleString, BulkString};
ghost use Rattle.resp_value.specs.declared.value.Value.{ServerError, Boolean, Double, BigNumber};
ghost use Rattle.resp_errors.specs.ServerErrors.{server_error};
ghost use Rattle.resp_encode.specs.FlatEncoding.{spelled_in, leaf_in};
ghost use Rattle.resp_encode.specs.Appending.{AppendsText};
ghost use Rattle.resp_flat.specs.Reading.{cut, is_colon};
ghost use Rattle.resp_encode.specs.declared.write_error.WriteError.TheVariants.{NoSpelling};

use crate::lines::{write_body, write_integer, write_line, write_text};
use crate::texts::{write_double, write_error_text, write_okay, write_simple};
use crate::tokens::text_in;
use crate::write_error::WriteError;
use resp_args::ProtocolVersion;
use resp_flat::TokenKind;

/// In which version a value is sent; `None` where it is read and not sent.
pub(crate) type Sent = Option<ProtocolVersion>;

/// Appends a null.
pub(crate) fn write_nil(out: &mut Vec<u8>, sent: Sent) -> Result<(), WriteError>
    ensures { (d : ℕ) → AppendsText result (spelled_in sent (suc d) Nil)
        out.old.items out.new.items }
{
    match sent {
        Some(ProtocolVersion::RESP2) => write_line(out, b'$', b"-1"),
        Some(ProtocolVersion::RESP3) => write_line(out, b'_', b""),
        None => Ok(()),
    }
}

/// Appends the simple string that `Okay` is.
pub(crate) fn write_ok(out: &mut Vec<u8>, sent: Sent) -> Result<(), WriteError>
    ensures { (d : ℕ) → AppendsText result (spelled_in sent (suc d) Okay)
        out.old.items out.new.items }
{
    match sent {
        Some(ProtocolVersion::RESP2) => write_okay(out),
        Some(ProtocolVersion::RESP3) => write_okay(out),
        None => Ok(()),
    }
}

/// Appends an integer.
pub(crate) fn write_int(out: &mut Vec<u8>, sent: Sent, n: i64) -> Result<(), WriteError>
    ensures { (d : ℕ) → AppendsText result (spelled_in sent (suc d) (Int n))
        out.old.items out.new.items }
{
    match sent {
        Some(ProtocolVersion::RESP2) => write_integer(out, n),
        Some(ProtocolVersion::RESP3) => write_integer(out, n),
        None => Ok(()),
    }
}

/// Appends a truth value.
pub(crate) fn write_bool(out: &mut Vec<u8>, sent: Sent, truth: bool) -> Result<(), WriteError>
    ensures { (d : ℕ) → AppendsText result (spelled_in sent (suc d) (Boolean truth))
        out.old.items out.new.items }
{
    match sent {
        Some(ProtocolVersion::RESP2) => write_line(out, b':', if truth { b"1" } else { b"0" }),
        Some(ProtocolVersion::RESP3) => write_line(out, b'#', if truth { b"t" } else { b"f" }),
        None => Ok(()),
    }
}

/// Appends the leaf of this kind that has these bytes, if it is one's.
pub(crate) fn write_leaf(
    out: &mut Vec<u8>,
    sent: Sent,
    kind: TokenKind,
    bytes: &[u8],
) -> Result<(), WriteError>
    ensures { (d : ℕ) → AppendsText result (leaf_in sent (suc d) kind bytes.now)
        out.old.items out.new.items }
{
    match kind {
        TokenKind::SimpleString => write_simple_in(out, sent, text_in(bytes)?),
        TokenKind::BulkString => write_bulk_in(out, sent, bytes),
        TokenKind::ServerError => write_error_in(out, sent, text_in(bytes)?),
        TokenKind::Double => write_double_in(out, sent, text_in(bytes)?),
        TokenKind::BigNumber => write_number_in(out, sent, bytes),
        TokenKind::VerbatimString => write_verbatim_in(out, sent, text_in(bytes)?),
        _ => Err(WriteError::NoSpelling),
    }
}

/// Appends a simple string.
fn write_simple_in(out: &mut Vec<u8>, sent: Sent, text: &str) -> Result<(), WriteError>
    ensures { (d : ℕ) → AppendsText result (spelled_in sent (suc d) (SimpleString text.now))
        out.old.items out.new.items }
{
    match sent {
        Some(ProtocolVersion::RESP2) => write_simple(out, text),
        Some(ProtocolVersion::RESP3) => write_simple(out, text),
        None => Ok(()),
    }
}

/// Appends a bulk string.
fn write_bulk_in(out: &mut Vec<u8>, sent: Sent, bytes: &[u8]) -> Result<(), WriteError>
    ensures { (d : ℕ) → AppendsText result (spelled_in sent (suc d) (BulkString bytes.now))
        out.old.items out.new.items }
{
    match sent {
        Some(ProtocolVersion::RESP2) => write_body(out, b'$', bytes),
        Some(ProtocolVersion::RESP3) => write_body(out, b'$', bytes),
        None => Ok(()),
    }
}

/// Appends the error of a text.
fn write_error_in(out: &mut Vec<u8>, sent: Sent, text: &str) -> Result<(), WriteError>
    ensures { (d : ℕ) → AppendsText result
        (spelled_in sent (suc d) (ServerError (server_error text.now)))
        out.old.items out.new.items }
{
    match sent {
        Some(ProtocolVersion::RESP2) => write_text(out, b'-', text.as_bytes()),
        Some(ProtocolVersion::RESP3) => write_error_text(out, text.as_bytes()),
        None => Ok(()),
    }
}

/// Appends a double.
fn write_double_in(out: &mut Vec<u8>, sent: Sent, text: &str) -> Result<(), WriteError>
    ensures { (d : ℕ) → AppendsText result (spelled_in sent (suc d) (Double text.now))
        out.old.items out.new.items }
{
    match sent {
        Some(ProtocolVersion::RESP2) => write_body(out, b'$', text.as_bytes()),
        Some(ProtocolVersion::RESP3) => write_double(out, text),
        None => Ok(()),
    }
}

/// Appends a big number.
fn write_number_in(out: &mut Vec<u8>, sent: Sent, bytes: &[u8]) -> Result<(), WriteError>
    ensures { (d : ℕ) → AppendsText result (spelled_in sent (suc d) (BigNumber bytes.now))
        out.old.items out.new.items }
{
    match sent {
        Some(ProtocolVersion::RESP2) => write_body(out, b'$', bytes),
        Some(ProtocolVersion::RESP3) => write_text(out, b'(', bytes),
        None => Ok(()),
    }
}

/// Appends the verbatim string of a format, a colon and a text, if a colon is there.
fn write_verbatim_in(out: &mut Vec<u8>, sent: Sent, text: &str) -> Result<(), WriteError>
    ensures { (d : ℕ) → AppendsText result (option_and_then (spelled_in sent (suc d)) (cut text.now))
        out.old.items out.new.items }
{
    let shown = after_colon(text)?;
    match sent {
        Some(ProtocolVersion::RESP2) => write_body(out, b'$', shown.as_bytes()),
        Some(ProtocolVersion::RESP3) => write_body(out, b'=', text.as_bytes()),
        None => Ok(()),
    }
}

/// The text after the first colon, if there is one.
fn after_colon(text: &str) -> Result<&str, WriteError>
    ensures { MatchResult result
        (λ shown. ((position_or_len is_colon text.now == length text.now) ≡ false)
        × (shown.now ≡ after_first is_colon text.now))
        (λ e. (e ≡ NoSpelling) × ((position_or_len is_colon text.now == length text.now) ≡ true)) }
{
    match text.split_once(':') {
        Some((_, shown)) => Ok(shown),
        None => Err(WriteError::NoSpelling),
    }
}
