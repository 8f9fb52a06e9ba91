//! The bytes of values, as a server sends them.

ghost use Rattle.std.specs.Prelude.{◌≡◌, ◌∷◌, ◌*◌, suc, length, Some, OnOk, OnErr, IfErr};
ghost use Rattle.std.specs.Fmt.{◌++?◌};
ghost use Rattle.resp_value.specs.declared.value.Value.{out-Value, BulkString};
ghost use Rattle.resp_args.specs.declared.options.ProtocolVersion.TheVariants as version;
ghost use Rattle.resp_parse.specs.Limits.{usual};
ghost use Rattle.resp_encode.specs.Resp2.{flat};
ghost use Rattle.resp_encode.specs.Encoding.{joined, spelling, push_of};
ghost use Rattle.resp_encode.specs.Resp2Encoding.{resp2_spelling};
ghost use Rattle.resp_encode.specs.Encodings.{encoding_in, RefusalFor, RefusesValue};
ghost use Rattle.resp_encode.specs.Appending.{AppendsText, counted};

use crate::lines::{write_body, write_integer, write_length, write_line, write_text};
use crate::own_names::has_own_kind;
use crate::texts::{
    write_double, write_error, write_error_line, write_okay, write_simple, write_verbatim,
};
use crate::write_error::WriteError;
use resp_args::ProtocolVersion;
use resp_errors::{ErrorKind, RedisError, RedisResult};
use resp_parse::Limits;
use resp_value::{PushKind, Value};
use std::alloc::AllocError;

/// Appends the bytes that a server sends for a value, up to 100 levels of values inside values.
///
/// In RESP3 these are the value's own: a [`Parser`](resp_parse::Parser) reads them as the value,
/// and as nothing else ([`law_of_encoding`](crate::laws::law_of_encoding)). In RESP2 they are those of
/// the value's form in the types of RESP2, [`as_resp2`](crate::as_resp2), and are read as that
/// ([`law_of_resp2_encoding`](crate::laws::law_of_resp2_encoding)); the form isn't made.
///
/// Refused with kind `Client` where no bytes spell the value, as a simple string with CR LF in it,
/// or a value below the last level, and else only with `OutOfMemory`. A refused call leaves the
/// bytes as they were.
pub fn encode(value: &Value, protocol: ProtocolVersion, out: &mut Vec<u8>) -> RedisResult<()>
    ensures appended { OnOk result ((Some out.old.items
        ++? encoding_in protocol usual.depth value.now) ≡ Some out.new.items) }
    ensures refused { IfErr result (RefusesValue (encoding_in protocol usual.depth value.now)) }
    ensures unchanged { OnErr result (out.new.items ≡ out.old.items) }
{
    encode_within(value, protocol, Limits::default().depth, out)
}

/// The room that is made in a buffer without bytes, so that a short value's doesn't grow in steps.
const AT_FIRST: usize = 96;

/// As [`encode`], up to so many levels of values inside values, the outermost being the first.
///
/// Of a value deeper than that no byte is written. In RESP2 an attribute and its data are two
/// levels.
#[tactic(auto, unfolding(crate::specs::Appending::AppendsText))]
pub fn encode_within(
    value: &Value,
    protocol: ProtocolVersion,
    depth: usize,
    out: &mut Vec<u8>,
) -> RedisResult<()>
    ensures appended { OnOk result ((Some out.old.items ++? encoding_in protocol depth value.now)
        ≡ Some out.new.items) }
    ensures refused { IfErr result (RefusesValue (encoding_in protocol depth value.now)) }
    ensures unchanged { OnErr result (out.new.items ≡ out.old.items) }
{
    if out.capacity() == 0 {
        make_room(out)?;
    }
    let before = out.len();
    match write_value(out, value, protocol, depth) {
        Ok(()) => Ok(()),
        Err(error) => {
            out.truncate(before);
            Err(refusal(error))
        }
    }
}

/// Makes room for a short value; not inlined, so that buffers with room save no registers for it.
#[inline(never)]
fn make_room(out: &mut Vec<u8>) -> Result<(), AllocError>
    ensures { out.new.items ≡ out.old.items }
{
    out.reserve(AT_FIRST)
}

/// What a call answers that doesn't write a value.
pub(crate) fn refusal(error: WriteError) -> RedisError
    ensures { RefusalFor error result }
{
    match error {
        WriteError::Memory => RedisError::OutOfMemory,
        WriteError::NoSpelling => {
            RedisError::from((ErrorKind::Client, "the value has no encoding"))
        }
    }
}

/// Appends a value, if there are bytes for it.
#[cycle(write)]
fn write_value(
    out: &mut Vec<u8>,
    value: &Value,
    protocol: ProtocolVersion,
    depth: usize,
) -> Result<(), WriteError>
    ensures { AppendsText result (encoding_in protocol depth value.now)
        out.old.items out.new.items }
{
    if depth == 0 {
        return Err(WriteError::NoSpelling);
    }
    match protocol {
        ProtocolVersion::RESP2 => write_resp2(out, value, depth - 1),
        ProtocolVersion::RESP3 => write_resp3(out, value, depth - 1),
    }
}

/// Appends a value in RESP3, whose elements have so many levels.
#[cycle(write)]
fn write_resp3(out: &mut Vec<u8>, value: &Value, depth: usize) -> Result<(), WriteError>
    ensures { AppendsText result (spelling (encoding_in version.RESP3 depth) (out-Value value.now))
        out.old.items out.new.items }
{
    let protocol = ProtocolVersion::RESP3;
    match value {
        Value::Nil => write_line(out, b'_', b""),
        Value::Okay => write_okay(out),
        Value::Int(n) => write_integer(out, *n),
        Value::SimpleString(text) => write_simple(out, text.as_str()),
        Value::BulkString(bytes) => write_body(out, b'$', bytes.as_slice()),
        Value::Array(elements) => write_array(out, b'*', elements.as_slice(), protocol, depth),
        Value::Map(pairs) => write_map(out, b'%', pairs.as_slice(), depth),
        Value::Attribute {
            payload,
            attributes,
        } => {
            write_map(out, b'|', attributes.as_slice(), depth)?;
            write_value(out, payload.get(), protocol, depth)
        }
        Value::ServerError(error) => write_error(out, error),
        Value::Boolean(truth) => write_line(out, b'#', if *truth { b"t" } else { b"f" }),
        Value::Double(text) => write_double(out, text.as_str()),
        Value::BigNumber(bytes) => write_text(out, b'(', bytes.as_slice()),
        Value::Set(elements) => write_array(out, b'~', elements.as_slice(), protocol, depth),
        Value::VerbatimString { format, text } => write_verbatim(out, format, text.as_str()),
        Value::Push { kind, payload } => write_push(out, kind, payload.as_slice(), depth),
    }
}

/// Appends a value in RESP2, whose elements have so many levels.
#[cycle(write)]
fn write_resp2(out: &mut Vec<u8>, value: &Value, depth: usize) -> Result<(), WriteError>
    ensures { AppendsText result
        (resp2_spelling (encoding_in version.RESP2 depth) (out-Value value.now))
        out.old.items out.new.items }
{
    let protocol = ProtocolVersion::RESP2;
    match value {
        Value::Nil => write_line(out, b'$', b"-1"),
        Value::Okay => write_okay(out),
        Value::Int(n) => write_integer(out, *n),
        Value::SimpleString(text) => write_simple(out, text.as_str()),
        Value::BulkString(bytes) => write_body(out, b'$', bytes.as_slice()),
        Value::Array(elements) => write_array(out, b'*', elements.as_slice(), protocol, depth),
        Value::Map(pairs) => write_flat(out, pairs.as_slice(), depth),
        Value::Attribute { payload, .. } => write_value(out, payload.get(), protocol, depth),
        Value::ServerError(error) => write_error_line(out, error),
        Value::Boolean(truth) => write_line(out, b':', if *truth { b"1" } else { b"0" }),
        Value::Double(text) => write_body(out, b'$', text.as_str().as_bytes()),
        Value::BigNumber(bytes) => write_body(out, b'$', bytes.as_slice()),
        Value::Set(elements) => write_array(out, b'*', elements.as_slice(), protocol, depth),
        Value::VerbatimString { text, .. } => write_body(out, b'$', text.as_str().as_bytes()),
        Value::Push { kind, payload } => {
            write_named(out, b'*', kind.name(), payload.as_slice(), protocol, depth)
        }
    }
}

/// Appends the line of a count, and values.
#[cycle(write)]
fn write_array(
    out: &mut Vec<u8>,
    mark: u8,
    elements: &[Value],
    protocol: ProtocolVersion,
    depth: usize,
) -> Result<(), WriteError>
    ensures { AppendsText result (counted mark (length elements.now)
        ++? joined (encoding_in protocol depth) elements.now) out.old.items out.new.items }
{
    write_length(out, mark, elements.len())?;
    write_elements(out, elements, protocol, depth)
}

/// Appends values one after another.
#[cycle(write)]
fn write_elements(
    out: &mut Vec<u8>,
    elements: &[Value],
    protocol: ProtocolVersion,
    depth: usize,
) -> Result<(), WriteError>
    ensures { AppendsText result (joined (encoding_in protocol depth) elements.now)
        out.old.items out.new.items }
{
    for element in elements {
        write_value(out, element, protocol, depth)?;
    }
    Ok(())
}

/// Appends the line of a count and pairs.
#[cycle(write)]
fn write_map(
    out: &mut Vec<u8>,
    mark: u8,
    pairs: &[(Value, Value)],
    depth: usize,
) -> Result<(), WriteError>
    ensures { AppendsText result (counted mark (length pairs.now)
        ++? joined (encoding_in version.RESP3 depth) (flat pairs.now)) out.old.items out.new.items }
{
    write_length(out, mark, pairs.len())?;
    write_pairs(out, pairs, ProtocolVersion::RESP3, depth)
}

/// Appends the line of the number of keys and values, and these.
#[cycle(write)]
fn write_flat(out: &mut Vec<u8>, pairs: &[(Value, Value)], depth: usize) -> Result<(), WriteError>
    ensures { AppendsText result (counted 42 (2 * length pairs.now)
        ++? joined (encoding_in version.RESP2 depth) (flat pairs.now)) out.old.items out.new.items }
{
    let Some(count) = pairs.len().checked_mul(2) else {
        return Err(WriteError::NoSpelling);
    };
    write_length(out, b'*', count)?;
    write_pairs(out, pairs, ProtocolVersion::RESP2, depth)
}

/// Appends keys and values, each key before its value.
#[cycle(write)]
fn write_pairs(
    out: &mut Vec<u8>,
    pairs: &[(Value, Value)],
    protocol: ProtocolVersion,
    depth: usize,
) -> Result<(), WriteError>
    ensures { AppendsText result (joined (encoding_in protocol depth) (flat pairs.now))
        out.old.items out.new.items }
{
    for (key, value) in pairs {
        write_value(out, key, protocol, depth)?;
        write_value(out, value, protocol, depth)?;
    }
    Ok(())
}

/// Appends a push in RESP3: one without elements where its kind has no name and there is no data.
#[cycle(write)]
fn write_push(
    out: &mut Vec<u8>,
    kind: &PushKind,
    payload: &[Value],
    depth: usize,
) -> Result<(), WriteError>
    ensures { AppendsText result (push_of (encoding_in version.RESP3 depth) kind.now payload.now)
        out.old.items out.new.items }
{
    let name = kind.name();
    if name.is_empty() && payload.is_empty() {
        return write_line(out, b'>', b"0");
    }
    if !has_own_kind(*out.allocator(), kind)? {
        return Err(WriteError::NoSpelling);
    }
    write_named(out, b'>', name, payload, ProtocolVersion::RESP3, depth)
}

/// Appends the line of a count, a name and values.
#[cycle(write)]
fn write_named(
    out: &mut Vec<u8>,
    mark: u8,
    name: &str,
    payload: &[Value],
    protocol: ProtocolVersion,
    depth: usize,
) -> Result<(), WriteError>
    ensures { AppendsText result (counted mark (suc (length payload.now))
        ++? joined (encoding_in protocol depth) (BulkString name.now ∷ payload.now))
        out.old.items out.new.items }
{
    let Some(count) = payload.len().checked_add(1) else {
        return Err(WriteError::NoSpelling);
    };
    write_length(out, mark, count)?;
    write_name(out, name, protocol, depth)?;
    write_elements(out, payload, protocol, depth)
}

/// Appends a name as a bulk string, one level deeper than what it names.
pub(crate) fn write_name(
    out: &mut Vec<u8>,
    name: &str,
    protocol: ProtocolVersion,
    depth: usize,
) -> Result<(), WriteError>
    ensures { AppendsText result (encoding_in protocol depth (BulkString name.now))
        out.old.items out.new.items }
{
    if depth == 0 {
        return Err(WriteError::NoSpelling);
    }
    match protocol {
        ProtocolVersion::RESP2 => write_body(out, b'$', name.as_bytes()),
        ProtocolVersion::RESP3 => write_body(out, b'$', name.as_bytes()),
    }
}
