//! Values in the types of RESP2.

ghost use Rattle.std.specs.Prelude.{◌≡◌, ◌∷◌, ◌++◌, map, IfOk, OnOk};
ghost use Rattle.resp_value.specs.declared.value.Value.{BulkString};
ghost use Rattle.resp_value.specs.Names.{name_of_push_kind};
ghost use Rattle.resp_errors.specs.Memory.{OnlyMemory};
ghost use Rattle.resp_encode.specs.Resp2.{flat, resp2_of};

use resp_containers::{Bytes, Items};
use resp_errors::RedisResult;
use resp_value::{PushKind, Value};
use std::alloc::{AllocError, Global};

/// The value as Redis sends it to a client of RESP2, which lacks the types of RESP3.
///
/// A map is the array of its keys and values, a set an array, and a push an array with the name of
/// its kind first, a bulk string. A double, a big number and a verbatim string are the bulk string
/// of their text, a boolean is 1 or 0, and an attribute is its data alone. Every other value stays
/// as it is, its elements in this form.
///
/// The value stays as it is: what is sent to the client may be kept or looked at too. Fails only
/// with `OutOfMemory`.
pub fn as_resp2(alloc: Global, value: &Value) -> RedisResult<Value>
    ensures form { IfOk result (λ v. v ≡ resp2_of value.now) }
    ensures memory { OnlyMemory result }
{
    Ok(form_of(alloc, value)?)
}

#[cycle(resp2)]
fn form_of(alloc: Global, value: &Value) -> Result<Value, AllocError>
    ensures { IfOk result (λ v. v ≡ resp2_of value.now) }
{
    match value {
        Value::Nil => Ok(Value::Nil),
        Value::Okay => Ok(Value::Okay),
        Value::Int(n) => Ok(Value::Int(*n)),
        Value::SimpleString(text) => Ok(Value::SimpleString(text.try_clone(alloc)?)),
        Value::BulkString(bytes) => bulk_string(alloc, bytes.as_slice()),
        Value::Array(elements) => Ok(Value::Array(forms_of(alloc, elements)?)),
        Value::Map(pairs) => Ok(Value::Array(flat_forms_of(alloc, pairs)?)),
        Value::Attribute { payload, .. } => form_of(alloc, payload.get()),
        Value::ServerError(error) => Ok(Value::ServerError(error.try_clone(alloc)?)),
        Value::Boolean(truth) => Ok(Value::Int(if *truth { 1 } else { 0 })),
        Value::Double(text) => bulk_string(alloc, text.as_str().as_bytes()),
        Value::BigNumber(bytes) => bulk_string(alloc, bytes.as_slice()),
        Value::Set(elements) => Ok(Value::Array(forms_of(alloc, elements)?)),
        Value::VerbatimString { text, .. } => bulk_string(alloc, text.as_str().as_bytes()),
        Value::Push { kind, payload } => Ok(Value::Array(push_forms_of(alloc, kind, payload)?)),
    }
}

fn bulk_string(alloc: Global, bytes: &[u8]) -> Result<Value, AllocError>
    ensures { IfOk result (λ v. v ≡ BulkString bytes.now) }
{
    Ok(Value::BulkString(Bytes::from_slice(alloc, bytes)?))
}

#[cycle(resp2)]
fn forms_of(alloc: Global, elements: &Items<Value>) -> Result<Items<Value>, AllocError>
    ensures { IfOk result (λ forms. forms ≡ map resp2_of elements.now) }
{
    let mut forms = Items::new(alloc);
    push_forms(alloc, elements.as_slice(), &mut forms)?;
    Ok(forms)
}

#[cycle(resp2)]
fn flat_forms_of(alloc: Global, pairs: &Items<(Value, Value)>) -> Result<Items<Value>, AllocError>
    ensures { IfOk result (λ forms. forms
        ≡ flat (map (λ p. (resp2_of p.0, resp2_of p.1)) pairs.now)) }
{
    let mut forms = Items::new(alloc);
    push_flat_forms(alloc, pairs.as_slice(), &mut forms)?;
    Ok(forms)
}

#[cycle(resp2)]
fn push_forms_of(
    alloc: Global,
    kind: &PushKind,
    payload: &Items<Value>,
) -> Result<Items<Value>, AllocError>
    ensures { IfOk result (λ forms. forms
        ≡ BulkString (name_of_push_kind kind.now) ∷ map resp2_of payload.now) }
{
    let mut forms = Items::new(alloc);
    forms.push(bulk_string(alloc, kind.name().as_bytes())?)?;
    push_forms(alloc, payload.as_slice(), &mut forms)?;
    Ok(forms)
}

/// Pushes the forms of elements.
#[cycle(resp2)]
fn push_forms(alloc: Global, elements: &[Value], forms: &mut Items<Value>) -> Result<(), AllocError>
    ensures { OnOk result (forms.new ≡ forms.old ++ map resp2_of elements.now) }
{
    for element in elements {
        forms.push(form_of(alloc, element)?)?;
    }
    Ok(())
}

/// Pushes the forms of keys and values, each key's before its value's.
#[cycle(resp2)]
fn push_flat_forms(
    alloc: Global,
    pairs: &[(Value, Value)],
    forms: &mut Items<Value>,
) -> Result<(), AllocError>
    ensures { OnOk result (forms.new
        ≡ forms.old ++ flat (map (λ p. (resp2_of p.0, resp2_of p.1)) pairs.now)) }
{
    for (key, value) in pairs {
        forms.push(form_of(alloc, key)?)?;
        forms.push(form_of(alloc, value)?)?;
    }
    Ok(())
}
