//! Replies without their attribute.

ghost use Rattle.std.specs.Prelude.{◌≡◌};
ghost use Rattle.resp_from.specs.Attributes.{stripped};

use resp_value::Value;

/// The value of a reply without its attribute, if it has one; at most one is removed.
pub fn strip_attribute(value: Value) -> Value
    ensures { result ≡ stripped value }
{
    match value {
        Value::Attribute { payload, .. } => payload.into_inner(),
        value => value,
    }
}

/// The same of a borrowed reply.
pub fn strip_attribute_ref(value: &Value) -> &Value
    ensures { result.now ≡ stripped value.now }
{
    match value {
        Value::Attribute { payload, .. } => payload.get(),
        value => value,
    }
}
