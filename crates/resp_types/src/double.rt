//! Texts of doubles.

ghost use Rattle.std.specs.Prelude.{◌≡◌, IfOk, true};
ghost use Rattle.resp_from.specs.Conversion.{Converts, Decides};
ghost use Rattle.resp_parse.specs.Double.{is_double};
ghost use Rattle.resp_types.specs.Doubles.{IsDoubleOf, SpellsDouble};

use resp_args::{NumericBehavior, RedisWrite, ToRedisArgs, ToSingleRedisArg};
use resp_errors::RedisResult;
use resp_from::FromRedisValue;
use resp_from::parts::strip_attribute;
use resp_parse::is_double_text;
use resp_value::{ParsingError, Text, Value};
use std::alloc::{AllocError, Global};
use std::fmt;
use std::marker::Model;

/// A floating point number by its text: `3.5`, `-1e-7`, `inf`, `nan` (RESP3, "Doubles").
///
/// ZSCORE, ZINCRBY, INCRBYFLOAT and their like answer one: a double under RESP3, a bulk string under
/// RESP2. As an argument it is its text, so what a server answered is given back digit by digit. Two
/// are equal where their texts are: `1.0` isn't `1`.
#[derive(Drop)]
pub struct DoubleText {
    text: Text,
}

impl Model for DoubleText {
    ghost use Rattle.std.specs.Prelude.{◌≡◌, ℕ, List, true};
    ghost use Rattle.resp_parse.specs.Double.{is_double};

    ghost Value = { List ℕ };

    ghost view = { λ d. d.text };

    ghost invariant = { λ d. is_double d.text ≡ true };
}

impl DoubleText {
    /// The number that this text is: an optional sign, and then `inf`, `infinity` or `nan` in any
    /// letter case, or digits with an optional point and an optional exponent.
    ///
    /// Any other text is refused with `not a double`.
    pub fn from_str(alloc: Global, text: &str) -> Result<DoubleText, ParsingError>
        ensures converts { Converts (SpellsDouble text.now) result }
    {
        DoubleText::of_text(Text::from_str(alloc, text)?)
    }

    fn of_text(text: Text) -> Result<DoubleText, ParsingError>
        ensures decides { Decides (SpellsDouble text) result }
    {
        if is_double_text(text.as_str()) {
            Ok(DoubleText { text })
        } else {
            Err(ParsingError::from("not a double"))
        }
    }

    /// The text.
    pub fn as_str(&self) -> &str
        ensures text { result.now ≡ self.now }
        ensures double { is_double result.now ≡ true }
    {
        self.text.as_str()
    }

    /// The text, by move.
    pub fn into_text(self) -> Text
        ensures { result ≡ self }
    {
        let DoubleText { text } = self;
        text
    }

    /// An equal number.
    pub fn try_clone(&self, alloc: Global) -> Result<DoubleText, AllocError>
        ensures { IfOk result (λ d. d ≡ self.now) }
    {
        Ok(DoubleText {
            text: self.text.try_clone(alloc)?,
        })
    }
}

/// The text that a double or a text is.
fn text_of(alloc: Global, value: Value) -> Result<Text, ParsingError>
    ensures converts { Converts (IsDoubleOf value) result }
{
    match value {
        Value::Double(text) => Ok(text),
        other => Text::from_redis_value(alloc, other),
    }
}

/// A double, or what `String` accepts where it is a double's text. At most one attribute is removed
/// before a double, as many as `String` removes besides before a text.
impl FromRedisValue for DoubleText {
    ghost use Rattle.resp_types.specs.Doubles.{OfDouble};

    const WIDTH: usize = 0;

    const BYTES: bool = false;

    ghost of_value = { OfDouble };

    fn from_redis_value(alloc: Global, value: Value) -> Result<DoubleText, ParsingError> {
        let text = text_of(alloc, strip_attribute(value))?;
        DoubleText::of_text(text)
    }
}

/// The text, as one argument.
impl ToRedisArgs for DoubleText {
    ghost use Rattle.resp_args.specs.Args.{GivesOne};
    ghost use Rattle.resp_args.specs.declared.args.NumericBehavior.TheVariants.{NumberIsFloat};

    ghost gives = { GivesOne (λ d. d) };

    ghost behaviour = { λ _. NumberIsFloat };

    fn write_redis_args<W: RedisWrite>(&self, out: &mut W) -> RedisResult<()> {
        self.as_str().write_redis_args(out)
    }

    fn write_args_from_slice<W: RedisWrite>(items: &[Self], out: &mut W) -> RedisResult<()> {
        Self::write_each_arg(items, out)
    }

    fn num_of_args(&self) -> usize {
        1
    }

    fn describe_numeric_behavior(&self) -> NumericBehavior {
        NumericBehavior::NumberIsFloat
    }

    fn is_single_vec_arg(items: &[Self]) -> bool {
        items.len() == 1
    }
}

impl ToSingleRedisArg for DoubleText {
    ghost use Rattle.resp_args.specs.SingleArg.{one_argument};

    ghost single = { one_argument (λ d. d) };
}

impl fmt::Debug for DoubleText {
    fn fmt<W: fmt::Write>(&self, f: &mut fmt::Formatter<W>) -> fmt::Result {
        let text = self.as_str();
        write!(f, "DoubleText({text})")
    }
}

impl fmt::Display for DoubleText {
    ghost use Rattle.std.specs.Prelude.{Some};

    ghost output = { λ d. Some d };

    fn fmt<W: fmt::Write>(&self, f: &mut fmt::Formatter<W>) -> fmt::Result {
        let text = self.as_str();
        write!(f, "{text}")
    }
}

impl PartialEq for DoubleText {
    ghost use Rattle.std.specs.Prelude.{nat_eq};
    ghost use Rattle.std.specs.Cmp.{partial_equiv_from_equiv};
    ghost use Rattle.std.specs.Cmp.Lexicographic.{pointwise};
    ghost use Rattle.std.proofs.lemmas.Cmp.{nat_list_eq_equiv};

    ghost eq = { pointwise nat_eq };

    ghost laws = { partial_equiv_from_equiv nat_list_eq_equiv };

    fn eq(&self, other: &DoubleText) -> bool {
        self.text == other.text
    }
}

impl Eq for DoubleText {
    ghost use Rattle.std.proofs.lemmas.Cmp.{nat_list_eq_equiv};

    ghost laws = { nat_list_eq_equiv };
}
