//! The forms of replies that types are read of.

ghost use Rattle.std.specs.Prelude.{◌≡◌, ◌≢◌, ◌<◌, ℕ, List, IfSome, MatchResult, true, false};
ghost use Rattle.std.specs.Result.{IsErrAnd};
ghost use Rattle.resp_errors.specs.declared.parsing_error.ParsingError.TheVariants as parsing;
ghost use Rattle.resp_value.specs.declared.value.Value.{Value, out-Value};
ghost use Rattle.resp_flat.specs.declared.token.TokenKind.{TokenKind};
ghost use Rattle.resp_flat.specs.declared.token.TokenKind.TheVariants as kind;
ghost use Rattle.resp_flat.specs.FlatValues.{kind_of, int_of, truth_of, count_of};
ghost use Rattle.resp_flat.specs.FlatValues.{elements_of, pairs_of};
ghost use Rattle.resp_from.specs.Conversion.{Converts};
ghost use Rattle.resp_from.specs.Lines.{IsLine, is_list};
ghost use Rattle.resp_from.specs.Replies.{GivesNext, BothShow, RefusesTokens};
ghost use Rattle.resp_from.specs.Texts.{OfText};

use crate::texts::{text_of, text_of_cursor};
use resp_errors::RedisError;
use resp_flat::{FlatElements, FlatPairs, FlatValue, TokenKind};
use resp_value::{MapIter, OwnedMapIter, ParsingError, Text, Value};
use std::alloc::Global;
use std::vec::IntoIter;

/// A reply in a form that types are read of: a tree, of which the parts are moved, a borrowed tree,
/// or a cursor in a flat reply.
pub trait Reply: Sized + Drop {
    /// The values of an array or a set that are left, in this form.
    type Elements: Drop;

    /// The keys and values of a map that are left, in this form.
    type Pairs: Drop;

    // Holds of a reply and the value that it shows.
    ghost shows: { Self → Value → Type 0 };

    // Holds of a reply that shows no value: of no tree.
    ghost shows_nothing: { Self → Type 0 };

    // What a reply is, whether it shows a value or not.
    ghost token_kind: { Self → TokenKind };

    // Holds of what is left and the values that it shows.
    ghost show: { Self.Elements → List Value → Type 0 };

    ghost pairs_show: { Self.Pairs → List (Value × Value) → Type 0 };

    // At most so many are left.
    ghost elements_left: { Self.Elements → ℕ };

    ghost pairs_left: { Self.Pairs → ℕ };

    /// What it is.
    fn kind(&self) -> TokenKind
        ensures shown { (v : Value) → shows self.now v → result ≡ kind_of v }
        ensures token { result ≡ token_kind self.now };

    /// The integer, of [`TokenKind::Int`].
    fn as_int(&self) -> Option<i64>
        ensures shown { (v : Value) → shows self.now v → result ≡ int_of v };

    /// The truth value, of [`TokenKind::Boolean`].
    fn as_bool(&self) -> Option<bool>
        ensures shown { (v : Value) → shows self.now v → result ≡ truth_of v };

    /// The bytes of a simple string or of a bulk string.
    fn as_line(&self) -> Option<&[u8]>
        ensures shown { (v : Value) → shows self.now v
            → IfSome result (λ bytes. IsLine (out-Value v) bytes.now) };

    /// How many values an array or a set has.
    fn len(&self) -> usize
        ensures shown { (v : Value) → shows self.now v → is_list (out-Value v) ≡ true
            → result ≡ count_of v };

    /// The values of an array or a set; any other reply comes back.
    fn into_elements(self) -> Result<Self::Elements, Self>
        ensures shown { (v : Value) → shows self v → MatchResult result
            (λ elements. (is_list (out-Value v) ≡ true) × show elements (elements_of v))
            (λ other. (is_list (out-Value v) ≡ false) × shows other v) };

    /// The keys and values of a map; any other reply comes back.
    fn into_pairs(self) -> Result<Self::Pairs, Self>
        ensures shown { (v : Value) → shows self v → MatchResult result
            (λ pairs. (kind_of v ≡ kind.Map) × pairs_show pairs (pairs_of v))
            (λ other. (kind_of v ≢ kind.Map) × shows other v) }
        ensures none { MatchResult result (λ _. token_kind self ≡ kind.Map)
            (λ other. shows_nothing self → shows_nothing other) };

    /// The next of the elements that are left.
    fn next_of(elements: &mut Self::Elements) -> Option<Self>
        ensures fewer { IfSome result (λ _. elements_left elements.new < elements_left elements.old) }
        ensures next { (vs : List Value) → show elements.old vs
            → GivesNext shows (show elements.new) result vs };

    /// The next of the pairs that are left.
    fn next_pair_of(pairs: &mut Self::Pairs) -> Option<(Self, Self)>
        ensures fewer { IfSome result (λ _. pairs_left pairs.new < pairs_left pairs.old) }
        ensures next { (ps : List (Value × Value)) → pairs_show pairs.old ps
            → GivesNext (BothShow shows) (pairs_show pairs.new) result ps };

    /// The text; one that stands in a tree is moved.
    fn into_text(self, alloc: Global) -> Result<Text, ParsingError>
        ensures converts { (v : Value) → shows self v → Converts (OfText v) result };

    /// The value, as a tree.
    ///
    /// Refused with the text `the tokens and the text are no value's` where it shows none, or on
    /// `OutOfMemory`.
    fn into_value(self, alloc: Global) -> Result<Value, ParsingError>
        ensures value { (v : Value) → shows self v
            → MatchResult result (λ tree. tree ≡ v) (λ e. e ≡ parsing.OutOfMemory) }
        ensures refused { shows_nothing self → IsErrAnd result RefusesTokens };
}

/// A cursor in a flat reply shows the value that it stands at, if that can be read back.
impl<'a> Reply for FlatValue<'a> {
    ghost use Rattle.std.specs.Prelude.{length};
    ghost use Rattle.resp_flat.specs.FlatValues.{elements_left, kind_at, pairs_left, view_of};
    ghost use Rattle.resp_flat.specs.Readable.{IsNoValue};
    ghost use Rattle.resp_from.specs.Replies.{ShowsReadable, ShowReadable, PairsShowReadable};

    type Elements = FlatElements<'a>;

    type Pairs = FlatPairs<'a>;

    ghost shows = { ShowsReadable };

    ghost shows_nothing = { λ c. IsNoValue 1000 (view_of c) };

    ghost token_kind = { kind_at };

    ghost show = { ShowReadable };

    ghost pairs_show = { PairsShowReadable };

    ghost elements_left = { λ elements. length (elements_left elements) };

    ghost pairs_left = { λ pairs. length (pairs_left pairs) };

    fn kind(&self) -> TokenKind {
        FlatValue::kind(self)
    }

    fn as_int(&self) -> Option<i64> {
        FlatValue::as_int(self)
    }

    fn as_bool(&self) -> Option<bool> {
        FlatValue::as_bool(self)
    }

    fn as_line(&self) -> Option<&[u8]> {
        match FlatValue::kind(self) {
            TokenKind::SimpleString | TokenKind::BulkString => self.as_bytes(),
            _ => None,
        }
    }

    fn len(&self) -> usize {
        FlatValue::len(self)
    }

    fn into_elements(self) -> Result<FlatElements<'a>, FlatValue<'a>> {
        match FlatValue::kind(&self) {
            TokenKind::Array | TokenKind::Set => Ok(self.elements()),
            _ => Err(self),
        }
    }

    fn into_pairs(self) -> Result<FlatPairs<'a>, FlatValue<'a>> {
        match FlatValue::kind(&self) {
            TokenKind::Map => Ok(self.pairs()),
            _ => Err(self),
        }
    }

    fn next_of(elements: &mut FlatElements<'a>) -> Option<FlatValue<'a>> {
        elements.next()
    }

    fn next_pair_of(pairs: &mut FlatPairs<'a>) -> Option<(FlatValue<'a>, FlatValue<'a>)> {
        pairs.next()
    }

    fn into_text(self, alloc: Global) -> Result<Text, ParsingError> {
        text_of_cursor(alloc, self)
    }

    fn into_value(self, alloc: Global) -> Result<Value, ParsingError> {
        match self.to_value(alloc) {
            Ok(tree) => Ok(tree),
            Err(RedisError::OutOfMemory) => Err(ParsingError::OutOfMemory),
            Err(_) => Err(ParsingError::from("the tokens and the text are no value's")),
        }
    }
}

/// What a tree is.
fn kind_of(value: &Value) -> TokenKind
    ensures { result ≡ kind_of value.now }
{
    match value {
        Value::Nil => TokenKind::Nil,
        Value::Okay => TokenKind::Okay,
        Value::Int(_) => TokenKind::Int,
        Value::SimpleString(_) => TokenKind::SimpleString,
        Value::BulkString(_) => TokenKind::BulkString,
        Value::Array(_) => TokenKind::Array,
        Value::Map(_) => TokenKind::Map,
        Value::Attribute { .. } => TokenKind::Attribute,
        Value::ServerError(_) => TokenKind::ServerError,
        Value::Boolean(_) => TokenKind::Boolean,
        Value::Double(_) => TokenKind::Double,
        Value::BigNumber(_) => TokenKind::BigNumber,
        Value::Set(_) => TokenKind::Set,
        Value::VerbatimString { .. } => TokenKind::VerbatimString,
        Value::Push { .. } => TokenKind::Push,
    }
}

/// A tree shows itself. Its parts are moved out of it.
impl Reply for Value {
    ghost use Rattle.std.specs.Prelude.{◌≡◌, length};
    ghost use Rattle.std.specs.Vec.Iter.{into_iter_items};
    ghost use Rattle.resp_value.specs.MapIters.{owned_pairs_left};
    ghost use Rattle.resp_flat.specs.FlatValues.{kind_of};

    type Elements = IntoIter<Value>;

    type Pairs = OwnedMapIter;

    ghost shows = { λ reply v. reply ≡ v };

    ghost shows_nothing = { λ _. ⊥ };

    ghost token_kind = { kind_of };

    ghost show = { λ elements vs. into_iter_items elements ≡ vs };

    ghost pairs_show = { λ pairs ps. owned_pairs_left pairs ≡ ps };

    ghost elements_left = { λ elements. length (into_iter_items elements) };

    ghost pairs_left = { λ pairs. length (owned_pairs_left pairs) };

    fn kind(&self) -> TokenKind {
        kind_of(self)
    }

    fn as_int(&self) -> Option<i64> {
        match self {
            Value::Int(number) => Some(*number),
            _ => None,
        }
    }

    fn as_bool(&self) -> Option<bool> {
        match self {
            Value::Boolean(truth) => Some(*truth),
            _ => None,
        }
    }

    fn as_line(&self) -> Option<&[u8]> {
        match self {
            Value::SimpleString(text) => Some(text.as_str().as_bytes()),
            Value::BulkString(bytes) => Some(bytes.as_slice()),
            _ => None,
        }
    }

    fn len(&self) -> usize {
        match self {
            Value::Array(elements) | Value::Set(elements) => elements.len(),
            _ => 0,
        }
    }

    fn into_elements(self) -> Result<IntoIter<Value>, Value> {
        match self {
            Value::Array(elements) => Ok(elements.into_vec().into_iter()),
            Value::Set(elements) => Ok(elements.into_vec().into_iter()),
            other => Err(other),
        }
    }

    fn into_pairs(self) -> Result<OwnedMapIter, Value> {
        match kind_of(&self) {
            TokenKind::Map => self.into_map_iter(),
            _ => Err(self),
        }
    }

    fn next_of(elements: &mut IntoIter<Value>) -> Option<Value> {
        elements.next()
    }

    fn next_pair_of(pairs: &mut OwnedMapIter) -> Option<(Value, Value)> {
        pairs.next()
    }

    fn into_text(self, alloc: Global) -> Result<Text, ParsingError> {
        text_of(alloc, self)
    }

    fn into_value(self, _alloc: Global) -> Result<Value, ParsingError> {
        Ok(self)
    }
}

/// A borrowed tree shows the tree. Its texts are copied.
impl<'a> Reply for &'a Value {
    ghost use Rattle.std.specs.Prelude.{◌≡◌, length};
    ghost use Rattle.resp_value.specs.MapIters.{pairs_left};
    ghost use Rattle.resp_flat.specs.FlatValues.{kind_of};

    type Elements = &'a [Value];

    type Pairs = MapIter<'a>;

    ghost shows = { λ reply v. reply.now ≡ v };

    ghost shows_nothing = { λ _. ⊥ };

    ghost token_kind = { λ reply. kind_of reply.now };

    ghost show = { λ elements vs. elements.now ≡ vs };

    ghost pairs_show = { λ pairs ps. pairs_left pairs ≡ ps };

    ghost elements_left = { λ elements. length elements.now };

    ghost pairs_left = { λ pairs. length (pairs_left pairs) };

    fn kind(&self) -> TokenKind {
        kind_of(*self)
    }

    fn as_int(&self) -> Option<i64> {
        Value::as_int(*self)
    }

    fn as_bool(&self) -> Option<bool> {
        Value::as_bool(*self)
    }

    fn as_line(&self) -> Option<&[u8]> {
        Value::as_line(*self)
    }

    fn len(&self) -> usize {
        Value::len(*self)
    }

    fn into_elements(self) -> Result<&'a [Value], &'a Value> {
        match self {
            Value::Array(elements) | Value::Set(elements) => Ok(elements.as_slice()),
            _ => Err(self),
        }
    }

    fn into_pairs(self) -> Result<MapIter<'a>, &'a Value> {
        match self {
            Value::Map(_) => self.as_map_iter().ok_or(self),
            _ => Err(self),
        }
    }

    fn next_of(elements: &mut &'a [Value]) -> Option<&'a Value> {
        let (element, others) = elements.split_first()?;
        *elements = others;
        Some(element)
    }

    fn next_pair_of(pairs: &mut MapIter<'a>) -> Option<(&'a Value, &'a Value)> {
        pairs.next()
    }

    fn into_text(self, alloc: Global) -> Result<Text, ParsingError> {
        text_of(alloc, self.try_clone(alloc)?)
    }

    fn into_value(self, alloc: Global) -> Result<Value, ParsingError> {
        Ok(self.try_clone(alloc)?)
    }
}
