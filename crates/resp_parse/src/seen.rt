//! Values that contracts alone see.

ghost use Rattle.std.specs.Prelude.{◌≡◌, ◌++◌, ◌∷◌, List, []};
ghost use Rattle.std.specs.Borrow.{ftrue};
ghost use Rattle.std.specs.Coded.{coded_list};
ghost use Rattle.resp_value.specs.declared.value.Value.{Value, BulkString};
ghost use Rattle.resp_value.specs.contracts.value.Value as value;
ghost use Rattle.resp_parse.specs.Grammar.{simple};
ghost use Rattle.resp_parse.specs.Shapes.{made_of};

use crate::history::History;
use crate::shape::ElementsKind;
use resp_value::Value;
use std::marker::{Model, PhantomData};
use std::mem;

/// Which values a thing shows.
trait Shows<X> {
    ghost values: { X → List Value };
}

/// Values. It takes no memory and no time: contracts alone see it.
#[derive(Drop)]
pub(crate) struct Seen {
    marker: PhantomData<()>,
    pub(crate) ghost values: { List Value } by { coded_list value.the_row.coded },
}

impl Model for Seen {
    ghost also_owns = { λ _. ftrue };
}

impl Seen {
    /// The values that it shows.
    fn of<X, M: Shows<X>>(x: &X) -> Seen
        ensures { result.values ≡ M.values x.now }
    {
        let _ = x;
        Seen {
            marker: PhantomData,
        }
    }
}

/// A value that contracts alone see.
#[derive(Drop)]
pub(crate) struct SeenValue {
    seen: Seen,
}

impl Model for SeenValue {
    ghost use Rattle.resp_value.specs.declared.value.Value.{Value as Reply};
    ghost use Rattle.resp_value.specs.contracts.value.Value as value;

    ghost Value = { Reply };

    ghost coded = { value.the_row.coded };

    ghost use Rattle.resp_parse.specs.Shapes.{first_seen};

    ghost view = { λ s. first_seen s.seen.values };
}

/// This value.
struct This;

impl Shows<&Value> for This {
    ghost use Rattle.std.specs.Prelude.{◌∷◌, []};

    ghost values = { λ v. v.now ∷ [] };
}

/// The simple string of a text.
struct OfText;

impl Shows<&str> for OfText {
    ghost use Rattle.std.specs.Prelude.{◌∷◌, []};
    ghost use Rattle.resp_parse.specs.Grammar.{simple};

    ghost values = { λ text. simple text.now ∷ [] };
}

/// The bulk string of these bytes.
struct OfBytes;

impl Shows<History> for OfBytes {
    ghost use Rattle.std.specs.Prelude.{◌∷◌, []};
    ghost use Rattle.resp_value.specs.declared.value.Value.{BulkString};

    ghost values = { λ bytes. BulkString bytes ∷ [] };
}

/// The bulk string of these bytes, which are at hand.
struct OfSlice;

impl Shows<&[u8]> for OfSlice {
    ghost use Rattle.std.specs.Prelude.{◌∷◌, []};
    ghost use Rattle.resp_value.specs.declared.value.Value.{BulkString};

    ghost values = { λ bytes. BulkString bytes.now ∷ [] };
}

/// What elements make.
struct OfElements;

impl Shows<(ElementsKind, &SeenValues)> for OfElements {
    ghost use Rattle.std.specs.Prelude.{◌∷◌, []};
    ghost use Rattle.resp_parse.specs.Shapes.{made_of};

    ghost values = { λ p. made_of p.0 p.1.now ∷ [] };
}

impl SeenValue {
    /// This value.
    pub(crate) fn of(value: &Value) -> SeenValue
        ensures { result ≡ value.now }
    {
        SeenValue {
            seen: Seen::of::<&Value, This>(&value),
        }
    }

    /// The simple string of a text.
    pub(crate) fn simple(text: &str) -> SeenValue
        ensures { result ≡ simple text.now }
    {
        SeenValue {
            seen: Seen::of::<&str, OfText>(&text),
        }
    }

    /// The bulk string of these bytes.
    pub(crate) fn bulk(bytes: &History) -> SeenValue
        ensures { result ≡ BulkString bytes.now }
    {
        SeenValue {
            seen: Seen::of::<History, OfBytes>(bytes),
        }
    }

    /// The bulk string of these bytes, which are at hand.
    pub(crate) fn bulk_of(bytes: &[u8]) -> SeenValue
        ensures { result ≡ BulkString bytes.now }
    {
        SeenValue {
            seen: Seen::of::<&[u8], OfSlice>(&bytes),
        }
    }

    /// What elements make; nil where they make nothing.
    pub(crate) fn elements(kind: ElementsKind, elements: &SeenValues) -> SeenValue
        ensures { result ≡ made_of kind elements.now }
    {
        SeenValue {
            seen: Seen::of::<(ElementsKind, &SeenValues), OfElements>(&(kind, elements)),
        }
    }
}

/// A list of values that contracts alone see.
#[derive(Drop)]
pub(crate) struct SeenValues {
    seen: Seen,
}

impl Model for SeenValues {
    ghost use Rattle.std.specs.Prelude.{List};
    ghost use Rattle.resp_value.specs.declared.value.Value.{Value as Reply};
    ghost use Rattle.resp_value.specs.contracts.value.Value as value;
    ghost use Rattle.std.specs.Coded.{coded_list};

    ghost Value = { List Reply };

    ghost coded = { coded_list value.the_row.coded };

    ghost view = { λ s. s.seen.values };
}

/// No value.
struct Nothing;

impl Shows<()> for Nothing {
    ghost use Rattle.std.specs.Prelude.{[]};

    ghost values = { λ _. [] };
}

/// Values, and one more.
struct More;

impl Shows<(Seen, &SeenValue)> for More {
    ghost use Rattle.std.specs.Prelude.{◌++◌, ◌∷◌, []};

    ghost values = { λ p. p.0.values ++ (p.1.now ∷ []) };
}

impl SeenValues {
    /// No value.
    pub(crate) fn new() -> SeenValues
        ensures { result ≡ [] }
    {
        SeenValues {
            seen: Seen::of::<(), Nothing>(&()),
        }
    }

    /// One more.
    pub(crate) fn push(&mut self, value: &SeenValue)
        ensures { self.new ≡ self.old ++ (value.now ∷ []) }
    {
        let before = mem::replace(&mut self.seen, Seen::of::<(), Nothing>(&()));
        self.seen = Seen::of::<(Seen, &SeenValue), More>(&(before, value));
    }
}
