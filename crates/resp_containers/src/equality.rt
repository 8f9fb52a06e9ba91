//! Types whose `==` is structural.

ghost use Rattle.std.specs.Prelude.{◌≡◌, ◌↔◌, IsTrue};
ghost use Rattle.resp_containers.specs.Equality.{IsStructural};

use crate::boxed::Boxed;
use crate::bytes::Bytes;
use crate::items::Items;
use crate::text::Text;

/// A type whose `==` is structural: values that it calls equal are the same, as contracts see them.
/// Of a text its bytes count, of a list its elements, of a tree the whole tree.
pub trait StructuralEq: Eq {
    ghost structural: { IsStructural Self.eq };
}

/// Values of such a type are equal exactly where they are the same.
pub fn law_of_equal_values<T: StructuralEq>()
    ensures { (a b : T) → IsTrue (T.eq a b) ↔ (a ≡ b) }
{}

impl StructuralEq for u8 {
    ghost use Rattle.resp_containers.specs.lemmas.Equality.{same_numbers};

    ghost structural = { same_numbers };
}

impl StructuralEq for Bytes {
    ghost use Rattle.resp_containers.specs.lemmas.Equality.{same_bytes};

    ghost structural = { same_bytes };
}

impl StructuralEq for Text {
    ghost use Rattle.resp_containers.specs.lemmas.Equality.{same_bytes};

    ghost structural = { same_bytes };
}

impl<T: StructuralEq> StructuralEq for Items<T> {
    ghost use Rattle.resp_containers.specs.lemmas.Equality.{same_lists};

    ghost structural = { same_lists T.structural };
}

impl<T: StructuralEq> StructuralEq for Boxed<T> {
    ghost structural = { T.structural };
}

impl<T: StructuralEq> StructuralEq for Option<T> {
    ghost use Rattle.resp_containers.specs.lemmas.Equality.{same_options};

    ghost structural = { same_options T.structural };
}

impl<A: StructuralEq, B: StructuralEq> StructuralEq for (A, B) {
    ghost use Rattle.resp_containers.specs.lemmas.Equality.{same_pairs};

    ghost structural = { same_pairs A.structural B.structural };
}
