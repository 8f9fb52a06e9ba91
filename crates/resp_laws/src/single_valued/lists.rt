//! Lists.

use crate::single_valued::SingleValued;
use resp_value::Items;
use std::boxed::BoxedSlice;

impl<T: SingleValued> SingleValued for Vec<T> {
    ghost use Rattle.std.specs.Prelude.{List, map};
    ghost use Rattle.resp_types.specs.lemmas.Lists.{one_list};

    ghost Seen = { List T.Seen };

    ghost seen = { λ x. map T.seen x.items };

    ghost single = { λ reply x y. one_list T.of_value T.seen T.single T.WIDTH T.BYTES reply x.items
        y.items };
}

impl<T: SingleValued> SingleValued for Items<T> {
    ghost use Rattle.std.specs.Prelude.{List, map};
    ghost use Rattle.resp_types.specs.lemmas.Lists.{one_list};

    ghost Seen = { List T.Seen };

    ghost seen = { λ x. map T.seen x };

    ghost single = { λ reply x y. one_list T.of_value T.seen T.single T.WIDTH T.BYTES reply x y };
}

impl<T: SingleValued> SingleValued for BoxedSlice<T> {
    ghost use Rattle.std.specs.Prelude.{List, map};
    ghost use Rattle.std.specs.Box.{boxed_slice_items};
    ghost use Rattle.resp_types.specs.lemmas.Lists.{one_list};

    ghost Seen = { List T.Seen };

    ghost seen = { λ x. map T.seen (boxed_slice_items x) };

    ghost single = { λ reply x y. one_list T.of_value T.seen T.single T.WIDTH T.BYTES reply
        (boxed_slice_items x) (boxed_slice_items y) };
}

impl<T: SingleValued, const N: usize> SingleValued for [T; N] {
    ghost use Rattle.std.specs.Prelude.{List, map};
    ghost use Rattle.resp_types.specs.lemmas.Lists.{one_list};

    ghost Seen = { List T.Seen };

    ghost seen = { map T.seen };

    ghost single = { λ reply x y h k. one_list T.of_value T.seen T.single T.WIDTH T.BYTES reply x y
        h.listed k.listed };
}
