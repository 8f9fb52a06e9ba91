//! Sorted maps and sorted sets.

use crate::single_valued::{SingleKey, SingleValued};
use std::collections::{BTreeMap, BTreeSet};

impl<K: SingleKey, V: SingleValued> SingleValued for BTreeMap<K, V> {
    ghost use Rattle.std.specs.Prelude.{List, map};
    ghost use Rattle.resp_types.specs.OneValue.{pair_seen};
    ghost use Rattle.resp_types.specs.lemmas.Maps.{one_sorted_map};

    ghost Seen = { List (K.Seen × V.Seen) };

    ghost seen = { λ x. map (pair_seen K.seen V.seen) x.entries };

    ghost single = { λ reply x y. one_sorted_map K.cmp K.total K.of_value K.seen K.goes_by_seen
        K.single V.of_value V.seen V.single reply x.entries y.entries };
}

impl<T: SingleKey> SingleValued for BTreeSet<T> {
    ghost use Rattle.std.specs.Prelude.{List, map};
    ghost use Rattle.resp_types.specs.lemmas.Maps.{one_sorted_set};

    ghost Seen = { List T.Seen };

    ghost seen = { λ x. map T.seen x.keys };

    ghost single = { λ reply x y. one_sorted_set T.cmp T.total T.of_value T.seen T.goes_by_seen
        T.single reply x.keys y.keys };
}
