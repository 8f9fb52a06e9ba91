//! Maps and sets in the order of their keys.
//!
//! The impls are those of `hashed.rt` but for their bounds and `keying`: no trait of the standard
//! library spans both kinds, and a macro of a repository may not write impls.

ghost use Rattle.resp_containers.specs.Keyed.{sorted};

use crate::fill::{FillMap, FillSet};
use std::alloc::{AllocError, Global};
use std::collections::{BTreeMap, BTreeSet};

impl<K: Ord + Drop, V: Drop> FillMap<K, V> for BTreeMap<K, V> {
    ghost keying = { sorted K.cmp };

    ghost entries = { λ m. m.entries };

    fn none(alloc: Global) -> BTreeMap<K, V> {
        BTreeMap::new(alloc)
    }

    fn put(&mut self, key: K, value: V) -> Result<(), AllocError> {
        self.insert(key, value)?;
        Ok(())
    }
}

impl<T: Ord + Drop> FillSet<T> for BTreeSet<T> {
    ghost keying = { sorted T.cmp };

    ghost members = { λ s. s.keys };

    fn none(alloc: Global) -> BTreeSet<T> {
        BTreeSet::new(alloc)
    }

    fn put(&mut self, member: T) -> Result<(), AllocError> {
        self.insert(member)?;
        Ok(())
    }
}
