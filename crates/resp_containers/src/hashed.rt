//! Maps and sets in the order of a hash.
//!
//! The impls are those of `sorted.rt` but for their bounds and `keying`: no trait of the standard
//! library spans both kinds, and a macro of a repository may not write impls.

ghost use Rattle.resp_containers.specs.Keyed.{hashed};

use crate::fill::{FillMap, FillSet};
use std::alloc::{AllocError, Global};
use std::collections::{HashMap, HashSet};
use std::hash::Hash;

impl<K: Eq + Hash + Drop, V: Drop> FillMap<K, V> for HashMap<K, V> {
    ghost keying = { hashed K.eq };

    ghost entries = { λ m. m.entries };

    fn none(alloc: Global) -> HashMap<K, V> {
        HashMap::new(alloc)
    }

    fn put(&mut self, key: K, value: V) -> Result<(), AllocError> {
        self.insert(key, value)?;
        Ok(())
    }
}

impl<T: Eq + Hash + Drop> FillSet<T> for HashSet<T> {
    ghost keying = { hashed T.eq };

    ghost members = { λ s. s.keys };

    fn none(alloc: Global) -> HashSet<T> {
        HashSet::new(alloc)
    }

    fn put(&mut self, member: T) -> Result<(), AllocError> {
        self.insert(member)?;
        Ok(())
    }
}
