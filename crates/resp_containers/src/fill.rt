//! What maps and sets have in common that are filled item by item.

ghost use Rattle.std.specs.Prelude.{◌≡◌, ◌++◌, ◌∷◌, [], List, OnOk, OnErr};
ghost use Rattle.resp_containers.specs.Keyed.{Keying, IsMerged, IsDeduplicated};

use std::alloc::{AllocError, Global};

/// A map that is filled pair by pair: of equal keys the first stays, with the last value.
pub trait FillMap<K, V>: Sized + Drop {
    // How it keeps its keys.
    ghost keying: { Keying K };

    ghost entries: { Self → List (K × V) };

    /// No entries; takes no memory.
    fn none(alloc: Global) -> Self
        ensures merged { IsMerged keying [] (entries result) };

    /// Puts a value at a key; where an equal key is there, that one stays and takes the value.
    ///
    /// Fails only when out of memory, and then leaves the entries as they were.
    fn put(&mut self, key: K, value: V) -> Result<(), AllocError>
        ensures merged { OnOk result ((pairs : List (K × V))
            → IsMerged keying pairs (entries self.old)
            → IsMerged keying (pairs ++ (key, value) ∷ []) (entries self.new)) }
        ensures unchanged { OnErr result (entries self.new ≡ entries self.old) };
}

/// A set that is filled member by member: of equal ones the first stays.
pub trait FillSet<T>: Sized + Drop {
    // How it keeps its members.
    ghost keying: { Keying T };

    ghost members: { Self → List T };

    /// No members; takes no memory.
    fn none(alloc: Global) -> Self
        ensures deduplicated { IsDeduplicated keying [] (members result) };

    /// Adds a member; where an equal one is there, that one stays.
    ///
    /// Fails only when out of memory, and then leaves the members as they were.
    fn put(&mut self, member: T) -> Result<(), AllocError>
        ensures deduplicated { OnOk result ((items : List T)
            → IsDeduplicated keying items (members self.old)
            → IsDeduplicated keying (items ++ member ∷ []) (members self.new)) }
        ensures unchanged { OnErr result (members self.new ≡ members self.old) };
}
