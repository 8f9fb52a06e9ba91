//! Types whose clone is the value.

ghost use Rattle.resp_containers.specs.Clones.{IsExact};

/// A type whose clone is the value itself, as contracts see it, and never fails.
pub trait ExactClone: Clone {
    ghost exact: { IsExact Self.is_clone Self.is_infallible };
}

/// The clone of a value of such a type is the value, and takes no memory.
pub fn law_of_clones<T: ExactClone>()
    ensures { IsExact T.is_clone T.is_infallible }
{}
