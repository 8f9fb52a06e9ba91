//! A box, a list, bytes and a text of which contracts see the value, the elements and the bytes
//! alone; and maps and sets that are filled item by item, sorted or hashed.
#![tactic(auto)]

mod boxed;
mod bytes;
mod clones;
mod equality;
mod fill;
mod hashed;
mod items;
mod sorted;
mod text;

pub use boxed::Boxed;
pub use bytes::Bytes;
pub use clones::{ExactClone, law_of_clones};
pub use equality::{StructuralEq, law_of_equal_values};
pub use fill::{FillMap, FillSet};
pub use items::Items;
pub use text::Text;
