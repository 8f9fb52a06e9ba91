//! What users write of structs that are made of the fields of a hash: one with an optional field,
//! one that refuses fields that it doesn't know, and one with a list of structs in it.

mod account;
mod paths;

pub use account::{Account, account_of};
pub use paths::{Path, Point};
