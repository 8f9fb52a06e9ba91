//! What users write over the library, proved: a module for each subject. docs/USING.md quotes them.
#![tactic(auto)]

pub mod arguments;
pub mod fields;
pub mod proxy;
pub mod redirect;
pub mod replies;
