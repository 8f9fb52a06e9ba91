//! Laws of the conversions of replies, beside `resp_core`: a reply is one value of a type at most, an
//! owned and a borrowed conversion agree, and a scalar converts back from what it is written as.
//!
//! A law is a function that does nothing, and whose clauses are proved.
#![tactic(auto)]

mod conversions;
mod single_valued;

pub use conversions::{
    law_of_equal_conversions, law_of_hashed_maps, law_of_hashed_sets, law_of_owned_and_borrowed,
    law_of_written_scalars,
};
pub use single_valued::{SingleKey, SingleValued, law_of_one_value};
