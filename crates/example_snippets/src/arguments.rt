//! What users write of arguments: commands with arguments of every shape, and own types as
//! arguments.
//!
//! An own type says in one line which arguments a value gives, and writes five short functions. The
//! rest of the contract are defaults: no value is refused, each counts for one argument and is no
//! number, and a slice is written item by item.

mod commands;
mod fields;
mod key;
mod limit_key;
mod member;
mod path;
mod point;
mod range;

pub use commands::{add_all, add_tagged, add_twelve, fields_of, get, rename, set_fields};
pub use fields::Fields;
pub use key::Key;
pub use limit_key::{LimitKey, get_name};
pub use member::{Member, member_args};
pub use path::Path;
pub use point::Point;
pub use range::Range;
