//! What users write of replies: a link for tests of code that takes a `&mut dyn ConnectionLike`
//! ([`stored`]); a connection of their own around a link ([`Counted`]), and a source of their own
//! ([`InPieces`]); links over ends of any type ([`visit_over`]); types of their own that replies
//! convert to; and an error that is told by the server's code ([`is_of_wrong_type`]).

mod counted;
mod counters;
mod ends;
mod own_types;
mod pieces;
mod stored_replies;

pub use counted::{Counted, MemoryLink};
pub use counters::{count_call, is_of_wrong_type, visits_read_again, visits_when_ready};
pub use ends::{visit, visit_between, visit_over};
pub use own_types::{Point, Scored};
pub use pieces::InPieces;
pub use stored_replies::{page, stored, visits};
