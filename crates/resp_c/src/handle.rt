//! What C holds of a parser.

ghost use Rattle.std.specs.Prelude.{◌≡◌, None, Some, is_some, option_map};

use crate::parts::Parts;
use crate::session::Session;
use crate::slot::Slot;
use std::alloc::Global;
use std::marker::Model;
use std::mem;

/// Nothing, or a parser; all zero is nothing.
#[repr(C)]
#[derive(Drop)]
pub struct RespParser {
    /// What it leads to.
    pub slot: Slot,
    live: bool,
    ghost agrees: { live ≡ is_some slot.value },
}

/// A value of this type may go to another thread.
fn may_be_sent<T: Send>() {}

/// A handle may go to another thread, with the parser that it leads to.
pub fn law_of_sent_handles() {
    may_be_sent::<RespParser>()
}

impl RespParser {
    /// Nothing.
    fn none(alloc: Global) -> RespParser
        ensures { result.slot.value ≡ None }
    {
        RespParser {
            slot: Slot::empty(alloc),
            live: false,
        }
    }

    /// Takes the session out.
    pub fn take(&mut self, alloc: Global) -> Option<Box<Session>>
        ensures taken { self.new.slot.value ≡ None }
        ensures session { option_map (λ b. b.value) result ≡ self.old.slot.value }
    {
        let RespParser { slot, live } = mem::replace(self, RespParser::none(alloc));
        if live {
            return Some(slot.into_parts().into_box());
        }
        None
    }

    /// Puts a session in, or back.
    pub fn put(&mut self, session: Box<Session>)
        ensures { self.new.slot.value ≡ Some session.value }
    {
        *self = RespParser {
            slot: Slot::of_parts(Parts::of(session)),
            live: true,
        };
    }
}
