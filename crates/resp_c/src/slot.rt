//! The memory that a handle leads to.

ghost use Rattle.std.specs.Prelude.{◌≡◌, Option, None, Some, is_some, true};
ghost use Rattle.resp_c.specs.declared.session.Session.{Session};

use crate::parts::Parts;
use crate::session::Session;
use std::alloc::{Allocator, Global};
use std::marker::Model;

/// Nothing, or a session on the heap. Its type leads to no other that C can't hold.
#[repr(C)]
#[derive(Drop)]
pub struct Slot {
    at: *mut (),
    alloc: Global,
    /// The session, where there is one.
    pub ghost value: { Option Session },
}

impl Model for Slot {
    ghost use Rattle.std.specs.Box.Ownership.{box_owns};
    ghost use Rattle.resp_c.specs.Held.{owns_some};
    ghost use Rattle.resp_c.specs.contracts.session.Session.{the_row};

    ghost also_owns = { λ s. owns_some (box_owns (⟦<Global as Allocator>⟧.dealloc_token s.alloc) the_row s.at) s.value };
}

// A slot owns its session alone, and nothing in a session knows a thread.
unsafe impl Send for Slot {}

impl Slot {
    /// Nothing.
    pub fn empty(alloc: Global) -> Slot
        ensures { result.value ≡ None }
    {
        Slot {
            at: std::ptr::null_mut(),
            alloc,
        }
    }

    /// The session of these parts.
    pub fn of_parts(parts: Parts<Session, Global>) -> Slot
        ensures { result.value ≡ Some parts.value }
    {
        let Parts { ptr, alloc } = parts;
        Slot {
            at: ptr as *mut (),
            alloc,
        }
    }

    /// The parts of the session.
    pub fn into_parts(self) -> Parts<Session, Global>
        requires { is_some self.value ≡ true }
        ensures { self.value ≡ Some result.value }
    {
        let Slot { at, alloc } = self;
        Parts {
            ptr: at as *mut Session,
            alloc,
        }
    }
}
