//! Where C keeps the content of a handle, or nothing.

ghost use Rattle.std.specs.Prelude.{◌≡◌, None, Some, is_some, IsTrue};
ghost use Rattle.kv_c.specs.Owned.{Held, held_coded, slot_owns};

use crate::content::Content;
use crate::parts::Parts;
use std::alloc::Global;
use std::marker::Model;
use std::ptr;

/// A pointer to a content, or to nothing.
///
/// It has no `Drop`: what it holds is taken out, or the slot is known to be empty.
#[repr(C)]
pub struct Slot {
    at: *mut u8,
    alloc: Global,
    pub ghost held: { Held } by { held_coded },
}

impl Model for Slot {
    ghost also_owns = { λ s. slot_owns s.alloc s.at s.held };
}

impl Slot {
    /// Nothing.
    pub(crate) fn empty(alloc: Global) -> Slot
        ensures { result.held ≡ None }
    {
        Slot {
            at: ptr::null_mut(),
            alloc,
        }
    }

    /// What these parts own.
    pub(crate) fn of_parts(parts: Parts<Content, Global>) -> Slot
        ensures { result.held ≡ Some parts.value }
    {
        let Parts { ptr, alloc } = parts;
        Slot {
            at: ptr as *mut u8,
            alloc,
        }
    }

    /// What it holds, as parts.
    pub(crate) fn into_parts(self) -> Parts<Content, Global>
        requires { IsTrue (is_some self.held) }
        ensures { self.held ≡ Some result.value }
    {
        let Slot { at, alloc } = self;
        Parts {
            ptr: at as *mut Content,
            alloc,
        }
    }

    /// Lets go of an empty slot.
    pub(crate) fn end(self)
        requires { self.held ≡ None }
    {
        let Slot { at: _, alloc: _ } = self;
    }
}

unsafe impl Send for Slot {}
