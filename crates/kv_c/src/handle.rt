//! What C keeps: of a bucket, of a view, of a feed.

ghost use Rattle.std.specs.Prelude.{◌≡◌, Some, None, is_some, IfSome, IfNone};

use crate::content::Content;
use crate::parts::Parts;
use crate::slot::Slot;
use std::alloc::Global;
use std::mem;

/// What C keeps: whether it is open, and where its content lies. With each byte 0 it is closed.
#[repr(C)]
pub struct Handle {
    is_open: bool,
    pub slot: Slot,
    ghost tied: { is_open ≡ is_some slot.held },
}

impl Handle {
    fn closed(alloc: Global) -> Handle
        ensures { result.slot.held ≡ None }
    {
        Handle {
            is_open: false,
            slot: Slot::empty(alloc),
        }
    }

    fn of(content: Box<Content>) -> Handle
        ensures { result.slot.held ≡ Some content.value }
    {
        Handle {
            is_open: true,
            slot: Slot::of_parts(Parts::of(content)),
        }
    }

    /// Whether it holds anything.
    pub(crate) fn is_open(&self) -> bool
        ensures { result ≡ is_some self.now.slot.held }
    {
        self.is_open
    }

    fn into_box(self) -> Option<Box<Content>>
        ensures some { IfSome result (λ b. self.slot.held ≡ Some b.value) }
        ensures none { IfNone result (self.slot.held ≡ None) }
    {
        let Handle { is_open, slot } = self;
        if is_open {
            Some(slot.into_parts().into_box())
        } else {
            slot.end();
            None
        }
    }

    /// Takes its content out, if it is open, and leaves a closed handle.
    pub(crate) fn take(&mut self, alloc: Global) -> Option<Box<Content>>
        ensures some { IfSome result (λ b. self.old.slot.held ≡ Some b.value) }
        ensures none { IfNone result (self.old.slot.held ≡ None) }
        ensures left { self.new.slot.held ≡ None }
    {
        mem::replace(self, Handle::closed(alloc)).into_box()
    }

    /// Puts a content in. Had there been one, it would be freed.
    pub(crate) fn put(&mut self, content: Box<Content>)
        ensures { self.new.slot.held ≡ Some content.value }
    {
        drop(mem::replace(self, Handle::of(content)).into_box());
    }
}

fn crosses<T: Send>(_value: &T) {}

// A handle may go to another thread: the checker proves it of its type.
fn may_cross(handle: &Handle) {
    crosses(handle);
}
