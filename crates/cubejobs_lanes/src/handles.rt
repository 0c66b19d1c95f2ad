//! Contents go into handles and come out again.
ghost use Rattle.std.specs.Prelude.{◌≡◌, ◌↔◌, None, Some, IfSome, IfNone, IsSome, IsTrue};
ghost use Rattle.cubejobs_lanes.specs.Handle.{content_of};

use crate::codes::OPEN;
use crate::handle::Handle;
use crate::opaque_ptr::OpaquePtr;
use crate::state::State;
use std::alloc::Global;
use std::mem::replace;

impl Handle {
    // Makes a shut handle.
    #[inline(always)]
    pub(crate) fn shut(alloc: Global) -> Handle
        ensures { content_of result ≡ None }
    {
        Handle {
            tag: 0,
            ptr: OpaquePtr::nothing(alloc),
        }
    }

    // Makes the handle of a content.
    #[inline(always)]
    pub(crate) fn of(content: Box<State>) -> Handle
        ensures { content_of result ≡ Some content.value }
    {
        Handle {
            tag: OPEN,
            ptr: OpaquePtr::of(content),
        }
    }

    // Returns whether it is open.
    #[inline(always)]
    pub(crate) fn is_open(&self) -> bool
        ensures { IsTrue result ↔ IsSome (content_of self.now) }
    {
        self.tag == OPEN
    }

    // Returns its content in its box, if it is open.
    #[inline(always)]
    fn into_box(self) -> Option<Box<State>>
        ensures some { IfSome result (λ content. content_of self ≡ Some content.value) }
        ensures none { IfNone result (content_of self ≡ None) }
    {
        let Handle { tag, ptr } = self;
        if tag == OPEN {
            Some(ptr.into_box())
        } else {
            None
        }
    }
}

// Lifts the content out of an open handle, which is shut then. A shut one stays as it is.
pub(crate) fn lift(handle: &mut Handle, alloc: Global) -> Option<Box<State>>
    ensures some { IfSome result (λ content. content_of handle.old ≡ Some content.value) }
    ensures shut { content_of handle.new ≡ None }
    ensures none { IfNone result (content_of handle.old ≡ None) }
    ensures same { IfNone result (handle.new ≡ handle.old) }
{
    if !handle.is_open() {
        return None;
    }
    replace(handle, Handle::shut(alloc)).into_box()
}
