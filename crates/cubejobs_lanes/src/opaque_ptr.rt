//! The pointer of a handle to its content on the heap, or to nothing. C sees an address.
ghost use Rattle.std.specs.Prelude.{◌≡◌, None, Some, Option};
ghost use Rattle.std.specs.Borrow.{sem};
ghost use Rattle.cubejobs_lanes.specs.declared.state.State.{State as Inside};
ghost use Rattle.cubejobs_lanes.specs.InnerOpaquePtr.{opaque_owns, content_coded};

use crate::state::State;
use hidden_box::Parts;
use std::alloc::Global;
use std::marker::Model;

/// A pointer that only this module follows.
#[repr(C)]
#[derive(Drop)]
pub(crate) struct OpaquePtr {
    ptr: *mut u8,
    alloc: Global,
    pub ghost content: { Option Inside } by { content_coded },
}

impl Model for OpaquePtr {
    ghost also_owns = { λ h. opaque_owns h.alloc h.ptr h.content };
}

impl OpaquePtr {
    ghost use Rattle.cubejobs_lanes.specs.InnerLending.{lends_content};

    // Makes a pointer to the content of a box.
    #[inline(always)]
    fn of_parts(parts: Parts<State, Global>) -> OpaquePtr
        ensures { result.content ≡ Some parts.value }
    {
        let Parts { ptr, alloc } = parts;
        OpaquePtr {
            ptr: ptr as *mut u8,
            alloc,
        }
    }

    // Returns the pointer as the fields of a box. It must have a content.
    #[inline(always)]
    fn into_parts(self) -> Parts<State, Global>
        requires { (inside : Inside) × (self.content ≡ Some inside) }
        ensures { self.content ≡ Some result.value }
    {
        let OpaquePtr { ptr, alloc } = self;
        Parts {
            ptr: ptr as *mut State,
            alloc,
        }
    }

    // Makes a pointer to nothing.
    #[inline(always)]
    pub fn nothing(alloc: Global) -> OpaquePtr
        ensures { result.content ≡ None }
    {
        OpaquePtr {
            ptr: std::ptr::null_mut(),
            alloc,
        }
    }

    // Makes a pointer to the content of a box.
    #[inline(always)]
    pub fn of(content: Box<State>) -> OpaquePtr
        ensures { result.content ≡ Some content.value }
    {
        OpaquePtr::of_parts(Parts::of(content))
    }

    // Lends the content in its place. There must be one.
    #[inline(always)]
    pub fn get_mut(&mut self) -> &mut State
        requires { (inside : Inside) × (self.old.content ≡ Some inside) }
        ensures* writes_back { sem 𝓛 (lends_content self.entry result) }
        ensures value { self.old.content ≡ Some result.now }
    {
        unsafe { &mut *(self.ptr as *mut State) }
    }

    // Returns the content in its box. There must be one.
    #[inline(always)]
    pub fn into_box(self) -> Box<State>
        requires { (inside : Inside) × (self.content ≡ Some inside) }
        ensures { self.content ≡ Some result.value }
    {
        self.into_parts().into_box()
    }
}

unsafe impl Send for OpaquePtr {}
