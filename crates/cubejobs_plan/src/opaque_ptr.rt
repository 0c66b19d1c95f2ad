//! The pointer of a handle to its content, or to nothing. C sees an address.
ghost use Rattle.std.specs.Prelude.{◌≡◌, ◌<◌, None, Some, Option, Bool, true, false};
ghost use Rattle.std.specs.Borrow.{sem};
ghost use Rattle.cubejobs_plan.specs.declared.planner.Planner.{Planner as Inside};
ghost use Rattle.fixed_vec.specs.Words.{FitsWords};
ghost use Rattle.cubejobs_plan.specs.InnerOpaquePtr.{opaque_owns, content_coded, planner_row};

use crate::planner::Planner;
use fixed_vec::Chunk;
use hidden_box::Parts;
use std::alloc::Global;
use std::marker::Model;

/// A pointer that only this module follows.
#[repr(C)]
#[derive(Drop)]
pub(crate) struct OpaquePtr {
    ptr: *mut u8,
    alloc: Global,
    pub ghost content: { Option Inside } by { content_coded },
    /// Whether the content lies in words that the caller lent.
    pub ghost lent: { Bool },
}

impl Model for OpaquePtr {
    ghost also_owns = { λ h. opaque_owns h.lent h.alloc h.ptr h.content };
}

impl OpaquePtr {
    ghost use Rattle.cubejobs_plan.specs.InnerLending.{lends_content};

    // Makes a pointer to the content of a box.
    #[inline(always)]
    fn of_parts(parts: Parts<Planner, Global>) -> OpaquePtr
        ensures { (result.content ≡ Some parts.value) × (result.lent ≡ false) }
    {
        let Parts { ptr, alloc } = parts;
        OpaquePtr {
            ptr: ptr as *mut u8,
            alloc,
        }
    }

    // Returns the pointer as the fields of a box. It must have a content on the heap.
    #[inline(always)]
    fn into_parts(self) -> Parts<Planner, Global>
        requires { (inside : Inside) × (self.content ≡ Some inside) × (self.lent ≡ false) }
        ensures { self.content ≡ Some result.value }
    {
        let OpaquePtr { ptr, alloc } = self;
        Parts {
            ptr: ptr as *mut Planner,
            alloc,
        }
    }

    // Makes a pointer to nothing.
    #[inline(always)]
    pub fn nothing(alloc: Global) -> OpaquePtr
        ensures { result.content ≡ None }
    {
        OpaquePtr {
            ptr: std::ptr::null_mut(),
            alloc,
        }
    }

    // Makes a pointer to the content of a box.
    #[inline(always)]
    pub fn of(content: Box<Planner>) -> OpaquePtr
        ensures content { result.content ≡ Some content.value }
        ensures heap { result.lent ≡ false }
    {
        OpaquePtr::of_parts(Parts::of(content))
    }

    // Puts a content into words that the caller lent, and makes a pointer to it.
    pub fn in_words(words: Chunk, content: Planner, alloc: Global) -> OpaquePtr
        requires some { 0 < words.words }
        requires fits { FitsWords planner_row 1 words.words }
        ensures content { result.content ≡ Some content }
        ensures lent { result.lent ≡ true }
    {
        let Chunk { at, words: _ } = words;
        let place = at as *mut Planner;
        unsafe { place.write(content) }
        OpaquePtr { ptr: at, alloc }
    }

    // Lends the content in its place. There must be one.
    #[inline(always)]
    pub fn get_mut(&mut self) -> &mut Planner
        requires { (inside : Inside) × (self.old.content ≡ Some inside) }
        ensures* writes_back { sem 𝓛 (lends_content self.entry result) }
        ensures value { self.old.content ≡ Some result.now }
    {
        unsafe { &mut *(self.ptr as *mut Planner) }
    }

    // Returns the content in its box. There must be one on the heap.
    #[inline(always)]
    pub fn into_box(self) -> Box<Planner>
        requires { (inside : Inside) × (self.content ≡ Some inside) × (self.lent ≡ false) }
        ensures { self.content ≡ Some result.value }
    {
        self.into_parts().into_box()
    }
}
