//! The planner of a handle in its place.
ghost use Rattle.std.specs.Prelude.{◌≡◌, ◌↔◌, None, Some, IsSome, IsTrue};
ghost use Rattle.cubejobs_plan.specs.declared.planner.Planner.{Planner as Inside};
ghost use Rattle.cubejobs_plan.specs.CoreIn.{core_in};
ghost use Rattle.cubejobs_plan.specs.Handle.{core_of};

use crate::codes::{LENT, OPEN};
use crate::handle::Handle;
use crate::opaque_ptr::OpaquePtr;
use crate::planner::Planner;
use std::alloc::Global;
use std::mem::replace;

impl Handle {
    // Makes a shut handle.
    #[inline(always)]
    pub(crate) fn shut(alloc: Global) -> Handle
        ensures { core_of result ≡ None }
    {
        Handle {
            tag: 0,
            at: OpaquePtr::nothing(alloc),
        }
    }

    // Makes the handle of a planner.
    #[inline(always)]
    pub(crate) fn of(place: Box<Planner>) -> Handle
        ensures { core_of result ≡ Some place.value.scheduler }
    {
        Handle {
            tag: OPEN,
            at: OpaquePtr::of(place),
        }
    }

    // Makes the handle of a planner in memory of the caller.
    #[inline(always)]
    pub(crate) fn of_lent(at: OpaquePtr) -> Handle
        requires content { (inside : Inside) × (at.content ≡ Some inside) }
        ensures { core_of result ≡ core_in at.content }
    {
        Handle { tag: LENT, at }
    }

    // Makes it another handle. A planner that it had is forgotten.
    #[inline(always)]
    pub(crate) fn put(&mut self, handle: Handle)
        ensures { core_of self.new ≡ core_of handle }
    {
        let Handle { tag: _, at: _ } = replace(self, handle);
    }

    // Returns whether it is open.
    #[inline(always)]
    pub(crate) fn is_open(&self) -> bool
        ensures { IsTrue result ↔ IsSome (core_of self.now) }
    {
        self.tag == OPEN || self.tag == LENT
    }

    // Drops the planner, if it is on the heap. Memory of the caller stays as it is.
    #[inline(always)]
    pub(crate) fn free(self) {
        let Handle { tag, at } = self;
        if tag == OPEN {
            drop(at.into_box());
        }
    }
}
