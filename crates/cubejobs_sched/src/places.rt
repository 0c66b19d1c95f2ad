//! The scheduler of a handle: as it is lent for a call, or lifted out and put back.
ghost use Rattle.std.specs.Prelude.{◌≡◌, ◌↔◌, None, Some, IfSome, IfNone, IsSome, IsTrue};
ghost use Rattle.cubejobs_sched.specs.Handle.{HasThreads, owner_of, receipt_of};
ghost use Rattle.cubejobs_sched.specs.OwnerIn.{owner_in};

use crate::codes::OPEN;
use crate::handle::Handle;
use crate::opaque_ptr::OpaquePtr;
use crate::state::State;
use sched_threads::{HiddenReceipt, Threads, TurnReceipt};
use std::alloc::Global;
use std::mem::replace;

impl Handle {
    // Makes a shut handle.
    #[inline(always)]
    pub(crate) fn shut(alloc: Global) -> Handle
        ensures { owner_of result ≡ None }
    {
        Handle {
            tag: 0,
            at: OpaquePtr::nothing(alloc),
            receipt: HiddenReceipt::blank(),
        }
    }

    // Makes the handle of a scheduler.
    #[inline(always)]
    pub(crate) fn of(place: Box<State>) -> Handle
        requires { IsSome (owner_in (Some place.value)) }
        ensures { owner_of result ≡ owner_in (Some place.value) }
    {
        Handle {
            tag: OPEN,
            at: OpaquePtr::of(place),
            receipt: HiddenReceipt::blank(),
        }
    }

    // Makes it the handle of a scheduler. One that it had is forgotten.
    #[inline(always)]
    pub(crate) fn put(&mut self, place: Box<State>)
        requires { IsSome (owner_in (Some place.value)) }
        ensures { owner_of self.new ≡ owner_in (Some place.value) }
    {
        let Handle {
            tag: _,
            at: _,
            receipt,
        } = replace(self, Handle::of(place));
        receipt.leave();
    }

    // Keeps the receipt of a call. No bytes change.
    #[inline(always)]
    pub(crate) fn keep(&mut self, receipt: TurnReceipt)
        ensures owner { owner_of self.new ≡ owner_of self.old }
        ensures receipt { receipt_of self.new ≡ receipt }
    {
        replace(&mut self.receipt, HiddenReceipt::of(receipt)).leave();
    }

    // Returns whether it is open.
    #[inline(always)]
    pub(crate) fn is_open(&self) -> bool
        ensures { IsTrue result ↔ IsSome (owner_of self.now) }
    {
        self.tag == OPEN
    }

    // Returns the scheduler in its place, if the handle is open.
    #[inline(always)]
    fn into_place(self) -> Option<Box<State>>
        ensures some { IfSome result (λ place.
            (owner_in (Some place.value) ≡ owner_of self) × IsSome (owner_of self)) }
        ensures none { IfNone result (owner_of self ≡ None) }
    {
        let Handle { tag, at, receipt } = self;
        receipt.leave();
        if tag == OPEN {
            Some(at.into_box())
        } else {
            None
        }
    }
}

// Lifts the scheduler out of an open handle, which is shut until it is put back.
#[inline(always)]
pub(crate) fn lift(handle: &mut Handle, alloc: Global) -> Option<Box<State>>
    ensures some { IfSome result (λ place.
        (owner_in (Some place.value) ≡ owner_of handle.old) × IsSome (owner_of handle.old)) }
    ensures shut { IfSome result (λ _. owner_of handle.new ≡ None) }
    ensures none { IfNone result (owner_of handle.old ≡ None) }
    ensures same { IfNone result (handle.new ≡ handle.old) }
{
    // The bytes of a shut handle stay as they are, whatever they are.
    if !handle.is_open() {
        return None;
    }
    replace(handle, Handle::shut(alloc)).into_place()
}

// Returns the scheduler that is the content of a handle.
#[inline(always)]
pub(crate) fn threads_at(state: &State) -> &Threads
    requires { IsSome (owner_in (Some state.now)) }
    ensures { HasThreads (owner_in (Some state.now)) result.now }
{
    match state {
        State::Threads(owner) => owner.get(),
        State::Taken => unreachable!(),
    }
}
