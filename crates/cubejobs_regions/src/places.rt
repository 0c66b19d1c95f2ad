//! The machine of a handle: as it is lent for a call, or lifted out and put back.
ghost use Rattle.std.specs.Prelude.{◌≡◌, ◌↔◌, None, Some, IfSome, IfNone, IsSome, IsTrue};
ghost use Rattle.cubejobs_regions.specs.Handle.{last_table, last_trail, machine_of, refusal_of_opening};
ghost use Rattle.cubejobs_regions.specs.MachineIn.{machine_in};

use crate::codes::{ALREADY_OPEN, DONE, OPEN, OTHER_KIND};
use crate::handle::Handle;
use crate::machine::Machine;
use crate::opaque_ptr::OpaquePtr;
use crate::state::State;
use crate::tag::holds;
use bitmap_tree::{BlankSeat, HiddenSeat};
use std::alloc::Global;
use std::mem::replace;

impl Handle {
    // Makes a shut handle.
    #[inline(always)]
    pub(crate) fn shut(alloc: Global) -> Handle
        ensures { machine_of result ≡ None }
    {
        Handle {
            tag: 0,
            ptr: OpaquePtr::nothing(alloc),
            seat: HiddenSeat::blank(),
        }
    }

    // Makes the handle of a machine.
    #[inline(always)]
    pub(crate) fn of(place: Box<State>) -> Handle
        requires { IsSome (machine_in (Some place.value)) }
        ensures { machine_of result ≡ machine_in (Some place.value) }
    {
        Handle {
            tag: OPEN,
            ptr: OpaquePtr::of(place),
            seat: HiddenSeat::blank(),
        }
    }

    // Keeps the seat of a call, and so what its steps found. No bytes change.
    pub(crate) fn keep(&mut self, seat: BlankSeat)
        ensures machine { machine_of self.new ≡ machine_of self.old }
        ensures table { last_table self.new ≡ seat.table_id }
        ensures trail { last_trail self.new ≡ seat.me.0.trail }
    {
        let last = HiddenSeat::of(seat.into_block_seat());
        replace(&mut self.seat, last).leave();
    }

    // Makes it the handle of a machine. A machine that it had is dropped.
    #[inline(always)]
    pub(crate) fn put(&mut self, place: Box<State>)
        requires { IsSome (machine_in (Some place.value)) }
        ensures { machine_of self.new ≡ machine_in (Some place.value) }
    {
        let Handle {
            tag: _,
            ptr: _,
            seat,
        } = replace(self, Handle::of(place));
        seat.leave();
    }

    // Returns whether it is open.
    #[inline(always)]
    pub(crate) fn is_open(&self) -> bool
        ensures { IsTrue result ↔ IsSome (machine_of self.now) }
    {
        self.tag == OPEN
    }

    // Returns why it cannot be opened, or `DONE`.
    pub(crate) fn refusal(&self) -> u32
        ensures { result ≡ refusal_of_opening self.now }
    {
        if self.tag == OPEN {
            return ALREADY_OPEN;
        }
        if holds(self.tag) { OTHER_KIND } else { DONE }
    }

    // Returns the machine in its place, if the handle is open.
    #[inline(always)]
    fn into_place(self) -> Option<Box<State>>
        ensures some { IfSome result (λ place.
            (machine_in (Some place.value) ≡ machine_of self) × IsSome (machine_of self)) }
        ensures none { IfNone result (machine_of self ≡ None) }
    {
        let Handle { tag, ptr, seat } = self;
        seat.leave();
        if tag == OPEN {
            Some(ptr.into_box())
        } else {
            None
        }
    }
}

// Lifts the machine out of an open handle, which is shut until it is put back.
#[inline(always)]
pub(crate) fn lift(handle: &mut Handle, alloc: Global) -> Option<Box<State>>
    ensures some { IfSome result (λ place.
        (machine_in (Some place.value) ≡ machine_of handle.old) × IsSome (machine_of handle.old)) }
    ensures shut { IfSome result (λ _. machine_of handle.new ≡ None) }
    ensures none { IfNone result (machine_of handle.old ≡ None) }
    ensures same { IfNone result (handle.new ≡ handle.old) }
{
    // The bytes of a shut handle stay as they are, whatever they are.
    if !handle.is_open() {
        return None;
    }
    replace(handle, Handle::shut(alloc)).into_place()
}

// Returns the machine that is the content of a handle.
#[inline(always)]
pub(crate) fn machine_at(state: &State) -> &Machine
    requires { IsSome (machine_in (Some state.now)) }
    ensures { machine_in (Some state.now) ≡ Some result.now }
{
    match state {
        State::Machine(machine) => machine,
        State::Taken => unreachable!(),
    }
}
