//! How a machine begins and ends, by the place of a handle's content.
ghost use Rattle.std.specs.Prelude.{◌≡◌, ◌<◌, ◌≤◌, ◌^◌, Some, IsSome, IfErr, IfNone, IfOk, IfSome};
ghost use Rattle.cube_shape.specs.declared.limits.TheConstants.{MAX_BITMAP_DIM};
ghost use Rattle.bitmap_tree.specs.Handles.{dim_of};
ghost use Rattle.cubejobs_regions.specs.Ends.{FoundFree, FoundHeld, IsKept, IsNew};
ghost use Rattle.cubejobs_regions.specs.Machine.{dim_of_machine, IsSameMachine, IsSole, OnMachine};
ghost use Rattle.cubejobs_regions.specs.MachineIn.{machine_in};
ghost use Rattle.cubejobs_regions.specs.Ownership.{common_of};

use crate::common::Common;
use crate::machine::Machine;
use crate::ownership::Ownership;
use crate::state::State;
use bitmap_tree::{BitmapTree, BlankSeat};
use std::alloc::Global;

// Opens a machine of dimension `n` in a place of its own. Returns `None` if memory ran out.
pub(crate) fn machine_of(alloc: Global, n: u32, number: u64) -> Option<Box<State>>
    requires { n ≤ MAX_BITMAP_DIM }
    ensures { IfSome result (λ place. OnMachine (IsNew n number) (machine_in (Some place.value))) }
{
    let tree = match BitmapTree::open(alloc, n) {
        Ok(tree) => tree,
        Err(_) => return None,
    };
    let start = tree.start_of(0);
    let machine = Machine {
        owner: Ownership::Sole(Common { tree, number }),
        start,
        next: 1,
    };
    match Box::new(alloc, State::Machine(machine)) {
        Ok(place) => Some(place),
        Err(failed) => {
            drop(failed);
            None
        }
    }
}

// Makes another handle of a machine, for the next thread. Where memory runs out, the first alone.
fn share_machine(alloc: Global, machine: Machine) -> (Machine, Option<Machine>)
    ensures same { IsSameMachine machine result.0 }
    ensures other { IfSome result.1 (IsSameMachine machine) }
{
    let Machine { owner, start, next } = machine;
    let (owner, another) = owner.share(alloc);
    let first = Machine {
        owner,
        start,
        next: next.wrapping_add(1),
    };
    match another {
        None => (first, None),
        Some(owner) => (first, Some(next_machine(owner, next))),
    }
}

// Makes a handle's part of a machine, for a thread of this number.
fn next_machine(owner: Ownership, thread: u32) -> Machine
    ensures { common_of result.owner ≡ common_of owner }
{
    let start = owner.get().tree.start_of(thread);
    Machine {
        owner,
        start,
        next: thread.wrapping_add(1),
    }
}

// Makes another handle of the machine of a place. Where memory runs out, the first place alone.
pub(crate) fn share(alloc: Global, place: Box<State>) -> (Box<State>, Option<Box<State>>)
    requires { IsSome (machine_in (Some place.value)) }
    ensures same { OnMachine (λ machine. OnMachine (IsSameMachine machine)
        (machine_in (Some result.0.value))) (machine_in (Some place.value)) }
    ensures other { IfSome result.1 (λ other. OnMachine (λ machine.
        OnMachine (IsSameMachine machine) (machine_in (Some other.value)))
        (machine_in (Some place.value))) }
{
    let mut place = place;
    let mut other = match Box::new(alloc, State::Taken) {
        Ok(other) => other,
        Err(failed) => {
            drop(failed);
            return (place, None);
        }
    };
    let State::Machine(machine) = Box::replace(&mut place, State::Taken) else {
        unreachable!()
    };
    let (machine, another) = share_machine(alloc, machine);
    let _taken = Box::replace(&mut place, State::Machine(machine));
    match another {
        None => (place, None),
        Some(another) => {
            let _none = Box::replace(&mut other, State::Machine(another));
            (place, Some(other))
        }
    }
}

// Frees a machine if no block of it is held, by a take of the whole. Otherwise returns it. Also
// returns the seat of the call.
fn end(common: Common, start: u64) -> Result<BlankSeat, (Machine, BlankSeat)>
    requires start { start < 2 ^ dim_of common.tree }
    ensures free { IfOk result (λ seat. FoundFree (dim_of common.tree) seat.me.0.trail) }
    ensures held { IfErr result (λ kept. FoundHeld (dim_of common.tree) kept.1.me.0.trail) }
    ensures common { IfErr result (λ kept. common_of kept.0.owner ≡ common) }
    ensures sole { IfErr result (λ kept. IsSole kept.0) }
    ensures start { IfErr result (λ kept. kept.0.start ≡ start) }
{
    match common.tree.take_exact(common.tree.dim(), start) {
        Ok(held) => Ok(common.tree.release(held).into_seat()),
        Err(refused) => {
            let machine = Machine {
                owner: Ownership::Sole(common),
                start,
                next: 1,
            };
            Err((machine, refused.into_seat()))
        }
    }
}

// Frees the handle of a place. The last one frees the machine, and returns the seat of the call. It
// returns the place too if a block is held.
pub(crate) fn free(place: Box<State>) -> Result<Option<BlankSeat>, (Box<State>, BlankSeat)>
    requires { IsSome (machine_in (Some place.value)) }
    ensures others { IfOk result (λ seat. IfNone seat
        (OnMachine (λ machine. IsSole machine → ⊥) (machine_in (Some place.value)))) }
    ensures free { IfOk result (λ seat. IfSome seat (λ seat. OnMachine (λ machine.
        FoundFree (dim_of_machine machine) seat.me.0.trail) (machine_in (Some place.value)))) }
    ensures held { IfErr result (λ kept. OnMachine (λ machine.
        FoundHeld (dim_of_machine machine) kept.1.me.0.trail) (machine_in (Some place.value))) }
    ensures kept { IfErr result (λ kept. OnMachine (λ machine. OnMachine (IsKept machine)
        (machine_in (Some kept.0.value))) (machine_in (Some place.value))) }
{
    let mut place = place;
    let State::Machine(machine) = Box::replace(&mut place, State::Taken) else {
        unreachable!()
    };
    let Machine {
        owner,
        start,
        next: _,
    } = machine;
    let Some(common) = owner.into_last() else {
        return Ok(None);
    };
    match end(common, start) {
        Ok(seat) => Ok(Some(seat)),
        Err((machine, seat)) => {
            let _taken = Box::replace(&mut place, State::Machine(machine));
            Err((place, seat))
        }
    }
}
