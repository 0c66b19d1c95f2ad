//! The functions of the library that open, share and free a machine, under the names that C
//! declares.
ghost use Rattle.std.specs.Prelude.{◌≡◌, ◌≢◌, ◌<◌, ◌≤◌, ◌⊎◌, None, Some, IsSome};
ghost use Rattle.cube_shape.specs.declared.limits.TheConstants.{MAX_BITMAP_DIM};
ghost use Rattle.cubejobs_regions.specs.Ends.{FoundFree, FoundHeld, IsKept, IsNew};
ghost use Rattle.cubejobs_regions.specs.Handle.{last_trail, machine_of, refusal_of_opening};
ghost use Rattle.cubejobs_regions.specs.Machine.{dim_of_machine, IsSameMachine, IsSole, OnMachine};

use crate::codes::{
    BAD_DIMENSION, BAD_VERSION, DONE, NOT_OPEN, OUT_OF_MEMORY, STILL_HELD, VERSION,
};
use crate::ends;
use crate::handle::Handle;
use crate::places::lift;
use crate::state::State;
use cube_shape::MAX_BITMAP_DIM;
use std::alloc::Global;

/// Opens a machine of dimension `n` in which nothing is held. `version` is that of the caller's
/// header. `number` is another one for each machine of the program.
#[unsafe(no_mangle)]
pub extern "C" fn cubejobs_regions_open_version(
    alloc: Global,
    machine: &mut Handle,
    version: u32,
    n: u32,
    number: u64,
) -> u32
    ensures bad_version { version ≢ VERSION → result ≡ BAD_VERSION }
    ensures barred { version ≡ VERSION → refusal_of_opening machine.old ≢ DONE
        → result ≡ refusal_of_opening machine.old }
    ensures bad_dimension { version ≡ VERSION → refusal_of_opening machine.old ≡ DONE
        → MAX_BITMAP_DIM < n → result ≡ BAD_DIMENSION }
    ensures else_memory { version ≡ VERSION → refusal_of_opening machine.old ≡ DONE
        → n ≤ MAX_BITMAP_DIM → (result ≡ DONE) ⊎ (result ≡ OUT_OF_MEMORY) }
    ensures new { result ≡ DONE → OnMachine (IsNew n number) (machine_of machine.new) }
    ensures unchanged { result ≢ DONE → machine.new ≡ machine.old }
{
    if version != VERSION {
        return BAD_VERSION;
    }
    let code = machine.refusal();
    if code != DONE {
        return code;
    }
    if n > MAX_BITMAP_DIM {
        return BAD_DIMENSION;
    }
    match ends::machine_of(alloc, n, number) {
        None => OUT_OF_MEMORY,
        Some(place) => {
            machine.put(place);
            DONE
        }
    }
}

/// Gives another thread a handle of the machine. Its searches begin at the next of the starts.
#[unsafe(no_mangle)]
pub extern "C" fn cubejobs_regions_share(
    alloc: Global,
    thread: &mut Handle,
    other: &mut Handle,
) -> u32
    ensures barred { refusal_of_opening other.old ≢ DONE → result ≡ refusal_of_opening other.old }
    ensures not_open { refusal_of_opening other.old ≡ DONE → machine_of thread.old ≡ None
        → result ≡ NOT_OPEN }
    ensures else_memory { refusal_of_opening other.old ≡ DONE → IsSome (machine_of thread.old)
        → (result ≡ DONE) ⊎ (result ≡ OUT_OF_MEMORY) }
    ensures shared { result ≡ DONE → OnMachine (λ machine. OnMachine (IsSameMachine machine)
        (machine_of other.new)) (machine_of thread.old) }
    ensures machine { IsSome (machine_of thread.old) → OnMachine (λ machine.
        OnMachine (IsSameMachine machine) (machine_of thread.new)) (machine_of thread.old) }
    ensures shut { machine_of thread.old ≡ None → thread.new ≡ thread.old }
    ensures unchanged { result ≢ DONE → other.new ≡ other.old }
{
    let code = other.refusal();
    if code != DONE {
        return code;
    }
    let Some(place) = lift(thread, alloc) else {
        return NOT_OPEN;
    };
    let (place, another) = ends::share(alloc, place);
    thread.put(place);
    match another {
        None => OUT_OF_MEMORY,
        Some(another) => {
            other.put(another);
            DONE
        }
    }
}

/// Frees a handle. The last one of a machine frees the machine, unless a block of it is held.
///
/// The last one looks by a take of the whole machine. The handle keeps the seat of the call, and so
/// what its steps found.
#[unsafe(no_mangle)]
pub extern "C" fn cubejobs_regions_free(alloc: Global, thread: &mut Handle) -> u32
    ensures not_open { machine_of thread.old ≡ None → result ≡ NOT_OPEN }
    ensures tried { IsSome (machine_of thread.old) → (result ≡ DONE) ⊎ (result ≡ STILL_HELD) }
    ensures free { result ≡ DONE → OnMachine (λ machine. IsSole machine
        → FoundFree (dim_of_machine machine) (last_trail thread.new)) (machine_of thread.old) }
    ensures shut { result ≡ DONE → machine_of thread.new ≡ None }
    ensures held { result ≡ STILL_HELD → OnMachine (λ machine.
        FoundHeld (dim_of_machine machine) (last_trail thread.new)) (machine_of thread.old) }
    ensures kept { result ≡ STILL_HELD → OnMachine (λ machine. OnMachine (IsKept machine)
        (machine_of thread.new)) (machine_of thread.old) }
    ensures unchanged { result ≡ NOT_OPEN → thread.new ≡ thread.old }
{
    let Some(place) = lift(thread, alloc) else {
        return NOT_OPEN;
    };
    match ends::free(place) {
        Ok(None) => DONE,
        Ok(Some(seat)) => {
            thread.keep(seat);
            DONE
        }
        Err((place, seat)) => {
            thread.put(place);
            thread.keep(seat);
            STILL_HELD
        }
    }
}
