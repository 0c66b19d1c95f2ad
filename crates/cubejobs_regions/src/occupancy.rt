//! How much of a machine is free.
ghost use Rattle.std.specs.Prelude.{◌≡◌, ◌≢◌, None, IsSome, false};
ghost use Rattle.bitmap_occupancy.specs.Counted.{IsCountOf};
ghost use Rattle.bitmap_tree.specs.Handles.{id_of};
ghost use Rattle.cubejobs_regions.specs.Handle.{machine_of};
ghost use Rattle.cubejobs_regions.specs.Machine.{dim_of_machine, tree_of, OnMachine};
ghost use Rattle.cubejobs_regions.specs.Occupancy.{occupancy_of, CountsNone, IsCounted};

use crate::answer::OccupancyAnswer;
use crate::codes::{DONE, NOT_OPEN};
use crate::handle::Handle;
use crate::machine::Machine;
use crate::places::machine_at;
use bitmap_occupancy::{FREE_PLACES, Occupancy, occupancy};
use bitmap_tree::BlankSeat;

impl OccupancyAnswer {
    // Makes the answer of a refused call.
    fn refused(code: u32) -> OccupancyAnswer
        ensures code { result.code ≡ code }
        ensures nothing { CountsNone result }
    {
        OccupancyAnswer {
            code,
            largest: 0,
            has_free: false,
            held: 0,
            free: [0; FREE_PLACES],
        }
    }
}

// Makes the answer of a count.
fn answer_of(found: Occupancy) -> OccupancyAnswer
    ensures code { result.code ≡ DONE }
    ensures counts { occupancy_of result ≡ found }
    ensures no_largest { result.has_free ≡ false → result.largest ≡ 0 }
{
    let free = found.free;
    match found.largest {
        Some(largest) => OccupancyAnswer {
            code: DONE,
            largest,
            has_free: true,
            held: found.held,
            free,
        },
        None => OccupancyAnswer {
            code: DONE,
            largest: 0,
            has_free: false,
            held: found.held,
            free,
        },
    }
}

// Counts what is free and held in a machine. Returns the seat of the loads too.
fn count(machine: &Machine) -> (OccupancyAnswer, BlankSeat)
    ensures code { result.0.code ≡ DONE }
    ensures table { result.1.table_id ≡ id_of (tree_of machine.now) }
    ensures counted { IsCountOf (dim_of_machine machine.now) result.1.me.0.trail
        (occupancy_of result.0) }
    ensures no_largest { result.0.has_free ≡ false → result.0.largest ≡ 0 }
{
    let (found, seat) = occupancy(machine.tree());
    (answer_of(found), seat)
}

/// Counts the free blocks of each dimension and the processors in held blocks, and finds the
/// largest free dimension. Reads each word once. The handle keeps the seat of the call, and so what
/// its loads found.
#[unsafe(no_mangle)]
pub extern "C" fn cubejobs_regions_occupancy(thread: &mut Handle) -> OccupancyAnswer
    ensures not_open { machine_of thread.old ≡ None → result.code ≡ NOT_OPEN }
    ensures done { IsSome (machine_of thread.old) → result.code ≡ DONE }
    ensures counted { IsSome (machine_of thread.old)
        → OnMachine (λ machine. IsCounted machine result thread.new) (machine_of thread.old) }
    ensures no_largest { result.has_free ≡ false → result.largest ≡ 0 }
    ensures nothing { result.code ≢ DONE → CountsNone result }
    ensures machine { machine_of thread.new ≡ machine_of thread.old }
    ensures unchanged { result.code ≢ DONE → thread.new ≡ thread.old }
{
    if !thread.is_open() {
        return OccupancyAnswer::refused(NOT_OPEN);
    }
    let (answer, seat) = count(machine_at(thread.ptr.get_mut()));
    thread.keep(seat);
    answer
}
