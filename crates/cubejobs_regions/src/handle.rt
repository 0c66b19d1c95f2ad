//! The handle of a machine, which C keeps.
ghost use Rattle.std.specs.Prelude.{◌≡◌, ◌↔◌, IsSome};
ghost use Rattle.bitmap_tree.specs.HiddenSeats.{seat_in};
ghost use Rattle.bitmap_tree.specs.Seats.{HasNoBit};
ghost use Rattle.cubejobs_regions.specs.declared.codes.TheConstants.{OPEN};
ghost use Rattle.cubejobs_regions.specs.MachineIn.{machine_in};

use crate::opaque_ptr::OpaquePtr;
use bitmap_tree::HiddenSeat;

/// A thread's handle of a machine, in memory that the caller keeps. It is open or shut. Only this
/// library follows the pointer of an open one.
#[repr(C)]
pub struct Handle {
    pub(crate) tag: u64,
    pub(crate) ptr: OpaquePtr,
    // That of the last call that was to free the machine or counted what is free. It has no bit.
    pub(crate) seat: HiddenSeat,
    ghost open: { tag ≡ OPEN ↔ IsSome (machine_in ptr.content) },
    ghost no_bit: { HasNoBit (seat_in seat).me },
}
