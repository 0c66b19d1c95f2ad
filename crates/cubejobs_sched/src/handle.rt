//! The handle of a scheduler, which C keeps.
ghost use Rattle.std.specs.Prelude.{◌≡◌, ◌↔◌, IsSome};
ghost use Rattle.cubejobs_sched.specs.declared.codes.TheConstants.{OPEN};
ghost use Rattle.cubejobs_sched.specs.OwnerIn.{owner_in};

use crate::opaque_ptr::OpaquePtr;
use sched_threads::HiddenReceipt;

/// A thread's handle of a scheduler, in memory that the caller keeps. It is open or shut. Only this
/// library follows the pointer of an open one.
#[repr(C)]
pub struct Handle {
    pub(crate) tag: u64,
    pub(crate) at: OpaquePtr,
    // That of the last call.
    pub(crate) receipt: HiddenReceipt,
    ghost open: { tag ≡ OPEN ↔ IsSome (owner_in at.content) },
}
