//! The handle of a planner, which C keeps.
ghost use Rattle.std.specs.Prelude.{◌≡◌, ◌↔◌, false, IsSome, IsTrue};
ghost use Rattle.cubejobs_plan.specs.declared.codes.TheConstants.{OPEN};
ghost use Rattle.cubejobs_plan.specs.CoreIn.{core_in, is_open_tag};

use crate::opaque_ptr::OpaquePtr;

/// A handle of a planner, in memory that the caller keeps. It is open or shut. Only this library
/// follows the pointer of an open one.
#[repr(C)]
pub struct Handle {
    pub(crate) tag: u64,
    pub(crate) at: OpaquePtr,
    ghost open: { IsTrue (is_open_tag tag) ↔ IsSome (core_in at.content) },
    ghost own: { tag ≡ OPEN → at.lent ≡ false },
}
