//! The handle that C keeps.
ghost use Rattle.std.specs.Prelude.{◌≡◌, ◌↔◌, IsSome};
ghost use Rattle.cubejobs_lanes.specs.declared.codes.TheConstants.{OPEN};

use crate::opaque_ptr::OpaquePtr;

/// A handle in memory that the caller keeps. It is open or shut. Only this library follows the
/// pointer of an open one.
#[repr(C)]
#[derive(Drop)]
pub struct Handle {
    pub(crate) tag: u64,
    pub(crate) ptr: OpaquePtr,
    ghost open: { tag ≡ OPEN ↔ IsSome ptr.content },
}
