//! A machine, as one handle owns it.
ghost use Rattle.std.specs.Prelude.{◌≡◌, ◌<◌, ◌^◌};
ghost use Rattle.bitmap_tree.specs.Handles.{dim_of};
ghost use Rattle.cubejobs_regions.specs.Ownership.{common_of};

use crate::ownership::Ownership;

/// A machine, and the processor at which the searches of its handle begin.
#[derive(Drop)]
pub(crate) struct Machine {
    pub(crate) owner: Ownership,
    pub(crate) start: u64,
    // Which thread the next handle is for.
    pub(crate) next: u32,
    ghost start_is_in: { start < 2 ^ dim_of (common_of owner).tree },
}
