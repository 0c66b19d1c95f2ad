//! The words of a tree, which stations change in single atomic steps.
ghost use Rattle.std.specs.Prelude.{◌≡◌, ◌+◌, ◌^◌, ◌≤◌, vec_len};
ghost use Rattle.cube_shape.specs.declared.limits.TheConstants.{MAX_DIM, MAX_STATIONS};

use crate::rule::TreeRule;
use crate::view::{Size, View};
use atomic_table::Table;
use std::alloc::Global;

/// A seat of a tree, with which its stations step. It has no bytes.
pub type Seat = atomic_table::Seat<(), View>;

/// The shared words of a tree. Word `0` is the roll, and word `v` is that of node `v`. It cannot be
/// dropped.
pub struct Tree {
    pub(crate) table: Table<(), View, Size, TreeRule, Global>,
    pub(crate) size: Size,
    // The memory that receives the words at the end.
    pub(crate) room: Vec<u64>,
    ghost keyed: { table.shared.key ≡ size },
    ghost words: { table.shared.table_id.words ≡ 2 ^ (size.dim + 1) },
    ghost no_slots: { table.shared.table_id.slots ≡ 0 },
    ghost has_room: { vec_len room ≡ 2 ^ (size.dim + 1) },
    ghost dim_in_limits: { size.dim ≤ MAX_DIM },
    ghost stations_in_limits: { size.stations ≤ MAX_STATIONS },
}
