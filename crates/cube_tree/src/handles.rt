//! The handles of a machine: its cube, its stations, and the blocks that they hold.
ghost use Rattle.std.specs.Prelude.{◌≡◌, ℕ, ◌+◌, ◌^◌, ◌<◌, ◌≤◌, slice_index, vec_len};
ghost use Rattle.cube_core.specs.declared.phase.Phase.TheVariants.{Idle, Holding};
ghost use Rattle.cube_core.specs.Held.{region_at};
ghost use Rattle.cube_shape.specs.declared.limits.TheConstants.{MAX_DIM, MAX_STATIONS};
ghost use Rattle.tree_steps.specs.Tree.{id_of, read_words};
ghost use Rattle.cube_tree.specs.Seats.{IsSeatOf, IsBare};

use cube_shape::{Node, Region};
use tree_steps::{Seat, Tree};

/// A machine: a tree of status words, shared by its stations. It cannot be dropped.
pub struct Cube {
    pub(crate) tree: Tree,
    // What its loads of the roll found.
    pub(crate) seat: Seat,
    ghost own: { IsBare seat.me },
    ghost table: { seat.table_id ≡ id_of tree },
    ghost unread: { (v : ℕ) → slice_index (read_words tree) v ≡ 0 },
}

/// A station (allocator handle) that is idle. It takes and releases the block of one node at a
/// time. It cannot be dropped.
pub struct TreeStation {
    pub(crate) number: u32,
    // The ancestor that last refused the first node of a level. A search peeks at it before it
    // tries the nodes under it.
    pub(crate) hint: Option<Node>,
    pub(crate) seat: Seat,
    ghost idle: { IsSeatOf number Idle seat.me },
    ghost limit: { number < MAX_STATIONS },
}

/// A block that a station holds, with its station. It cannot be dropped.
pub struct Subcube {
    pub(crate) number: u32,
    pub(crate) node: Node,
    pub(crate) region: Region,
    pub(crate) dim: u32,
    // The hint of its station.
    pub(crate) hint: Option<Node>,
    pub(crate) seat: Seat,
    ghost holds: { IsSeatOf number (Holding node.0) seat.me },
    ghost limit: { number < MAX_STATIONS },
    ghost positive: { 0 < node.0 },
    ghost in_cube: { node.0 < 2 ^ (dim + 1) },
    ghost words: { seat.table_id.words ≡ 2 ^ (dim + 1) },
    ghost dim_in_limits: { dim ≤ MAX_DIM },
    ghost named: { region ≡ region_at dim node.0 },
}

/// A station that has retired. It makes no further event. Its record says what it did.
#[derive(Drop)]
pub struct RetiredStation {
    pub(crate) seat: Seat,
}

/// The words of a machine of which all stations have retired.
#[derive(Drop)]
pub struct FreeMachine {
    pub(crate) dim: u32,
    pub(crate) words: Vec<u64>,
    // What the loads of the roll found.
    pub(crate) seat: Seat,
}

/// A cube that could not be closed, with the stations whose bit the load of the roll found clear.
pub struct StillOut {
    pub cube: Cube,
    /// Bit `s` is set for station `s`.
    pub missing: u64,
}
