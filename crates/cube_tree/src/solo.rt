//! A machine of which one caller has all stations.
ghost use Rattle.std.specs.Prelude.{◌≡◌};
ghost use Rattle.tree_steps.specs.Tree.{id_of, dim_of, read_words, station_count};
ghost use Rattle.cube_tree.specs.Slots.{IsTold, Represents};

use cube_shape::Node;
use tree_steps::{Seat, Tree};

/// A machine of which one caller has all stations. Nothing else takes or releases its blocks, so a
/// take is exact. It cannot be dropped.
pub struct Solo {
    pub(crate) tree: Tree,
    // The seat that all stations step with.
    pub(crate) seat: Seat,
    // The node that each station holds.
    pub(crate) nodes: Vec<Option<Node>>,
    ghost table: { seat.table_id ≡ id_of tree },
    ghost state: { Represents (dim_of tree) (station_count tree) nodes.items seat.me },
    ghost told: { IsTold (dim_of tree) (read_words tree) seat.me.0.stations },
}
