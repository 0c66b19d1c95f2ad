//! Takes and releases of a station.
ghost use Rattle.std.specs.Prelude.{◌≡◌, ◌<◌, ◌≤◌, ◌+◌, ◌^◌, IfOk, IfErr};
ghost use Rattle.cube_shape.specs.Node.{IsInCube};
ghost use Rattle.cube_core.specs.Held.{region_at};
ghost use Rattle.cube_tree.specs.Hint.{hint_of, hint_with};
ghost use Rattle.cube_tree.specs.Handles.{cube_dim, station_entry, subcube_entry, held_node, held_region, IsStationOf, IsSubcubeOf, TakesNode, IsRefusedTry, GivesBack};

use crate::handles::{Cube, Subcube, TreeStation};
use cube_shape::{MAX_DIM, Node, Region, region_of};
use tree_steps::Why;

// Returns the block of a node.
pub(crate) fn region_at_node(dim: u32, node: Node) -> Region
    requires dim { dim ≤ MAX_DIM }
    requires node { IsInCube dim node.0 }
    ensures { result ≡ region_at dim node.0 }
{
    region_of(dim, node)
}

impl TreeStation {
    /// Returns the number of the station.
    pub fn number(&self) -> u32
        ensures { result ≡ (station_entry self.now).station }
    {
        self.number
    }

    /// Makes one try to take the block of a node. It rolls back if an ancestor is occupied.
    pub fn try_node(self, cube: &Cube, node: Node) -> Result<Subcube, (TreeStation, Why)>
        requires cube { IsStationOf cube.now self }
        requires node { IsInCube (cube_dim cube.now) node.0 }
        ensures taken { IfOk result (TakesNode cube.now node.0 (station_entry self)) }
        ensures back { IfErr result (λ refused. IsStationOf cube.now refused.0) }
        ensures refused { IfErr result (λ refused.
            IsRefusedTry (cube_dim cube.now) node.0 (station_entry self)
            (station_entry refused.0) refused.1) }
        ensures remembers { IfOk result (λ subcube. hint_with subcube ≡ hint_of self) }
        ensures still_remembers { IfErr result (λ refused. hint_of refused.0 ≡ hint_of self) }
    {
        let TreeStation {
            number,
            hint,
            mut seat,
        } = self;
        match cube.tree.take(&mut seat, number, node) {
            Ok(()) => {
                let dim = cube.tree.size().dim;
                Ok(Subcube {
                    number,
                    node,
                    region: region_at_node(dim, node),
                    dim,
                    hint,
                    seat,
                })
            }
            Err(why) => Err((TreeStation { number, hint, seat }, why)),
        }
    }
}

impl Subcube {
    /// Returns the block that is held.
    pub fn region(&self) -> Region
        ensures { result ≡ held_region self.now }
    {
        self.region
    }

    /// Releases the block. Returns its station, which is idle.
    pub fn release(self, cube: &Cube) -> TreeStation
        requires { IsSubcubeOf cube.now self }
        ensures back { GivesBack cube.now (held_node self) (subcube_entry self) result }
        ensures remembers { hint_of result ≡ hint_with self }
    {
        let Subcube {
            number,
            node,
            region: _,
            dim: _,
            hint,
            mut seat,
        } = self;
        cube.tree.give_back(&mut seat, number, node);
        TreeStation { number, hint, seat }
    }
}
