//! Takes of any block of a dimension.
ghost use Rattle.std.specs.Prelude.{◌≡◌, ◌-◌, ◌^◌, ◌≤◌, IfOk, IfErr};
ghost use Rattle.tree_steps.specs.Tree.{dim_of};
ghost use Rattle.cube_shape.specs.Region.{IsAligned};
ghost use Rattle.cube_tree.specs.Handles.{cube_dim, held_region, station_entry, IsStationOf};
ghost use Rattle.cube_tree.specs.Hint.{hint_of, hint_with};
ghost use Rattle.cube_tree.specs.Tries.{TakesOne, IsRefusedAll};

use crate::handles::{Cube, Subcube, TreeStation};
use crate::refusal::{Refusal, count};
use cube_shape::{MAX_DIM, Node};
use tree_steps::Tree;

// Returns the number of blocks of dimension `k`.
pub(crate) fn region_count(tree: &Tree, k: u32) -> u64
    requires { k ≤ dim_of tree.now }
    ensures value { result ≡ 2 ^ (dim_of tree.now - k) }
    ensures limit { result ≤ 2 ^ MAX_DIM }
{
    1 << (tree.size().dim - k)
}

impl TreeStation {
    /// Tries the blocks of dimension `k` one after another, from the first one on, until one is
    /// taken.
    ///
    /// For `j = n - k` the call makes at most `2^j * (3 + 7 * j)` events. If each block is refused,
    /// the three counts are those of its `2^j` tries.
    pub fn try_take(self, cube: &Cube, k: u32) -> Result<Subcube, (TreeStation, Refusal)>
        requires cube { IsStationOf cube.now self }
        requires dim { k ≤ cube_dim cube.now }
        ensures taken { IfOk result (TakesOne cube.now (cube_dim cube.now - k)
            (station_entry self)) }
        ensures aligned { IfOk result (λ subcube.
            IsAligned (cube_dim cube.now) (held_region subcube)) }
        ensures dimension { IfOk result (λ subcube. (held_region subcube).dim ≡ k) }
        ensures remembers { IfOk result (λ subcube. hint_with subcube ≡ hint_of self) }
        ensures back { IfErr result (λ refused. IsStationOf cube.now refused.0) }
        ensures refused { IfErr result (λ refused.
            IsRefusedAll (cube_dim cube.now) (cube_dim cube.now - k)
            (station_entry self) (station_entry refused.0) refused.1) }
        ensures still_remembers { IfErr result (λ refused. hint_of refused.0 ≡ hint_of self) }
    {
        let nodes = region_count(&cube.tree, k);
        let mut station = self;
        let mut refusal = Refusal::NONE;
        for m in 0..nodes {
            match station.try_node(cube, Node(nodes + m)) {
                Ok(subcube) => return Ok(subcube),
                Err((back, why)) => {
                    station = back;
                    refusal = count(refusal, why);
                }
            }
        }
        Err((station, refusal))
    }
}
