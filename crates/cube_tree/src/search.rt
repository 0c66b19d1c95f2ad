//! Searches for a free block of a dimension, which skip the nodes under an occupied ancestor.
ghost use Rattle.std.specs.Prelude.{◌≡◌, ◌+◌, ◌-◌, ◌^◌, ◌<◌, ◌≤◌, if◌then◌else◌, None, Some, IfOk, IfErr, IfSome, IsNone};
ghost use Rattle.tree_steps.specs.Answer.{ancestor_of};
ghost use Rattle.cube_shape.specs.Node.{IsInCube};
ghost use Rattle.cube_shape.specs.Region.{IsAligned};
ghost use Rattle.cube_tree.specs.Handles.{cube_dim, held_region, station_entry, IsStationOf};
ghost use Rattle.cube_tree.specs.Search.{TakesNext, IsRefusedEach};
ghost use Rattle.cube_tree.specs.Hint.{hint_of, hint_after_refusal, node_of_hint, IsAbove, IsHintAbove, RemembersRefused, RemembersTaken};
ghost use Rattle.cube_tree.specs.InnerSearch.{NamesAncestor, IsNodeAfter, Finds, Begins};

use crate::handles::{Cube, Subcube, TreeStation};
use crate::refusal::{Refusal, count};
use crate::tries::region_count;
use cube_shape::{MAX_DIM, Node, on_path};
use status_word::Word;
use tree_steps::Why;

// Returns the next node of the same level to try after a refused one. If an ancestor was occupied,
// this is the first node that is not under it.
pub(crate) fn node_after(node: Node, why: Why) -> Node
    requires limit { node.0 < 2 ^ (MAX_DIM + 1) }
    requires positive { 0 < node.0 }
    requires names { NamesAncestor why node.0 }
    ensures { IsNodeAfter why node.0 result.0 }
{
    let Why::Under(at) = why else {
        return Node(node.0 + 1);
    };
    let levels = node.0.ilog2() - at.0.ilog2();
    Node((at.0 + 1) << levels)
}

// Returns the hint if it is an ancestor of the node.
fn hint_above(hint: Option<Node>, node: Node) -> Option<Node>
    requires { 0 < node.0 }
    ensures same { IfSome result (λ at. hint ≡ Some at) }
    ensures above { IfSome result (λ at. IsAbove at.0 node.0) }
    ensures none { IsNone result → IsHintAbove (node_of_hint hint) node.0 → ⊥ }
{
    let at = hint?;
    if at.0 == 0 || at.0 >= node.0 {
        return None;
    }
    if on_path(at, node) { Some(at) } else { None }
}

impl TreeStation {
    // Peeks at a node. Returns whether it is occupied. Afterwards the hint is this node if it is
    // occupied, and else there is none.
    fn peek(self, cube: &Cube, at: Node) -> (TreeStation, bool)
        requires cube { IsStationOf cube.now self }
        requires node { IsInCube (cube_dim cube.now) at.0 }
        ensures cube { IsStationOf cube.now result.0 }
        ensures finds { Finds at.0 result.1 (station_entry self) (station_entry result.0) }
        ensures remembers { hint_of result.0 ≡ node_of_hint (if result.1 then Some at else None) }
    {
        let TreeStation {
            number,
            hint: _,
            mut seat,
        } = self;
        let word = cube.tree.peek(&mut seat, at);
        let is_occupied = Word(word).is_occupied();
        let hint = if is_occupied { Some(at) } else { None };
        (TreeStation { number, hint, seat }, is_occupied)
    }

    // Returns the node at which a search for a block of dimension `k` begins. If the hint is an
    // ancestor of the first node, and a peek finds it occupied, this is the node after those under
    // the hint. Else it is the first node.
    fn begin_search(self, cube: &Cube, k: u32) -> (TreeStation, Node)
        requires cube { IsStationOf cube.now self }
        requires dim { k ≤ cube_dim cube.now }
        ensures cube { IsStationOf cube.now result.0 }
        ensures begins { Begins (cube_dim cube.now - k) result.1.0 (hint_of self)
            (hint_of result.0) (station_entry self) (station_entry result.0) }
    {
        let first = Node(region_count(&cube.tree, k));
        let Some(at) = hint_above(self.hint, first) else {
            return (self, first);
        };
        let (station, is_occupied) = self.peek(cube, at);
        if is_occupied {
            (station, node_after(first, Why::Under(at)))
        } else {
            (station, first)
        }
    }

    // Stores the ancestor that refused the first node of a level as the hint.
    fn remember(self, is_first: bool, why: Why) -> TreeStation
        ensures table { result.seat.table_id ≡ self.seat.table_id }
        ensures entry { station_entry result ≡ station_entry self }
        ensures remembers { hint_of result
            ≡ hint_after_refusal is_first (ancestor_of why) (hint_of self) }
    {
        let Why::Under(at) = why else {
            return self;
        };
        if !is_first {
            return self;
        }
        let TreeStation {
            number,
            hint: _,
            seat,
        } = self;
        TreeStation {
            number,
            hint: Some(at),
            seat,
        }
    }

    /// Tries the blocks of dimension `k` in order, from the first one on, until one is taken.
    ///
    /// Skips each block under an ancestor that this call found occupied, by a try or by a peek. The
    /// call peeks at the station's hint if this is an ancestor of the first block's node. If the
    /// hint is not occupied, it is dropped. If the try of the first block finds an ancestor
    /// occupied, this ancestor becomes the hint.
    ///
    /// For `j = n - k` the call makes at most `2^j * (3 + 7 * j)` events. The three counts of a
    /// refusal are those of its tries.
    pub fn search(self, cube: &Cube, k: u32) -> Result<Subcube, (TreeStation, Refusal)>
        requires cube { IsStationOf cube.now self }
        requires dim { k ≤ cube_dim cube.now }
        ensures taken { IfOk result (TakesNext cube.now (cube_dim cube.now - k)
            (station_entry self)) }
        ensures aligned { IfOk result (λ subcube.
            IsAligned (cube_dim cube.now) (held_region subcube)) }
        ensures dimension { IfOk result (λ subcube. (held_region subcube).dim ≡ k) }
        ensures remembers { IfOk result (RemembersTaken cube.now (cube_dim cube.now - k) self) }
        ensures back { IfErr result (λ refused. IsStationOf cube.now refused.0) }
        ensures refused { IfErr result (λ refused.
            IsRefusedEach (cube_dim cube.now) (cube_dim cube.now - k)
            (station_entry self) (station_entry refused.0) refused.1) }
        ensures still_remembers { IfErr result (λ refused.
            RemembersRefused (cube_dim cube.now) (cube_dim cube.now - k) self refused.0) }
    {
        let first = region_count(&cube.tree, k);
        let (mut station, mut node) = self.begin_search(cube, k);
        let mut refusal = Refusal::NONE;
        while node.0 < 2 * first {
            match station.try_node(cube, node) {
                Ok(subcube) => return Ok(subcube),
                Err((back, why)) => {
                    station = back.remember(node.0 == first, why);
                    refusal = count(refusal, why);
                    node = node_after(node, why);
                }
            }
        }
        Err((station, refusal))
    }
}
