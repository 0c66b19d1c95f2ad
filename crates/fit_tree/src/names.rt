//! Nodes of a machine of the bitmap's dimensions and the blocks that they name.

ghost use Rattle.std.specs.Prelude.{◌≡◌, ℕ, ◌≤◌, ◌↔◌, IsTrue};
ghost use Rattle.cube_shape.specs.Region.{IsAligned};
ghost use Rattle.cube_shape.specs.Node.{IsNodeOf};
ghost use Rattle.fit_tree.specs.Rooms.{IsNode};

use cube_shape::{MAX_BITMAP_DIM, Region};

/// Returns the block of a node of dimension `k`.
pub(crate) fn block_of(n: u32, k: u32, node: usize) -> Region
    requires machine { n ≤ MAX_BITMAP_DIM }
    requires node { IsNode n k node }
    ensures named { IsNodeOf n node result }
    ensures dim { result.dim ≡ k }
{
    Region {
        base: ((node - (1 << (n - k))) << k) as u64,
        dim: k,
    }
}

/// Returns the node that names a block.
pub(crate) fn node_of(n: u32, region: Region) -> usize
    requires machine { n ≤ MAX_BITMAP_DIM }
    requires region { IsAligned n region }
    ensures named { IsNodeOf n result region }
    ensures node { IsNode n region.dim result }
{
    (1 << (n - region.dim)) + (region.base >> region.dim) as usize
}

/// Returns whether a block is aligned in a machine of dimension `n`.
pub fn is_aligned(n: u32, region: Region) -> bool
    requires { n ≤ MAX_BITMAP_DIM }
    ensures { IsTrue result ↔ IsAligned n region }
{
    if n < region.dim {
        return false;
    }
    if 1 << n <= region.base {
        return false;
    }
    if region.base % (1 << region.dim) != 0 {
        return false;
    }
    true
}
