//! Which blocks a machine has.
ghost use Rattle.std.specs.Prelude.{◌≤◌, IsTrue, ◌↔◌};
ghost use Rattle.cube_shape.specs.Region.{IsAligned};
ghost use Rattle.cube_shape.specs.declared.limits.TheConstants.{MAX_BITMAP_DIM};

use cube_shape::Region;

// Returns whether a machine of dimension `n` has this block.
pub(crate) fn is_block(n: u32, block: Region) -> bool
    requires n { n ≤ MAX_BITMAP_DIM }
    requires dim { block.dim ≤ n }
    ensures { IsTrue result ↔ IsAligned n block }
{
    let number = block.base >> block.dim;
    if number >= 1 << (n - block.dim) {
        return false;
    }
    number << block.dim == block.base
}
