//! Which blocks a machine has.

ghost use Rattle.std.specs.Prelude.{◌≤◌, ◌↔◌, IsTrue};
ghost use Rattle.cube_shape.specs.Region.{IsAligned};

use cube_shape::{MAX_BITMAP_DIM, Region};

/// Returns whether a block is aligned in a machine of dimension `n`.
pub(crate) fn is_block(n: u32, region: Region) -> bool
    requires { n ≤ MAX_BITMAP_DIM }
    ensures { IsTrue result ↔ IsAligned n region }
{
    if n < region.dim {
        return false;
    }
    let size: u64 = 1 << region.dim;
    let count: u64 = 1 << (n - region.dim);
    let number = region.base / size;
    if number >= count {
        return false;
    }
    number * size == region.base
}
