//! The tag of a block's handle: whether it holds a block, and which one.
ghost use Rattle.std.specs.Prelude.{◌≡◌, ◌+◌, ◌^◌, ◌<◌, ◌≤◌, true};
ghost use Rattle.cube_shape.specs.declared.limits.TheConstants.{MAX_BITMAP_DIM};
ghost use Rattle.cubejobs_regions.specs.Tags.{is_held, tag_dim, tag_region};

use crate::codes::HELD;
use cube_shape::{MAX_BITMAP_DIM, Region};

// Returns the tag of a handle that holds this block of a machine of dimension `n`.
#[inline(always)]
pub(crate) fn tag_of(region: Region, n: u32) -> u64
    requires n { n ≤ MAX_BITMAP_DIM }
    requires dim { region.dim ≤ n }
    requires within { region.base + 2 ^ region.dim ≤ 2 ^ n }
    ensures held { is_held result ≡ true }
    ensures region { tag_region result ≡ region }
    ensures dim { tag_dim result ≡ n }
{
    let place = (HELD << MAX_BITMAP_DIM) + region.base;
    (place * 64 + region.dim as u64) * 64 + n as u64
}

// Returns whether a handle with this tag holds a block.
#[inline(always)]
pub(crate) fn holds(tag: u64) -> bool
    ensures { result ≡ is_held tag }
{
    (tag / 64 / 64) >> MAX_BITMAP_DIM == HELD
}

// Returns the block of a tag.
#[inline(always)]
pub(crate) fn region_at(tag: u64) -> Region
    ensures region { result ≡ tag_region tag }
    ensures base { result.base < 2 ^ MAX_BITMAP_DIM }
{
    Region {
        base: tag / 64 / 64 % (1 << MAX_BITMAP_DIM),
        dim: (tag / 64 % 64) as u32,
    }
}

// Returns the dimension of the machine of a tag.
#[inline(always)]
pub(crate) fn dim_at(tag: u64) -> u32
    ensures { result ≡ tag_dim tag }
{
    (tag % 64) as u32
}
