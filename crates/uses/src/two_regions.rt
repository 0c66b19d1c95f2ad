//! A caller of `alloc_bits`.

ghost use Rattle.std.specs.Prelude.{◌≡◌, ◌≢◌, ◌<◌, ◌≤◌, None, IfOk};
ghost use Rattle.cube_shape.specs.Region.{AreApart};
ghost use Rattle.alloc_bits.specs.Allocation.{held_in};

use alloc_bits::{AllocBits, NoSubcube};
use cube_shape::{MAX_STATIONS, Region};

/// Takes a block of dimension `k` for each of two idle stations. No processor is in both blocks.
pub fn take_two(
    bits: &mut AllocBits,
    first: u32,
    second: u32,
    k: u32,
) -> Result<(Region, Region), NoSubcube>
    requires stations { (first < MAX_STATIONS) × (second < MAX_STATIONS) × (first ≢ second) }
    requires idle { (held_in bits.old first ≡ None) × (held_in bits.old second ≡ None) }
    requires dim { k ≤ bits.old.dim }
    ensures { IfOk result (λ taken. AreApart taken.0 taken.1) }
{
    let region = bits.take(first, k)?;
    let other = bits.take(second, k)?;
    Ok((region, other))
}
