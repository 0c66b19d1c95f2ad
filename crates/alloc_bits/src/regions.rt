ghost use Rattle.std.specs.Prelude.{◌≡◌, ℕ, ◌^◌, ◌≤◌, length, IfSome, IfNone};
ghost use Rattle.cube_shape.specs.Region.{IsAligned, block};
ghost use Rattle.cube_shape.specs.Machine.{Gives, HasNoFit, Holdings, IsFirstFit, TakesBack};
ghost use Rattle.alloc_bits.specs.Represents.{Represents};

use crate::bits;
use crate::limits::MAX_BITS_DIM;
use cube_shape::Region;

/// Returns the first fit of dimension `k` in a machine of dimension `n`. That is block `(m, k)` for
/// the least `m` such that it overlaps no held block. The bits represent what is held.
///
/// Returns `None` only if there is no such `m`.
pub fn first_fit(bits: &[bool], n: u32, k: u32) -> Option<Region>
    requires machine { n ≤ MAX_BITS_DIM }
    requires dim { k ≤ n }
    requires bits { 2 ^ n ≤ length bits.now }
    ensures first { IfSome result (λ r. (m : ℕ) × (r ≡ block k m)
        × ((held : Holdings) → Represents n held bits.now → IsFirstFit n k held m)) }
    ensures aligned { IfSome result (λ r. IsAligned n r) }
    ensures none { IfNone result ((held : Holdings) → Represents n held bits.now
        → HasNoFit n k held) }
{
    bits::first_clear(bits, n, k)
}

/// Sets the bits of a block that a station gets.
pub fn set_region(bits: &mut [bool], n: u32, region: Region)
    requires machine { n ≤ MAX_BITS_DIM }
    requires bits { 2 ^ n ≤ length bits.old }
    requires region { IsAligned n region }
    ensures len { length bits.new ≡ length bits.old }
    ensures given { (station k : ℕ) (old new : Holdings) → Represents n old bits.old
        → Gives n station k old new region → Represents n new bits.new }
{
    bits::write(bits, n, region, true);
}

/// Clears the bits of a block that is taken from its station.
pub fn clear_region(bits: &mut [bool], n: u32, region: Region)
    requires machine { n ≤ MAX_BITS_DIM }
    requires bits { 2 ^ n ≤ length bits.old }
    requires region { IsAligned n region }
    ensures len { length bits.new ≡ length bits.old }
    ensures taken_back { (station : ℕ) (old new : Holdings) → Represents n old bits.old
        → TakesBack station old new region → Represents n new bits.new }
{
    bits::write(bits, n, region, false);
}
