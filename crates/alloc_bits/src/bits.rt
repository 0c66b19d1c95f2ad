//! Searching and writing the bits of blocks.

ghost use Rattle.std.specs.Prelude.{◌≡◌, ℕ, ◌+◌, ◌^◌, ◌<◌, ◌≤◌, ◌↔◌, length, false, IsTrue, IfSome, IfNone};
ghost use Rattle.cube_shape.specs.Region.{IsAligned, block};
ghost use Rattle.alloc_bits.specs.Represents.{bit_of};
ghost use Rattle.alloc_bits.specs.Bits.{HasNoClear, IsClear, IsFirstClear, Writes};

use crate::limits::MAX_BITS_DIM;
use cube_shape::Region;

/// Returns the first clear block of dimension `k`: block `(m, k)` for the least `m` such that none
/// of its bits is set.
///
/// Returns `None` only if there is no such `m`.
pub fn first_clear(bits: &[bool], n: u32, k: u32) -> Option<Region>
    requires machine { n ≤ MAX_BITS_DIM }
    requires dim { k ≤ n }
    requires bits { 2 ^ n ≤ length bits.now }
    ensures found { IfSome result (λ r. (m : ℕ) × (r ≡ block k m) × IsFirstClear n k bits.now m) }
    ensures none { IfNone result (HasNoClear n k bits.now) }
{
    for base in (0..1u64 << n).step_by(1 << k) {
        let region = Region { base, dim: k };
        if is_clear(bits, n, region) {
            return Some(region);
        }
    }
    None
}

/// Returns whether no bit of a block is set.
pub fn is_clear(bits: &[bool], n: u32, region: Region) -> bool
    requires machine { n ≤ MAX_BITS_DIM }
    requires bits { 2 ^ n ≤ length bits.now }
    requires region { IsAligned n region }
    ensures { IsTrue result ↔ IsClear bits.now region }
{
    let (start, end) = bit_range(n, region);
    none_set(&bits[start..end])
}

// Returns whether none of these bits is set.
fn none_set(bits: &[bool]) -> bool
    ensures { IsTrue result ↔ ((i : ℕ) → i < length bits.now → bit_of bits.now i ≡ false) }
{
    bits.iter().all(|taken| !*taken)
}

/// Sets the bits of a block, or clears them, as `taken` says. No other bit changes.
pub fn write(bits: &mut [bool], n: u32, region: Region, taken: bool)
    requires machine { n ≤ MAX_BITS_DIM }
    requires bits { 2 ^ n ≤ length bits.old }
    requires region { IsAligned n region }
    ensures { Writes region taken bits.old bits.new }
{
    let (start, end) = bit_range(n, region);
    bits[start..end].fill(taken);
}

// Returns the first processor of a block, and the one after its last.
fn bit_range(n: u32, region: Region) -> (usize, usize)
    requires machine { n ≤ MAX_BITS_DIM }
    requires region { IsAligned n region }
    ensures start { result.0 ≡ region.base }
    ensures end { result.1 ≡ region.base + 2 ^ region.dim }
    ensures in_machine { result.1 ≤ 2 ^ n }
{
    let start = region.base as usize;
    (start, start + (1 << region.dim))
}
