//! What each station holds: one slot for each station, by its number.

ghost use Rattle.std.specs.Prelude.{◌≡◌, ◌≢◌, ℕ, ◌^◌, ◌<◌, ◌≤◌, ◌↔◌, None, Some, length, IsTrue, IfNone, IfSome};
ghost use Rattle.cube_shape.specs.declared.region.Region.{Region as HeldRegion};
ghost use Rattle.cube_shape.specs.Region.{Covers};
ghost use Rattle.alloc_bits.specs.Inner.{slot_of};

use crate::limits::MAX_BITS_DIM;
use cube_shape::Region;

/// Returns the block of a station, if it holds one.
pub(crate) fn region_of(slots: &[Option<Region>], station: u32) -> Option<Region>
    ensures { result ≡ slot_of slots.now station }
{
    slots.get(station as usize).copied().flatten()
}

/// Returns whether no station holds a block.
#[tactic(auto, using(std::proofs::lemmas::List::get_or_past))]
pub(crate) fn all_empty(slots: &[Option<Region>]) -> bool
    ensures { IsTrue result ↔ ((s : ℕ) → slot_of slots.now s ≡ None) }
{
    slots.iter().all(|slot| slot.is_none())
}

/// Returns the station whose block has the processor, the first one if there are several.
pub(crate) fn holder_of(slots: &[Option<Region>], processor: u64) -> Option<u32>
    requires count { length slots.now < 2 ^ 32 }
    requires limits { (s : ℕ) (a : HeldRegion) → slot_of slots.now s ≡ Some a
        → a.dim ≤ MAX_BITS_DIM }
    ensures held { IfSome result (λ s. (a : HeldRegion) × (slot_of slots.now s ≡ Some a)
        × Covers a processor) }
    ensures free { IfNone result ((s : ℕ) (a : HeldRegion) → slot_of slots.now s ≡ Some a
        → Covers a processor → ⊥) }
{
    for station in 0..slots.len() {
        if let Some(region) = slots[station]
            && covers(region, processor)
        {
            return Some(station as u32);
        }
    }
    None
}

// Returns whether a block has the processor.
fn covers(region: Region, processor: u64) -> bool
    requires { region.dim ≤ MAX_BITS_DIM }
    ensures { IsTrue result ↔ Covers region processor }
{
    region.base <= processor && processor - region.base < 1 << region.dim
}

/// Stores the block of a station, or `None` if it holds nothing.
pub(crate) fn set_slot(slots: &mut [Option<Region>], station: u32, region: Option<Region>)
    requires { station < length slots.old }
    ensures len { length slots.new ≡ length slots.old }
    ensures own { slot_of slots.new station ≡ region }
    ensures others { (s : ℕ) → s ≢ station → slot_of slots.new s ≡ slot_of slots.old s }
{
    slots[station as usize] = region;
}
