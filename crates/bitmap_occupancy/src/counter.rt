//! A count that goes from one processor to the next.
ghost use Rattle.std.specs.Prelude.{◌≡◌, ◌≢◌, ℕ, List, ◌+◌, ◌%◌, ◌^◌, ◌<◌, ◌≤◌, ◌⊎◌, ◌↔◌, IsTrue, true, false, slice_index};
ghost use Rattle.cube_shape.specs.declared.limits.TheConstants.{MAX_BITMAP_DIM};
ghost use Rattle.bitmap_occupancy.specs.Occupancy.{IsHeldAt};
ghost use Rattle.bitmap_occupancy.specs.InnerRuns.{AreCounted, IsRun};
ghost use Rattle.bitmap_occupancy.specs.InnerCount.{IsCountedTo, IsRunning};

use crate::summary::FREE_PLACES;

/// What was counted of the processors so far.
#[derive(Clone, Copy)]
pub(crate) struct Counter {
    // The first processor after the last one that is held.
    pub(crate) from: u64,
    pub(crate) held: u64,
    pub(crate) free: [u64; FREE_PLACES],
}

// Returns whether a free block of dimension `k` ends before a processor, where none is held from
// `from` on.
fn ends_free(past: u64, from: u64, k: u32) -> bool
    requires dim { k ≤ MAX_BITMAP_DIM }
    requires from { from ≤ past }
    ensures ends { result ≡ true → (past % 2 ^ k ≡ 0) × (from + 2 ^ k ≤ past) }
    ensures not { result ≡ false → (past % 2 ^ k ≢ 0) ⊎ (past < from + 2 ^ k) }
{
    if past - from < 1 << k {
        return false;
    }
    past % (1 << k) == 0
}

// Counts the free blocks that end with a processor, where none is held from `from` on.
fn end_blocks(n: u32, free: &mut [u64; FREE_PLACES], processor: u64, from: u64)
    requires machine { n ≤ MAX_BITMAP_DIM }
    requires processor { processor < 2 ^ n }
    requires from { from ≤ processor + 1 }
    requires few { (k : ℕ) → slice_index free.old k ≤ processor }
    ensures counted { (words : List ℕ) → IsRun n words (processor + 1) from
        → AreCounted n words processor free.old → AreCounted n words (processor + 1) free.new }
    ensures few { (k : ℕ) → slice_index free.new k ≤ processor + 1 }
    ensures others { (k : ℕ) → n < k → slice_index free.new k ≡ slice_index free.old k }
{
    for k in 0..n + 1 {
        if !ends_free(processor + 1, from, k) {
            return;
        }
        free[k as usize] += 1;
    }
}

// Counts one more processor, which is held or not.
pub(crate) fn add(n: u32, counter: &mut Counter, processor: u64, is_held: bool)
    requires machine { n ≤ MAX_BITMAP_DIM }
    requires processor { processor < 2 ^ n }
    requires running { IsRunning n processor counter.old }
    ensures running { IsRunning n (processor + 1) counter.new }
    ensures counted { (words : List ℕ) → (IsTrue is_held ↔ IsHeldAt n words processor)
        → IsCountedTo n words processor counter.old
        → IsCountedTo n words (processor + 1) counter.new }
{
    if !is_held {
        end_blocks(n, &mut counter.free, processor, counter.from);
        return;
    }
    counter.held += 1;
    counter.from = processor + 1;
}
