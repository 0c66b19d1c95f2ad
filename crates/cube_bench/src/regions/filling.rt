//! How a machine is filled before the turns.
ghost use Rattle.std.specs.Prelude.{◌≡◌, ◌^◌, ◌<◌, ◌≤◌};
ghost use Rattle.std.specs.List.{All};
ghost use Rattle.cube_shape.specs.declared.limits.TheConstants.{MAX_BITMAP_DIM};
ghost use Rattle.bitmap_tree.specs.Handles.{dim_of, permits_of, IsHeldOf};
ghost use Rattle.cube_bench.specs.RegionWords.{IsPossible};

use crate::regions::lanes::swap_remove;
use crate::regions::random::Random;
use crate::regions::words::{Invocation, Scenario};
use bitmap_tree::{BitmapTree, HeldBlock};

// How many blocks in a row may not fit before a machine counts as filled.
const MISSES: u32 = 100;

// Takes a block near a processor, and keeps it. Returns whether it did.
fn take_and_keep(tree: &BitmapTree, held: &mut Vec<HeldBlock>, k: u32, start: u64) -> bool
    requires anyone { permits_of tree.now ≡ 0 }
    requires fits { k ≤ dim_of tree.now }
    requires start { start < 2 ^ dim_of tree.now }
    requires held { All (IsHeldOf tree.now) held.old.items }
    ensures held { All (IsHeldOf tree.now) held.new.items }
{
    if held.reserve(1).is_err() {
        return false;
    }
    match tree.take(k, start) {
        Ok(block) => {
            held.push_reserved(block);
            true
        }
        Err(_) => false,
    }
}

// Takes all processors one by one.
fn take_singles(tree: &BitmapTree, held: &mut Vec<HeldBlock>, dim: u32) -> bool
    requires anyone { permits_of tree.now ≡ 0 }
    requires dim { dim ≡ dim_of tree.now }
    requires limit { dim ≤ MAX_BITMAP_DIM }
    requires held { All (IsHeldOf tree.now) held.old.items }
    ensures held { All (IsHeldOf tree.now) held.new.items }
{
    for start in 0..1u64 << dim {
        if !take_and_keep(tree, held, 0, start) {
            return false;
        }
    }
    true
}

// Returns whether a processor stays held, by the scenario.
fn stays_held(random: &mut Random, processor: u64, invocation: Invocation) -> bool {
    match invocation.scenario {
        Scenario::Full => true,
        Scenario::Fragments => processor % 64 == (processor / 64).wrapping_mul(37) % 64,
        _ => random.next() % 1000 < invocation.load,
    }
}

// Releases some of the blocks, the last one first.
fn release_some(
    tree: &BitmapTree,
    random: &mut Random,
    invocation: Invocation,
    held: &mut Vec<HeldBlock>,
)
    requires { All (IsHeldOf tree.now) held.old.items }
    ensures { All (IsHeldOf tree.now) held.new.items }
{
    for index in (0..held.len()).rev() {
        if index >= held.len() {
            return;
        }
        if !stays_held(random, held[index].region().base, invocation) {
            tree.release(swap_remove(tree, held, index));
        }
    }
}

// Takes blocks of random dimensions, up to a share of the machine.
fn fill_by_chance(
    tree: &BitmapTree,
    random: &mut Random,
    invocation: Invocation,
    held: &mut Vec<HeldBlock>,
)
    requires possible { IsPossible invocation }
    requires anyone { permits_of tree.now ≡ 0 }
    requires dim { invocation.dim ≡ dim_of tree.now }
    requires held { All (IsHeldOf tree.now) held.old.items }
    ensures held { All (IsHeldOf tree.now) held.new.items }
{
    let limit = (1 << invocation.dim) * invocation.load / 1000;
    let mut in_use = 0u64;
    let mut misses = 0;
    for _ in 0..u64::MAX {
        if misses >= MISSES {
            return;
        }
        let k = random.dim(invocation.low, invocation.high);
        if in_use.saturating_add(1 << k) <= limit && take_and_keep(tree, held, k, 0) {
            in_use = in_use.saturating_add(1 << k);
        } else {
            misses += 1;
        }
    }
}

/// Fills a machine as the scenario says. Returns whether it could.
pub(crate) fn fill(
    tree: &BitmapTree,
    random: &mut Random,
    invocation: Invocation,
    held: &mut Vec<HeldBlock>,
) -> bool
    requires possible { IsPossible invocation }
    requires anyone { permits_of tree.now ≡ 0 }
    requires dim { invocation.dim ≡ dim_of tree.now }
    requires held { All (IsHeldOf tree.now) held.old.items }
    ensures held { All (IsHeldOf tree.now) held.new.items }
{
    match invocation.scenario {
        Scenario::Pairs => true,
        Scenario::Half => take_and_keep(tree, held, invocation.dim - 1, 0),
        Scenario::Holes | Scenario::Full | Scenario::Fragments => {
            let are_taken = take_singles(tree, held, invocation.dim);
            release_some(tree, random, invocation, held);
            are_taken
        }
        Scenario::Churn => {
            fill_by_chance(tree, random, invocation, held);
            true
        }
    }
}
