//! Counting the free blocks and the held processors.
ghost use Rattle.std.specs.Prelude.{◌≡◌, ℕ, ◌+◌, ◌-◌, ◌*◌, ◌^◌, ◌<◌, ◌≤◌, ◌↔◌, Some, None, IsTrue, length, slice_index};
ghost use Rattle.cube_ledger.specs.Occupancy.{HasOccupiedAncestor, IsEmptyMachine, IsLargestFree, free_regions, has_occupied_above, held_processors, held_regions, is_free_node, is_held_node, is_occupied_word};

use crate::regions::{FREE_PLACES, Occupancy};
use cube_shape::MAX_DIM;
use status_word::Word;

// Returns whether a node is occupied.
fn is_occupied(words: &[u64], node: usize) -> bool
    requires { node < length words.now }
    ensures { result ≡ is_occupied_word words.now node }
{
    Word(words[node]).is_occupied()
}

// Returns whether one of the next ancestors of a node is occupied, for this number of levels.
fn is_under_occupied(words: &[u64], node: usize, levels: u32) -> bool
    requires { node < length words.now }
    ensures { result ≡ has_occupied_above words.now node levels }
{
    let mut above = node;
    for _ in 0..levels {
        above /= 2;
        if is_occupied(words, above) {
            return true;
        }
    }
    false
}

// Returns whether the block of a node at this level is free.
fn is_free_node(words: &[u64], node: usize, levels: u32) -> bool
    requires { node < length words.now }
    ensures { result ≡ is_free_node words.now node levels }
{
    Word(words[node]).is_free() && !is_under_occupied(words, node, levels)
}

// Returns whether the block of a node at this level is held as a whole, and is in no larger held
// block.
fn is_held_node(words: &[u64], node: usize, levels: u32) -> bool
    requires { node < length words.now }
    ensures { result ≡ is_held_node words.now node levels }
{
    is_occupied(words, node) && !is_under_occupied(words, node, levels)
}

// Returns the number of free blocks of a level.
fn free_regions(words: &[u64], levels: u32) -> u64
    requires levels { levels ≤ MAX_DIM }
    requires words { 2 ^ (levels + 1) ≤ length words.now }
    ensures count { result ≡ free_regions words.now levels }
{
    let first = 1 << levels;
    let mut count = 0;
    for m in 0..first {
        if is_free_node(words, first + m, levels) {
            count += 1;
        }
    }
    count
}

// Returns the number of held blocks of a level.
fn held_regions(words: &[u64], levels: u32) -> u64
    requires levels { levels ≤ MAX_DIM }
    requires words { 2 ^ (levels + 1) ≤ length words.now }
    ensures count { result ≡ held_regions words.now levels }
    ensures few { result ≤ 2 ^ levels }
{
    let first = 1 << levels;
    let mut count = 0;
    for m in 0..first {
        if is_held_node(words, first + m, levels) {
            count += 1;
        }
    }
    count
}

// Returns the number of processors of the held blocks of one dimension.
fn held_of_dim(n: u32, words: &[u64], dim: u32) -> u64
    requires machine { n ≤ MAX_DIM }
    requires dim { dim ≤ n }
    requires words { length words.now ≡ 2 ^ (n + 1) }
    ensures held { result ≡ held_regions words.now (n - dim) * 2 ^ dim }
    ensures few { result ≤ 2 ^ n }
{
    held_regions(words, n - dim) << dim
}

// Returns the number of processors of all held blocks.
fn held_processors(n: u32, words: &[u64]) -> u64
    requires machine { n ≤ MAX_DIM }
    requires words { length words.now ≡ 2 ^ (n + 1) }
    ensures { result ≡ held_processors n words.now }
{
    let mut held = 0;
    for dim in 0..n + 1 {
        held += held_of_dim(n, words, dim);
    }
    held
}

// Returns the number of free blocks of each dimension.
#[tactic(auto, using(crate::proofs::RegionLemmas::level_fits))]
fn free_by_dim(n: u32, words: &[u64]) -> [u64; FREE_PLACES]
    requires machine { n ≤ MAX_DIM }
    requires words { length words.now ≡ 2 ^ (n + 1) }
    ensures free { (k : ℕ) → k ≤ n → slice_index result k ≡ free_regions words.now (n - k) }
    ensures none_above { (k : ℕ) → n < k → slice_index result k ≡ 0 }
{
    let mut free = [0; FREE_PLACES];
    for dim in 0..n + 1 {
        free[dim as usize] = free_regions(words, n - dim);
    }
    free
}

// Returns the largest dimension at which a count is not 0.
fn largest_free(free: &[u64; FREE_PLACES]) -> Option<u32>
    ensures { IsLargestFree free.now result }
{
    let mut largest = None;
    for dim in 0..FREE_PLACES {
        if free[dim] > 0 {
            largest = Some(dim as u32);
        }
    }
    largest
}

/// Counts the free blocks and the held processors of a machine of dimension `n`, from its status
/// words. Word `v` is that of node `v`, and word 0 is not read. Needs no memory.
pub fn occupancy(n: u32, words: &[u64]) -> Occupancy
    requires machine { n ≤ MAX_DIM }
    requires words { length words.now ≡ 2 ^ (n + 1) }
    ensures free { (k : ℕ) → k ≤ n →
        slice_index result.free k ≡ free_regions words.now (n - k) }
    ensures none_above { (k : ℕ) → n < k → slice_index result.free k ≡ 0 }
    ensures held { result.held ≡ held_processors n words.now }
    ensures largest { IsLargestFree result.free result.largest }
    ensures wholly_free { ((node : ℕ) → 0 < node → slice_index words.now node ≡ 0) →
        IsEmptyMachine n result }

    // What `has_occupied_above` means, for a node at this level.
    ensures above { (node levels : ℕ) → 2 ^ levels ≤ node → node < 2 ^ (levels + 1) →
        IsTrue (has_occupied_above words.now node levels) ↔ HasOccupiedAncestor words.now node }
{
    let free = free_by_dim(n, words);
    Occupancy {
        free,
        held: held_processors(n, words),
        largest: largest_free(&free),
    }
}
