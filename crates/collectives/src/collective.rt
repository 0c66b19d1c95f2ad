//! The five collectives, in place on a slice with an item for each rank.

ghost use Rattle.std.specs.Prelude.{◌≡◌, ℕ, ◌+◌, ◌^◌, ◌<◌, length, All, Some, slice_get, ◌==◌, if◌then◌else◌};
ghost use Rattle.collectives.specs.Inner.Rounds.{item_at};
ghost use Rattle.collectives.specs.Places.{Holds, prefix_total, total};
ghost use Rattle.collectives.specs.Shape.{tally_of};

use crate::monoid::Monoid;
use crate::rounds::{all_reduce_round, broadcast_round, distance, reduce_round, scan_round};
use crate::shape::{DIM_LIMIT, Shape, Tally};

/// Copies the item of the root's place to every place. Returns the rounds and messages.
pub fn broadcast<M: Copy>(items: &mut [M], k: u32, root: usize) -> Tally
    requires dim { k < DIM_LIMIT }
    requires places { length items.old ≡ 2 ^ k }
    requires root { root < 2 ^ k }
    ensures held { (rank : ℕ) → rank < 2 ^ k → slice_get items.new rank ≡ slice_get items.old root }
    ensures tally { result ≡ tally_of Shape.Broadcast k }
{
    for round in 0..k {
        broadcast_round(items, root, distance(round));
    }
    Shape::Broadcast.tally(k)
}

/// Joins all items in the order of their ranks, and stores the result at the root's place. The
/// other places hold the unit at the end. Returns the rounds and messages.
pub fn reduce<M: Monoid>(items: &mut [M], k: u32, root: usize) -> Tally
    requires dim { k < DIM_LIMIT }
    requires places { length items.old ≡ 2 ^ k }
    requires root { root < 2 ^ k }
    requires values { All M.is_value items.old }
    ensures held { Holds items.new k (λ rank.
        if rank == root then total M.join M.unit items.old else M.unit) }
    ensures values { All M.is_value items.new }
    ensures tally { result ≡ tally_of Shape.Reduce k }
{
    for round in 0..k {
        reduce_round(items, root, distance(round));
    }
    Shape::Reduce.tally(k)
}

/// Joins all items in the order of their ranks, and stores the result at every place. Returns the
/// rounds and messages.
pub fn all_reduce<M: Monoid>(items: &mut [M], k: u32) -> Tally
    requires dim { k < DIM_LIMIT }
    requires places { length items.old ≡ 2 ^ k }
    requires values { All M.is_value items.old }
    ensures held { Holds items.new k (λ rank. total M.join M.unit items.old) }
    ensures values { All M.is_value items.new }
    ensures tally { result ≡ tally_of Shape.AllReduce k }
{
    for round in 0..k {
        all_reduce_round(items, distance(round));
    }
    Shape::AllReduce.tally(k)
}

/// Stores at each place the items up to and including its own, joined in the order of their ranks.
/// Returns the rounds and messages.
///
/// The first content of `scratch` is ignored. At the end each of its places holds the total of all
/// items.
pub fn scan<M: Monoid>(items: &mut [M], scratch: &mut [M], k: u32) -> Tally
    requires dim { k < DIM_LIMIT }
    requires places { length items.old ≡ 2 ^ k }
    requires scratch { length scratch.old ≡ 2 ^ k }
    requires values { All M.is_value items.old }
    ensures held { Holds items.new k (λ rank. prefix_total M.join M.unit items.old (rank + 1)) }
    ensures totals { Holds scratch.new k (λ rank. total M.join M.unit items.old) }
    ensures values { All M.is_value items.new }
    ensures tally { result ≡ tally_of Shape.Scan k }
{
    scratch.copy_from_slice(items);
    scan_rounds(items, scratch, k);
    Shape::Scan.tally(k)
}

/// Stores at each place the items before its own, joined in the order of their ranks (exclusive
/// scan). The first place receives the unit. Returns the rounds and messages, which are those of a
/// scan.
///
/// The first content of `scratch` is ignored. At the end each of its places holds the total of all
/// items.
pub fn exscan<M: Monoid>(items: &mut [M], scratch: &mut [M], k: u32) -> Tally
    requires dim { k < DIM_LIMIT }
    requires places { length items.old ≡ 2 ^ k }
    requires scratch { length scratch.old ≡ 2 ^ k }
    requires values { All M.is_value items.old }
    ensures held { Holds items.new k (λ rank. prefix_total M.join M.unit items.old rank) }
    ensures first { slice_get items.new 0 ≡ Some M.unit }
    ensures totals { Holds scratch.new k (λ rank. total M.join M.unit items.old) }
    ensures values { All M.is_value items.new }
    ensures tally { result ≡ tally_of Shape.Scan k }
{
    scratch.copy_from_slice(items);
    put_units(items);
    scan_rounds(items, scratch, k);
    Shape::Scan.tally(k)
}

// Makes the rounds of both scans, over the items in `totals`. Each place receives the items before
// its own, joined, and after these the prefix that it began with.
fn scan_rounds<M: Monoid>(prefixes: &mut [M], totals: &mut [M], k: u32)
    requires dim { k < DIM_LIMIT }
    requires places { length prefixes.old ≡ 2 ^ k }
    requires items { length totals.old ≡ 2 ^ k }
    requires values { All M.is_value prefixes.old }
    requires item_values { All M.is_value totals.old }
    ensures held { Holds prefixes.new k (λ rank. M.join
        (prefix_total M.join M.unit totals.old rank) (item_at M.unit prefixes.old rank)) }
    ensures totals { Holds totals.new k (λ rank. total M.join M.unit totals.old) }
    ensures values { All M.is_value prefixes.new }
{
    for round in 0..k {
        scan_round(prefixes, totals, distance(round));
    }
}

// Stores the unit at every place.
fn put_units<M: Monoid>(items: &mut [M])
    requires values { All M.is_value items.old }
    ensures units { (rank : ℕ) → item_at M.unit items.new rank ≡ M.unit }
    ensures values { All M.is_value items.new }
{
    for rank in 0..items.len() {
        items[rank] = M::unit();
    }
}
