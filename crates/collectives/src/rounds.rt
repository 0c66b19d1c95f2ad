//! One round of each collective, over the pairs of ranks that are `half` apart.

ghost use Rattle.std.specs.Prelude.{◌≡◌, ℕ, ◌+◌, ◌*◌, ◌%◌, ◌^◌, ◌<◌, ◌≤◌, length, All, slice_get, slice_set, ◌≢◌, bit_xor, if◌then◌else◌};
ghost use Rattle.collectives.specs.Inner.Rounds.{Doubles, TurnsPairs, TurnsPairsIn, reduced_high, reduced_low, item_at};

use crate::monoid::Monoid;
use crate::shape::DIM_LIMIT;

// Returns how far apart the two ranks of a pair are in a round.
pub(crate) fn distance(round: u32) -> usize
    requires { round < DIM_LIMIT }
    ensures { result ≡ 2 ^ round }
{
    1 << round
}

// Stores the two joined items of each pair at both of its ranks. The lower rank's item is on the
// left.
pub(crate) fn all_reduce_round<M: Monoid>(items: &mut [M], half: usize)
    requires half { 0 < half }
    requires block { 2 * half ≤ length items.old }
    requires whole { length items.old % (2 * half) ≡ 0 }
    requires values { All M.is_value items.old }
    ensures joined { TurnsPairs M.unit half (λ low. M.join) (λ low. M.join) items.old items.new }
    ensures values { All M.is_value items.new }
{
    if half == 1 {
        all_reduce_blocks(items, 1);
    } else if half == 2 {
        all_reduce_blocks(items, 2);
    } else if half == 4 {
        all_reduce_blocks(items, 4);
    } else {
        all_reduce_blocks(items, half);
    }
}

// Makes a round of the all-reduce, block by block. Each short distance is a constant where this is
// inlined, so the loop over the pairs of a block is unrolled.
#[inline(always)]
fn all_reduce_blocks<M: Monoid>(items: &mut [M], half: usize)
    requires half { 0 < half }
    requires block { 2 * half ≤ length items.old }
    requires whole { length items.old % (2 * half) ≡ 0 }
    requires values { All M.is_value items.old }
    ensures joined { TurnsPairs M.unit half (λ low. M.join) (λ low. M.join) items.old items.new }
    ensures values { All M.is_value items.new }
{
    for block in 0..items.len() / (2 * half) {
        all_reduce_block(items, block * (2 * half), half);
    }
}

// Makes a round of the all-reduce on the pairs of the block that begins at `start`.
fn all_reduce_block<M: Monoid>(items: &mut [M], start: usize, half: usize)
    requires half { 0 < half }
    requires start { start % (2 * half) ≡ 0 }
    requires within { start + 2 * half ≤ length items.old }
    requires values { All M.is_value items.old }
    ensures joined { TurnsPairsIn M.unit half start (start + 2 * half)
        (λ low. M.join) (λ low. M.join) items.old items.new }
    ensures values { All M.is_value items.new }
{
    for low in start..start + half {
        all_reduce_pair(items, low, low + half);
    }
}

// Stores the two joined items at both ranks. The item of `low` is on the left.
fn all_reduce_pair<M: Monoid>(items: &mut [M], low: usize, high: usize)
    requires low { low < length items.old }
    requires high { high < length items.old }
    requires values { All M.is_value items.old }
    ensures joined { let both =
        M.join (item_at M.unit items.old low) (item_at M.unit items.old high) in
        items.new ≡ slice_set (slice_set items.old low both) high both }
    ensures values { All M.is_value items.new }
{
    let joined = items[low].join(items[high]);
    items[low] = joined;
    items[high] = joined;
}

// Puts the total of each pair's lower rank before the prefix of its higher rank. Then joins the two
// totals of each pair in the order of the ranks, and stores the result at both ranks.
pub(crate) fn scan_round<M: Monoid>(prefixes: &mut [M], totals: &mut [M], half: usize)
    requires half { 0 < half }
    requires block { 2 * half ≤ length prefixes.old }
    requires whole { length prefixes.old % (2 * half) ≡ 0 }
    requires places { length totals.old ≡ length prefixes.old }
    requires values { All M.is_value prefixes.old }
    requires total_values { All M.is_value totals.old }
    ensures prepended { TurnsPairs M.unit half (λ low a b. a)
        (λ low a b. M.join (item_at M.unit totals.old low) b) prefixes.old prefixes.new }
    ensures joined { TurnsPairs M.unit half (λ low. M.join) (λ low. M.join) totals.old totals.new }
    ensures values { All M.is_value prefixes.new }
    ensures total_values { All M.is_value totals.new }
{
    if half == 1 {
        scan_blocks(prefixes, totals, 1);
    } else if half == 2 {
        scan_blocks(prefixes, totals, 2);
    } else if half == 4 {
        scan_blocks(prefixes, totals, 4);
    } else {
        scan_blocks(prefixes, totals, half);
    }
}

// Makes a round of the scan, block by block, inlined for each short distance.
#[inline(always)]
fn scan_blocks<M: Monoid>(prefixes: &mut [M], totals: &mut [M], half: usize)
    requires half { 0 < half }
    requires block { 2 * half ≤ length prefixes.old }
    requires whole { length prefixes.old % (2 * half) ≡ 0 }
    requires places { length totals.old ≡ length prefixes.old }
    requires values { All M.is_value prefixes.old }
    requires total_values { All M.is_value totals.old }
    ensures prepended { TurnsPairs M.unit half (λ low a b. a)
        (λ low a b. M.join (item_at M.unit totals.old low) b) prefixes.old prefixes.new }
    ensures joined { TurnsPairs M.unit half (λ low. M.join) (λ low. M.join) totals.old totals.new }
    ensures values { All M.is_value prefixes.new }
    ensures total_values { All M.is_value totals.new }
{
    for block in 0..prefixes.len() / (2 * half) {
        scan_block(prefixes, totals, block * (2 * half), half);
    }
}

// Makes a round of the scan on the pairs of the block that begins at `start`.
fn scan_block<M: Monoid>(prefixes: &mut [M], totals: &mut [M], start: usize, half: usize)
    requires half { 0 < half }
    requires start { start % (2 * half) ≡ 0 }
    requires within { start + 2 * half ≤ length prefixes.old }
    requires places { length totals.old ≡ length prefixes.old }
    requires values { All M.is_value prefixes.old }
    requires total_values { All M.is_value totals.old }
    ensures prepended { TurnsPairsIn M.unit half start (start + 2 * half) (λ low a b. a)
        (λ low a b. M.join (item_at M.unit totals.old low) b) prefixes.old prefixes.new }
    ensures joined { TurnsPairsIn M.unit half start (start + 2 * half)
        (λ low. M.join) (λ low. M.join) totals.old totals.new }
    ensures values { All M.is_value prefixes.new }
    ensures total_values { All M.is_value totals.new }
{
    for low in start..start + half {
        prepend_total(prefixes, totals, low, low + half);
        all_reduce_pair(totals, low, low + half);
    }
}

// Puts the total of rank `low` before the prefix of rank `high`.
fn prepend_total<M: Monoid>(prefixes: &mut [M], totals: &[M], low: usize, high: usize)
    requires low { low < length totals.now }
    requires high { high < length prefixes.old }
    requires values { All M.is_value prefixes.old }
    requires total_values { All M.is_value totals.now }
    ensures prepended { prefixes.new ≡ slice_set prefixes.old high
        (M.join (item_at M.unit totals.now low) (item_at M.unit prefixes.old high)) }
    ensures values { All M.is_value prefixes.new }
{
    prefixes[high] = totals[low].join(prefixes[high]);
}

// Joins the two items of each pair that agrees with the root below the bit of the round. The rank
// that agrees in this bit too receives the result, and the other rank receives the unit.
pub(crate) fn reduce_round<M: Monoid>(items: &mut [M], root: usize, half: usize)
    requires half { 0 < half }
    requires block { 2 * half ≤ length items.old }
    requires whole { length items.old % (2 * half) ≡ 0 }
    requires values { All M.is_value items.old }
    ensures reduced { TurnsPairs M.unit half (reduced_low M.unit M.join root half)
        (reduced_high M.unit M.join root half) items.old items.new }
    ensures values { All M.is_value items.new }
{
    let offset = root % half;
    let to_low = root / half % 2 == 0;
    for start in (0..items.len()).step_by(2 * half) {
        let low = start + offset;
        reduce_pair(items, low, low + half, to_low);
    }
}

// Joins the items of two ranks, the lower one's on the left. Stores the result at one of the ranks,
// and the unit at the other.
fn reduce_pair<M: Monoid>(items: &mut [M], low: usize, high: usize, to_low: bool)
    requires low { low < length items.old }
    requires high { high < length items.old }
    requires values { All M.is_value items.old }
    ensures reduced { let both =
        M.join (item_at M.unit items.old low) (item_at M.unit items.old high) in
        let at_low = (if to_low then both else M.unit) in
        let at_high = (if to_low then M.unit else both) in
        items.new ≡ slice_set (slice_set items.old low at_low) high at_high }
    ensures values { All M.is_value items.new }
{
    let both = items[low].join(items[high]);
    if to_low {
        items[low] = both;
        items[high] = M::unit();
    } else {
        items[low] = M::unit();
        items[high] = both;
    }
}

// Copies the item of each of the first `half` ranks, as seen from the root, to the rank `half`
// after it.
pub(crate) fn broadcast_round<M: Copy>(items: &mut [M], root: usize, half: usize)
    requires half { 2 * half < 2 ^ 64 }
    requires places { (v : ℕ) → v < 2 * half → bit_xor v root < length items.old }
    ensures { Doubles root half items.old items.new }
{
    for v in 0..half {
        send(items, v ^ root, (v + half) ^ root);
    }
}

// Copies the item of rank `from` to rank `to`.
fn send<M: Copy>(items: &mut [M], from: usize, to: usize)
    requires from { from < length items.old }
    requires to { to < length items.old }
    ensures received { slice_get items.new to ≡ slice_get items.old from }
    ensures others { (rank : ℕ) → rank ≢ to → slice_get items.new rank ≡ slice_get items.old rank }
{
    items[to] = items[from];
}
