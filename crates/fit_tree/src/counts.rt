//! The counts of maximal free blocks, and writes of a room that keep them right.

ghost use Rattle.std.specs.Prelude.{◌≡◌, ◌≢◌, ℕ, ◌+◌, ◌-◌, ◌*◌, ◌^◌, ◌<◌, ◌≤◌, ◌↔◌, ◌⊎◌, length, slice_index, slice_set, IsTrue};
ghost use Rattle.alloc_bits.specs.Count.{IsCount};
ghost use Rattle.fit_tree.specs.Rooms.{room_of, IsNode};
ghost use Rattle.fit_tree.specs.Image.{AreCounted, IsMaximal};
ghost use Rattle.fit_tree.specs.InnerNodes.{IsEnd, IsTopped, Weighs};

use crate::head::COUNT_PLACES;
use cube_shape::MAX_BITMAP_DIM;

// Returns whether a node is a maximal free block if it is wholly free.
fn is_topped(rooms: &[u8], dim: u32, node: usize) -> bool
    requires dim { dim ≤ MAX_BITMAP_DIM }
    requires node { node < length rooms.now }
    ensures { IsTrue result ↔ IsTopped rooms.now dim node }
{
    if node == 1 {
        return true;
    }
    let above = rooms[node / 2];
    above != 0 && above != dim as u8 + 3
}

// Returns 1 if a node is wholly free and a maximal block then, else 0.
fn weight_of(dim: u32, room: u8, is_topped: bool) -> u32
    requires dim { dim ≤ MAX_BITMAP_DIM }
    ensures weight { Weighs ((room ≡ dim + 2) × IsTrue is_topped) result }
    ensures small { result ≤ 1 }
{
    if is_topped && room == dim as u8 + 2 {
        1
    } else {
        0
    }
}

// Returns 1 if a node is a maximal free block, else 0.
fn weigh(rooms: &[u8], dim: u32, node: usize) -> u32
    requires dim { dim ≤ MAX_BITMAP_DIM }
    requires node { node < length rooms.now }
    ensures weight { Weighs (IsMaximal rooms.now dim node) result }
    ensures small { result ≤ 1 }
{
    let is_topped = is_topped(rooms, dim, node);
    weight_of(dim, rooms[node], is_topped)
}

// Returns 1 if a node is wholly free, else 0.
fn weigh_whole(rooms: &[u8], dim: u32, node: usize) -> u32
    requires dim { dim ≤ MAX_BITMAP_DIM }
    requires node { node < length rooms.now }
    ensures weight { Weighs (room_of rooms.now node ≡ dim + 2) result }
    ensures small { result ≤ 1 }
{
    if rooms[node] == dim as u8 + 2 { 1 } else { 0 }
}

// Returns the number of children of a node that are wholly free.
fn whole_children(rooms: &[u8], dim: u32, node: usize) -> u32
    requires dim { dim ≤ MAX_BITMAP_DIM }
    requires node { 2 * node + 1 < length rooms.now }
    ensures weight { (left : ℕ) × (right : ℕ) × (result ≡ left + right)
        × Weighs (room_of rooms.now (2 * node) ≡ dim + 2) left
        × Weighs (room_of rooms.now (2 * node + 1) ≡ dim + 2) right }
    ensures small { result ≤ 2 }
{
    weigh_whole(rooms, dim, 2 * node) + weigh_whole(rooms, dim, 2 * node + 1)
}

// Returns the number of children of a node that are maximal free blocks, if this is its room.
// `whole` of its children are wholly free.
fn maximal_children(dim: u32, room: u8, whole: u32) -> u32
    requires dim { dim ≤ MAX_BITMAP_DIM }
    ensures part { room ≢ 0 → room ≢ dim + 2 → result ≡ whole }
    ensures shut { (room ≡ 0) ⊎ (room ≡ dim + 2) → result ≡ 0 }
    ensures small { result ≤ whole }
{
    if is_part(dim, room) { whole } else { 0 }
}

// Changes the count of a dimension.
fn change(counts: &mut [u32; COUNT_PLACES], dim: u32, less: u32, more: u32)
    requires dim { dim ≤ MAX_BITMAP_DIM }
    ensures own { less ≤ slice_index counts.old dim
        → slice_index counts.old dim + more < 2 ^ 32
        → slice_index counts.new dim + less ≡ slice_index counts.old dim + more }
    ensures others { (d : ℕ) → d ≢ dim → slice_index counts.new d ≡ slice_index counts.old d }
{
    let place = &mut counts[dim as usize];
    *place = place.wrapping_sub(less).wrapping_add(more);
}

/// Returns whether a room says that a node is neither taken nor wholly free.
pub(crate) fn is_part(dim: u32, room: u8) -> bool
    requires { dim ≤ MAX_BITMAP_DIM }
    ensures { IsTrue result ↔ ((room ≢ 0) × (room ≢ dim + 2)) }
{
    room != 0 && room != dim as u8 + 2
}

/// Writes the room of a node of dimension `dim`, and keeps the counts.
pub(crate) fn write_room(
    counts: &mut [u32; COUNT_PLACES],
    rooms: &mut [u8],
    n: u32,
    dim: u32,
    node: usize,
    room: u8,
)
    requires machine { n ≤ MAX_BITMAP_DIM }
    requires rooms { length rooms.old ≡ 2 ^ (n + 1) }
    requires node { IsNode n dim node }
    ensures written { rooms.new ≡ slice_set rooms.old node room }
    ensures counted { AreCounted n counts.old rooms.old → AreCounted n counts.new rooms.new }
{
    if dim == 0 {
        write_own(counts, rooms, n, dim, node, room);
        return;
    }
    write_inner(counts, rooms, n, dim, node, room);
}

/// Writes the room of a node of dimension `dim`, and keeps the count of this dimension. The others
/// stay right if the node has no children, or is taken or wholly free both before and after.
pub(crate) fn write_own(
    counts: &mut [u32; COUNT_PLACES],
    rooms: &mut [u8],
    n: u32,
    dim: u32,
    node: usize,
    room: u8,
)
    requires machine { n ≤ MAX_BITMAP_DIM }
    requires rooms { length rooms.old ≡ 2 ^ (n + 1) }
    requires node { IsNode n dim node }
    ensures written { rooms.new ≡ slice_set rooms.old node room }
    ensures counted { (dim ≡ 0) ⊎ (IsEnd dim (room_of rooms.old node) × IsEnd dim room)
        → AreCounted n counts.old rooms.old → AreCounted n counts.new rooms.new }
{
    let is_topped = is_topped(rooms, dim, node);
    let less = weight_of(dim, rooms[node], is_topped);
    let more = weight_of(dim, room, is_topped);
    rooms[node] = room;
    change(counts, dim, less, more);
}

/// Writes the room of a node that has children, and keeps the counts.
pub(crate) fn write_inner(
    counts: &mut [u32; COUNT_PLACES],
    rooms: &mut [u8],
    n: u32,
    dim: u32,
    node: usize,
    room: u8,
)
    requires machine { n ≤ MAX_BITMAP_DIM }
    requires rooms { length rooms.old ≡ 2 ^ (n + 1) }
    requires dim { 0 < dim }
    requires node { IsNode n dim node }
    ensures written { rooms.new ≡ slice_set rooms.old node room }
    ensures counted { AreCounted n counts.old rooms.old → AreCounted n counts.new rooms.new }
{
    let before = rooms[node];
    let is_topped = is_topped(rooms, dim, node);
    let less = weight_of(dim, before, is_topped);
    let more = weight_of(dim, room, is_topped);
    let whole = whole_children(rooms, dim - 1, node);
    let less_below = maximal_children(dim, before, whole);
    let more_below = maximal_children(dim, room, whole);
    rooms[node] = room;
    change(counts, dim, less, more);
    change(counts, dim - 1, less_below, more_below);
}

// Counts the maximal free blocks of a dimension.
pub(crate) fn count_level(rooms: &[u8], n: u32, dim: u32) -> u32
    requires machine { n ≤ MAX_BITMAP_DIM }
    requires rooms { length rooms.now ≡ 2 ^ (n + 1) }
    requires dim { dim ≤ n }
    ensures { IsCount (λ m. IsMaximal rooms.now dim (2 ^ (n - dim) + m)) (2 ^ (n - dim)) result }
{
    let first = 1usize << (n - dim);
    let mut count = 0;
    for node in first..2 * first {
        count += weigh(rooms, dim, node);
    }
    count
}

/// Counts the maximal free blocks of each dimension.
pub(crate) fn count_all(counts: &mut [u32; COUNT_PLACES], rooms: &[u8], n: u32)
    requires machine { n ≤ MAX_BITMAP_DIM }
    requires rooms { length rooms.now ≡ 2 ^ (n + 1) }
    ensures { AreCounted n counts.new rooms.now }
{
    clear_counts(counts);
    for dim in 0..n + 1 {
        counts[dim as usize] = count_level(rooms, n, dim);
    }
}

/// Counts the one maximal free block of a machine of dimension `n` in which nothing is held.
pub(crate) fn count_whole(counts: &mut [u32; COUNT_PLACES], n: u32)
    requires { n ≤ MAX_BITMAP_DIM }
    ensures own { slice_index counts.new n ≡ 1 }
    ensures others { (d : ℕ) → d ≢ n → slice_index counts.new d ≡ 0 }
{
    clear_counts(counts);
    counts[n as usize] = 1;
}

// Sets all counts to 0.
fn clear_counts(counts: &mut [u32; COUNT_PLACES])
    ensures { (d : ℕ) → slice_index counts.new d ≡ 0 }
{
    *counts = [0; COUNT_PLACES];
}
