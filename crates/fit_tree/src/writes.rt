//! Writes of rooms. A process may be ended between any two of them. Then the taken nodes with none
//! taken above them are those before the call, or those after it.

ghost use Rattle.std.specs.Prelude.{◌≡◌, ◌≢◌, ℕ, ◌+◌, ◌-◌, ◌*◌, ◌^◌, ◌<◌, ◌≤◌, ◌↔◌, ◌⊎◌, length, slice_set};
ghost use Rattle.fit_tree.specs.Rooms.{IsNode, IsSound, room_of};
ghost use Rattle.fit_tree.specs.Image.{AreCounted};
ghost use Rattle.fit_tree.specs.InnerNodes.{CanSet};

use crate::counts::{write_own, write_room};
use crate::head::COUNT_PLACES;
use crate::walks::mend;
use cube_shape::MAX_BITMAP_DIM;
use std::sync::atomic::{Ordering, compiler_fence};

/// Sets the room of a node whose block is taken or released as one block, and then mends those
/// above it.
pub(crate) fn set_room(
    counts: &mut [u32; COUNT_PLACES],
    rooms: &mut [u8],
    n: u32,
    k: u32,
    node: usize,
    room: u8,
)
    requires machine { n ≤ MAX_BITMAP_DIM }
    requires rooms { length rooms.old ≡ 2 ^ (n + 1) }
    requires node { IsNode n k node }
    requires room { (room ≡ 0) ⊎ (room ≡ k + 2) }
    ensures len { length rooms.new ≡ length rooms.old }
    ensures no_node { room_of rooms.new 0 ≡ room_of rooms.old 0 }
    ensures counted { CanSet n k rooms.old node
        → AreCounted n counts.old rooms.old → AreCounted n counts.new rooms.new }
    ensures sound { CanSet n k rooms.old node → IsSound n rooms.new }
    ensures others { CanSet n k rooms.old node → (u : ℕ) → u ≢ node
        → (room_of rooms.new u ≡ 0) ↔ (room_of rooms.old u ≡ 0) }
    ensures own { CanSet n k rooms.old node → (room_of rooms.new node ≡ 0) ↔ (room ≡ 0) }
{
    write_own(counts, rooms, n, k, node, room);
    compiler_fence(Ordering::SeqCst);
    mend(counts, rooms, n, k, node);
}

/// Takes the two children of a node that was taken, and then releases the node. The children have
/// dimension `dim`. No room above the node changes.
pub(crate) fn split_node(
    counts: &mut [u32; COUNT_PLACES],
    rooms: &mut [u8],
    n: u32,
    dim: u32,
    node: usize,
)
    requires machine { n ≤ MAX_BITMAP_DIM }
    requires rooms { length rooms.old ≡ 2 ^ (n + 1) }
    requires node { IsNode n (dim + 1) node }
    ensures written { rooms.new ≡ slice_set (slice_set (slice_set rooms.old
        (2 * node) 0) (2 * node + 1) 0) node 1 }
    ensures counted { AreCounted n counts.old rooms.old → AreCounted n counts.new rooms.new }
{
    write_room(counts, rooms, n, dim, 2 * node, 0);
    write_room(counts, rooms, n, dim, 2 * node + 1, 0);
    compiler_fence(Ordering::SeqCst);
    write_room(counts, rooms, n, dim + 1, node, 1);
}

/// Takes a node of which both children were taken, and then makes these as if free. They have
/// dimension `dim`. No room above the node changes.
pub(crate) fn join_node(
    counts: &mut [u32; COUNT_PLACES],
    rooms: &mut [u8],
    n: u32,
    dim: u32,
    node: usize,
)
    requires machine { n ≤ MAX_BITMAP_DIM }
    requires rooms { length rooms.old ≡ 2 ^ (n + 1) }
    requires node { IsNode n (dim + 1) node }
    ensures written { rooms.new ≡ slice_set (slice_set (slice_set rooms.old node 0)
        (2 * node) (dim + 2)) (2 * node + 1) (dim + 2) }
    ensures counted { AreCounted n counts.old rooms.old → AreCounted n counts.new rooms.new }
{
    write_room(counts, rooms, n, dim + 1, node, 0);
    compiler_fence(Ordering::SeqCst);
    write_room(counts, rooms, n, dim, 2 * node, dim as u8 + 2);
    write_room(counts, rooms, n, dim, 2 * node + 1, dim as u8 + 2);
}

// Sets the rooms from `start` on and below `end`.
#[tactic(auto, using(std::proofs::lemmas::List::get_or_past))]
fn fill(rooms: &mut [u8], start: usize, end: usize, room: u8)
    requires order { start ≤ end }
    requires end { end ≤ length rooms.old }
    ensures len { length rooms.new ≡ length rooms.old }
    ensures inside { (v : ℕ) → start ≤ v → v < end → room_of rooms.new v ≡ room }
    ensures outside { (v : ℕ) → (v < start) ⊎ (end ≤ v)
        → room_of rooms.new v ≡ room_of rooms.old v }
{
    rooms[start..end].fill(room);
}

// Makes all nodes of a level wholly free.
fn fill_level(rooms: &mut [u8], n: u32, depth: u32)
    requires machine { n ≤ MAX_BITMAP_DIM }
    requires rooms { length rooms.old ≡ 2 ^ (n + 1) }
    requires depth { depth ≤ n }
    ensures len { length rooms.new ≡ length rooms.old }
    ensures inside { (v : ℕ) → 2 ^ depth ≤ v → v < 2 * 2 ^ depth
        → room_of rooms.new v ≡ n - depth + 2 }
    ensures outside { (v : ℕ) → (v < 2 ^ depth) ⊎ (2 * 2 ^ depth ≤ v)
        → room_of rooms.new v ≡ room_of rooms.old v }
{
    let first = 1 << depth;
    fill(rooms, first, 2 * first, (n - depth) as u8 + 2);
}

/// Makes all nodes wholly free.
pub(crate) fn clear_all(rooms: &mut [u8], n: u32)
    requires machine { n ≤ MAX_BITMAP_DIM }
    requires rooms { length rooms.old ≡ 2 ^ (n + 1) }
    ensures len { length rooms.new ≡ length rooms.old }
    ensures no_node { room_of rooms.new 0 ≡ 0 }
    ensures whole { (d v : ℕ) → IsNode n d v → room_of rooms.new v ≡ d + 2 }
{
    rooms[0] = 0;
    for depth in 0..n + 1 {
        fill_level(rooms, n, depth);
    }
}
