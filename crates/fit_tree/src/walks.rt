//! The way down to a free block, and the way up from a node whose room has changed.

ghost use Rattle.std.specs.Prelude.{◌≡◌, ◌≢◌, ℕ, ◌+◌, ◌-◌, ◌*◌, ◌/◌, ◌^◌, ◌<◌, ◌≤◌, ◌↔◌, length, List, IfSome, IfNone, IsTrue};
ghost use Rattle.cube_shape.specs.Node.{IsInCube, OnPath};
ghost use Rattle.fit_tree.specs.Rooms.{IsNode, IsSound, IsSoundBut, room_of};
ghost use Rattle.fit_tree.specs.Image.{AreCounted};
ghost use Rattle.fit_tree.specs.InnerNodes.{CanMend, HasNoTakenAbove, HasParts, HasRoom, IsFirstIn, IsOpen};

use crate::counts::{is_part, write_inner};
use crate::head::COUNT_PLACES;
use crate::rooms::{join, join_part};
use cube_shape::MAX_BITMAP_DIM;

/// Returns the first open node of dimension `k`.
pub(crate) fn find(rooms: &[u8], n: u32, k: u32) -> Option<usize>
    requires machine { n ≤ MAX_BITMAP_DIM }
    requires rooms { length rooms.now ≡ 2 ^ (n + 1) }
    requires dim { k ≤ n }
    ensures node { IfSome result (λ v. IsNode n k v) }
    ensures first { IfSome result (λ v. IsSound n rooms.now → IsFirstIn n k rooms.now 1 v) }
    ensures none { IfNone result (IsSound n rooms.now → (w : ℕ) → IsNode n k w
        → IsOpen n rooms.now w → ⊥) }
{
    if rooms[1] < k as u8 + 2 {
        return None;
    }
    Some(go_down(rooms, n, k, n, 1))
}

/// Returns the first open node of dimension `k` in a node of dimension `top` that has room for it.
pub(crate) fn go_down(rooms: &[u8], n: u32, k: u32, top: u32, start: usize) -> usize
    requires machine { n ≤ MAX_BITMAP_DIM }
    requires rooms { length rooms.now ≡ 2 ^ (n + 1) }
    requires dim { k ≤ top }
    requires node { IsNode n top start }
    ensures node { IsNode n k result }
    ensures below { OnPath start result }
    ensures first { HasRoom n k rooms.now start → IsFirstIn n k rooms.now start result }
{
    let least = k as u8 + 2;
    let mut node = start;
    for _ in k..top {
        node = 2 * node;
        if rooms[node] < least {
            node += 1;
        }
    }
    node
}

// Returns whether no node above this one was taken as one block.
fn is_reached(rooms: &[u8], n: u32, start: usize) -> bool
    requires rooms { length rooms.now ≡ 2 ^ (n + 1) }
    requires node { IsInCube n start }
    ensures { IsTrue result ↔ HasNoTakenAbove rooms.now start }
{
    let mut node = start / 2;
    while node > 0 {
        if rooms[node] == 0 {
            return false;
        }
        node /= 2;
    }
    true
}

/// Returns whether a node of dimension `k` is open.
pub(crate) fn is_open(rooms: &[u8], n: u32, k: u32, node: usize) -> bool
    requires machine { n ≤ MAX_BITMAP_DIM }
    requires rooms { length rooms.now ≡ 2 ^ (n + 1) }
    requires node { IsNode n k node }
    ensures open { IsSound n rooms.now → IsTrue result ↔ IsOpen n rooms.now node }
    ensures whole { IsTrue result → room_of rooms.now node ≡ k + 2 }
    ensures above { IsTrue result → HasNoTakenAbove rooms.now node }
{
    if rooms[node] != k as u8 + 2 {
        return false;
    }
    is_reached(rooms, n, node)
}

/// Makes the rooms above a node right again. Its own room has changed.
pub(crate) fn mend(counts: &mut [u32; COUNT_PLACES], rooms: &mut [u8], n: u32, k: u32, start: usize)
    requires machine { n ≤ MAX_BITMAP_DIM }
    requires rooms { length rooms.old ≡ 2 ^ (n + 1) }
    requires node { IsNode n k start }
    ensures len { length rooms.new ≡ length rooms.old }
    ensures no_node { room_of rooms.new 0 ≡ room_of rooms.old 0 }
    ensures counted { CanMend n rooms.old start
        → AreCounted n counts.old rooms.old → AreCounted n counts.new rooms.new }
    ensures sound { CanMend n rooms.old start → IsSound n rooms.new }
    ensures taken { CanMend n rooms.old start
        → (u : ℕ) → (room_of rooms.new u ≡ 0) ↔ (room_of rooms.old u ≡ 0) }
{
    let mut node = start;
    let mut own = rooms[start];
    for dim in k..n {
        let room = join(dim, own, rooms[node ^ 1]);
        node /= 2;
        let before = rooms[node];
        if before == room {
            return;
        }
        if is_part(dim + 1, before) && is_part(dim + 1, room) {
            rooms[node] = room;
            mend_parts(rooms, n, dim + 1, node);
            return;
        }
        write_inner(counts, rooms, n, dim + 1, node, room);
        own = room;
    }
}

// Makes the rooms above a node right again, where no count changes. The node's own room has
// changed, and neither it nor the one above it is wholly free or taken.
fn mend_parts(rooms: &mut [u8], n: u32, k: u32, start: usize)
    requires machine { n ≤ MAX_BITMAP_DIM }
    requires rooms { length rooms.old ≡ 2 ^ (n + 1) }
    requires node { IsNode n k start }
    ensures len { length rooms.new ≡ length rooms.old }
    ensures no_node { room_of rooms.new 0 ≡ room_of rooms.old 0 }
    ensures counted { HasParts n k rooms.old start → (counts : List ℕ)
        → AreCounted n counts rooms.old → AreCounted n counts rooms.new }
    ensures sound { HasParts n k rooms.old start → IsSound n rooms.new }
    ensures taken { HasParts n k rooms.old start
        → (u : ℕ) → (room_of rooms.new u ≡ 0) ↔ (room_of rooms.old u ≡ 0) }
{
    let mut node = start;
    let mut own = rooms[start];
    for _ in k..n {
        let room = join_part(own, rooms[node ^ 1]);
        node /= 2;
        if rooms[node] == room {
            return;
        }
        rooms[node] = room;
        own = room;
    }
}
