//! An image made of any bytes.

ghost use Rattle.std.specs.Prelude.{◌≡◌, ◌≢◌, ℕ, ◌+◌, ◌-◌, ◌*◌, ◌/◌, ◌^◌, ◌<◌, ◌≤◌, ◌↔◌, ◌⊎◌, length};
ghost use Rattle.cube_shape.specs.declared.region.Region.{Region as HeldRegion};
ghost use Rattle.cube_shape.specs.Node.{IsInCube};
ghost use Rattle.fit_tree.specs.Rooms.{IsJoin, IsNode, room_of};
ghost use Rattle.fit_tree.specs.Fit.{HoldsBlock};
ghost use Rattle.fit_tree.specs.Image.{IsImage, fit_in};
ghost use Rattle.fit_tree.specs.Topmost.{IsTopmost};
ghost use Rattle.fit_tree.specs.InnerNodes.{HasNoTakenAbove};
ghost use Rattle.fit_tree.specs.InnerRepair.{IsFilled, IsSorted};

use crate::counts::count_all;
use crate::head::{Head, IMAGE_MARK};
use crate::rooms::join;
use cube_shape::MAX_BITMAP_DIM;

// Returns the room of a node of dimension `dim` for the second pass. It says whether the node is
// taken with none taken above it, or as if free below a taken one. `above` is the new room of its
// parent.
fn sort_room(dim: u32, above: u8, room: u8) -> u8
    requires { dim ≤ MAX_BITMAP_DIM }
    ensures below { (above ≡ 0) ⊎ (above ≡ dim + 3) → result ≡ dim + 2 }
    ensures taken { above ≢ 0 → above ≢ dim + 3 → room ≡ 0 → result ≡ 0 }
    ensures other { above ≢ 0 → above ≢ dim + 3 → room ≢ 0 → result ≡ 1 }
{
    if above == 0 || above == dim as u8 + 3 {
        return dim as u8 + 2;
    }
    if room == 0 {
        return 0;
    }
    1
}

// Returns the dimension of a node.
fn dim_of(n: u32, node: usize) -> u32
    requires { IsInCube n node }
    ensures { IsNode n result node }
{
    n - node.ilog2()
}

// Sorts all nodes, those above first.
fn sort_all(rooms: &mut [u8], n: u32)
    requires machine { n ≤ MAX_BITMAP_DIM }
    requires rooms { length rooms.old ≡ 2 ^ (n + 1) }
    ensures len { length rooms.new ≡ length rooms.old }
    ensures sorted { (d v : ℕ) → IsNode n d v → IsSorted rooms.old d v (room_of rooms.new v) }
{
    rooms[0] = 1;
    for node in 1..rooms.len() {
        rooms[node] = sort_room(dim_of(n, node), rooms[node / 2], rooms[node]);
    }
}

// Returns the room of a node of dimension `dim` from those of its children.
fn joined_room(rooms: &[u8], dim: u32, node: usize) -> u8
    requires dim { dim ≤ MAX_BITMAP_DIM }
    requires children { 0 < dim → 2 * node + 1 < length rooms.now }
    ensures leaf { dim ≡ 0 → result ≡ 2 }
    ensures inner { (d : ℕ) → dim ≡ d + 1
        → IsJoin d (room_of rooms.now (2 * node)) (room_of rooms.now (2 * node + 1)) result }
{
    if dim == 0 {
        return 2;
    }
    join(dim - 1, rooms[2 * node], rooms[2 * node + 1])
}

// Fills the rooms that are 1, those below first.
fn fill_all(rooms: &mut [u8], n: u32)
    requires machine { n ≤ MAX_BITMAP_DIM }
    requires rooms { length rooms.old ≡ 2 ^ (n + 1) }
    ensures len { length rooms.new ≡ length rooms.old }
    ensures filled { (d v : ℕ) → IsNode n d v → IsFilled rooms.old rooms.new d v }
{
    let mut node = rooms.len() - 1;
    while node > 0 {
        if rooms[node] == 1 {
            rooms[node] = joined_room(rooms, dim_of(n, node), node);
        }
        node -= 1;
    }
}

/// Makes an image of a machine of dimension `n`, whatever the bytes were. A block is held then
/// exactly if its room was 0, and that of no block which contains it. An image keeps what it holds.
pub fn repair(head: &mut Head, rooms: &mut [u8], n: u32)
    requires machine { n ≤ MAX_BITMAP_DIM }
    requires rooms { length rooms.old ≡ 2 ^ (n + 1) }
    ensures image { IsImage n head.new rooms.new }
    ensures len { length rooms.new ≡ length rooms.old }
    ensures held { (r : HeldRegion) → HoldsBlock (fit_in n rooms.new) r ↔ IsTopmost n rooms.old r }
    ensures kept { IsImage n head.old rooms.old → (r : HeldRegion)
        → HoldsBlock (fit_in n rooms.new) r ↔ HoldsBlock (fit_in n rooms.old) r }
{
    sort_all(rooms, n);
    fill_all(rooms, n);
    rooms[0] = 0;
    count_all(&mut head.maximal, rooms, n);
    head.dim = n;
    head.unused = 0;
    head.mark = IMAGE_MARK;
}
