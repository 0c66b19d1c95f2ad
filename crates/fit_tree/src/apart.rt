//! The first open node apart from one that is to be avoided.

ghost use Rattle.std.specs.Prelude.{◌≡◌, ℕ, ◌+◌, ◌/◌, ◌^◌, ◌<◌, ◌≤◌, ◌⊎◌, length, IfSome, IfNone};
ghost use Rattle.cube_shape.specs.Node.{OnPath};
ghost use Rattle.fit_tree.specs.Rooms.{IsNode, IsSound, room_of};
ghost use Rattle.fit_tree.specs.InnerNodes.{IsOpen};
ghost use Rattle.fit_tree.specs.InnerApart.{AreUnrelated, IsFound, IsMost, IsPlaced};

use crate::walks::go_down;
use cube_shape::MAX_BITMAP_DIM;

// A node in which the search goes down.
#[derive(Clone, Copy)]
pub(crate) struct Start {
    node: usize,
    dim: u32,
}

/// Returns the first open node of dimension `k` that is neither above nor below another node, which
/// has dimension `dim`.
pub(crate) fn find_apart(rooms: &[u8], n: u32, k: u32, dim: u32, avoid: usize) -> Option<usize>
    requires machine { n ≤ MAX_BITMAP_DIM }
    requires rooms { length rooms.now ≡ 2 ^ (n + 1) }
    requires node { IsNode n dim avoid }
    ensures node { IfSome result (λ v. IsNode n k v) }
    ensures open { IfSome result (λ v. IsSound n rooms.now → IsOpen n rooms.now v) }
    ensures apart { IfSome result (λ v. IsSound n rooms.now → AreUnrelated avoid v) }
    ensures before { IfSome result (λ v. IsSound n rooms.now → (w : ℕ) → IsNode n k w
        → AreUnrelated avoid w → w < v → IsOpen n rooms.now w → ⊥) }
    ensures none { IfNone result (IsSound n rooms.now → (w : ℕ) → IsNode n k w
        → AreUnrelated avoid w → IsOpen n rooms.now w → ⊥) }
{
    let mut found = None;
    let mut node = avoid;
    for level in dim..n {
        found = widen(rooms, n, k, level, node, found);
        node /= 2;
    }
    let Some(start) = found else {
        return None;
    };
    Some(go_down(rooms, n, k, start.dim, start.node))
}

// Goes from what was found in a node on the way up to what is found in its parent. The node has
// dimension `dim`.
fn widen(rooms: &[u8], n: u32, k: u32, dim: u32, node: usize, found: Option<Start>) -> Option<Start>
    requires machine { n ≤ MAX_BITMAP_DIM }
    requires rooms { length rooms.now ≡ 2 ^ (n + 1) }
    requires dim { dim < n }
    requires node { IsNode n dim node }
    requires placed { IsPlaced n k found }
    ensures placed { IsPlaced n k result }
    ensures found { IsSound n rooms.now → (avoid : ℕ) → OnPath node avoid
        → IsFound n k rooms.now avoid node found
        → IsFound n k rooms.now avoid (node / 2) result }
{
    if rooms[node / 2] == 0 {
        return None;
    }
    if node % 2 == 0 {
        if found.is_some() {
            return found;
        }
        return enter(rooms, k, dim, node + 1);
    }
    let Some(start) = enter(rooms, k, dim, node - 1) else {
        return found;
    };
    Some(start)
}

// Returns a node of dimension `dim` if it has room for dimension `k`.
fn enter(rooms: &[u8], k: u32, dim: u32, node: usize) -> Option<Start>
    requires dim { dim ≤ MAX_BITMAP_DIM }
    requires node { node < length rooms.now }
    ensures some { IfSome result (λ s. (s.node ≡ node) × (s.dim ≡ dim) × (k ≤ dim)
        × (k + 2 ≤ room_of rooms.now node)) }
    ensures none { IfNone result ((dim < k) ⊎ (room_of rooms.now node < k + 2)) }
{
    if k <= dim && k as u8 + 2 <= rooms[node] {
        return Some(Start { node, dim });
    }
    None
}

/// Returns the most room of nodes that are neither above nor below another one, which has dimension
/// `dim`, and are not below a taken node.
pub(crate) fn most_apart(rooms: &[u8], n: u32, dim: u32, avoid: usize) -> u8
    requires machine { n ≤ MAX_BITMAP_DIM }
    requires rooms { length rooms.now ≡ 2 ^ (n + 1) }
    requires node { IsNode n dim avoid }
    ensures { IsSound n rooms.now → IsMost n rooms.now avoid 1 result }
{
    let mut most = 0;
    let mut node = avoid;
    for level in dim..n {
        most = widen_most(rooms, n, level, node, most);
        node /= 2;
    }
    most
}

// Goes from the most room in a node on the way up to that in its parent. The node has dimension
// `dim`.
fn widen_most(rooms: &[u8], n: u32, dim: u32, node: usize, most: u8) -> u8
    requires machine { n ≤ MAX_BITMAP_DIM }
    requires rooms { length rooms.now ≡ 2 ^ (n + 1) }
    requires dim { dim < n }
    requires node { IsNode n dim node }
    ensures { IsSound n rooms.now → (avoid : ℕ) → OnPath node avoid
        → IsMost n rooms.now avoid node most → IsMost n rooms.now avoid (node / 2) result }
{
    if rooms[node / 2] == 0 {
        return 0;
    }
    most.max(rooms[node ^ 1])
}
