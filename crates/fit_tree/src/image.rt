//! Calls over an image: a head, and a room for each node of a machine of dimension `n`.
//!
//! Each call is safe whatever the bytes are. What it returns is right if they are an image
//! (`check`). A process may be ended in a call. Of the bytes that it leaves `repair` makes an image
//! with what was held before the call or after it.

ghost use Rattle.std.specs.Prelude.{◌≡◌, ℕ, ◌+◌, ◌-◌, ◌^◌, ◌<◌, ◌≤◌, ◌↔◌, length, List, false, Some, None, IfErr, IfSome, IfNone, IsTrue, OnOk, OnErr};
ghost use Rattle.cube_shape.specs.Region.{Covers, IsAligned, block};
ghost use Rattle.cube_shape.specs.Node.{IsNodeOf};
ghost use Rattle.cube_shape.specs.Falling.{IsHeld};
ghost use Rattle.cube_shape.specs.Machine.{Gives, HasNoFit, IsFirstFit, IsFree, TakesBack};
ghost use Rattle.cube_shape.specs.declared.region.Region.{Region as HeldRegion};
ghost use Rattle.alloc_bits.specs.Count.{IsCount};
ghost use Rattle.fit_tree.specs.declared.head.Head.{Head as ImageHead};
ghost use Rattle.fit_tree.specs.Fit.{HoldsBlock, held_in};
ghost use Rattle.fit_tree.specs.FirstApart.{HasNoneApart, IsFirstApart};
ghost use Rattle.fit_tree.specs.Halves.{HoldsHalves, Joins, Splits};
ghost use Rattle.fit_tree.specs.Parts.{HasFitIn, IsHalfOf};
ghost use Rattle.fit_tree.specs.Image.{IsImage, fit_in};
ghost use Rattle.fit_tree.specs.Topmost.{IsTopmost};

use crate::apart::{find_apart, most_apart};
pub use crate::checks::check;
use crate::counts::count_whole;
use crate::errors::{JoinError, SplitError};
use crate::head::{Head, IMAGE_MARK};
pub use crate::names::is_aligned;
use crate::names::{block_of, node_of};
pub use crate::repairs::repair;
use crate::walks;
use crate::writes::{clear_all, join_node, set_room, split_node};
use cube_shape::{MAX_BITMAP_DIM, Region};

/// Makes an image of a machine in which nothing is held, whatever the bytes were.
pub fn open(head: &mut Head, rooms: &mut [u8], n: u32)
    requires machine { n ≤ MAX_BITMAP_DIM }
    requires rooms { length rooms.old ≡ 2 ^ (n + 1) }
    ensures image { IsImage n head.new rooms.new }
    ensures len { length rooms.new ≡ length rooms.old }
    ensures free { (s : ℕ) → held_in (fit_in n rooms.new) s ≡ None }
{
    clear_all(rooms, n);
    count_whole(&mut head.maximal, n);
    head.dim = n;
    head.unused = 0;
    head.mark = IMAGE_MARK;
}

/// Takes the first fit of dimension `k`: block `(m, k)` for the least `m` such that it overlaps no
/// held block.
///
/// Returns `None` only if there is no such `m`; then nothing changes.
pub fn take(head: &mut Head, rooms: &mut [u8], n: u32, k: u32) -> Option<Region>
    requires machine { n ≤ MAX_BITMAP_DIM }
    requires rooms { length rooms.old ≡ 2 ^ (n + 1) }
    requires dim { k ≤ n }
    ensures image { IsImage n head.old rooms.old → IsImage n head.new rooms.new }
    ensures len { length rooms.new ≡ length rooms.old }
    ensures dim_stays { head.new.dim ≡ head.old.dim }
    ensures dim { IfSome result (λ r. r.dim ≡ k) }
    ensures aligned { IfSome result (λ r. IsAligned n r) }
    ensures first { IfSome result (λ r. IsImage n head.old rooms.old → (m : ℕ) × (r ≡ block k m)
        × IsFirstFit n k (held_in (fit_in n rooms.old)) m) }
    ensures given { IfSome result (λ r. IsImage n head.old rooms.old → Gives n r.base k
        (held_in (fit_in n rooms.old)) (held_in (fit_in n rooms.new)) r) }
    ensures none { IfNone result (IsImage n head.old rooms.old
        → HasNoFit n k (held_in (fit_in n rooms.old))) }
    ensures unchanged { IfNone result (rooms.new ≡ rooms.old) }
    ensures head_stays { IfNone result (head.new ≡ head.old) }
{
    let Some(node) = walks::find(rooms, n, k) else {
        return None;
    };
    set_room(&mut head.maximal, rooms, n, k, node, 0);
    Some(block_of(n, k, node))
}

/// Returns the first fit of dimension `k`, and takes nothing: block `(m, k)` for the least `m` such
/// that it overlaps no held block.
///
/// Returns `None` only if there is no such `m`.
pub fn first(rooms: &[u8], n: u32, k: u32) -> Option<Region>
    requires machine { n ≤ MAX_BITMAP_DIM }
    requires rooms { length rooms.now ≡ 2 ^ (n + 1) }
    requires dim { k ≤ n }
    ensures dim { IfSome result (λ r. r.dim ≡ k) }
    ensures aligned { IfSome result (λ r. IsAligned n r) }
    ensures first { IfSome result (λ r. (head : ImageHead) → IsImage n head rooms.now
        → (m : ℕ) × (r ≡ block k m) × IsFirstFit n k (held_in (fit_in n rooms.now)) m) }
    ensures none { IfNone result ((head : ImageHead) → IsImage n head rooms.now
        → HasNoFit n k (held_in (fit_in n rooms.now))) }
{
    let Some(node) = walks::find(rooms, n, k) else {
        return None;
    };
    Some(block_of(n, k, node))
}

/// Returns the first fit of dimension `k` apart from a block that is to be avoided, and takes
/// nothing. This is block `(m, k)` for the least `m` such that it overlaps neither this block nor a
/// held one.
///
/// Returns `None` only if there is no such `m`.
pub fn first_apart(rooms: &[u8], n: u32, k: u32, avoid: Region) -> Option<Region>
    requires machine { n ≤ MAX_BITMAP_DIM }
    requires rooms { length rooms.now ≡ 2 ^ (n + 1) }
    requires dim { k ≤ n }
    requires avoid { IsAligned n avoid }
    ensures dim { IfSome result (λ r. r.dim ≡ k) }
    ensures aligned { IfSome result (λ r. IsAligned n r) }
    ensures first { IfSome result (λ r. (head : ImageHead) → IsImage n head rooms.now
        → (m : ℕ) × (r ≡ block k m)
        × IsFirstApart n k (held_in (fit_in n rooms.now)) avoid m) }
    ensures none { IfNone result ((head : ImageHead) → IsImage n head rooms.now
        → HasNoneApart n k (held_in (fit_in n rooms.now)) avoid) }
{
    let Some(node) = find_apart(rooms, n, k, avoid.dim, node_of(n, avoid)) else {
        return None;
    };
    Some(block_of(n, k, node))
}

/// Returns the largest dimension of a free block apart from one that is to be avoided, or `None` if
/// there is none.
pub(crate) fn largest_apart(rooms: &[u8], n: u32, avoid: Region) -> Option<u32>
    requires machine { n ≤ MAX_BITMAP_DIM }
    requires rooms { length rooms.now ≡ 2 ^ (n + 1) }
    requires avoid { IsAligned n avoid }
    ensures dim { IfSome result (λ k. k ≤ n) }
    ensures fits { IfSome result (λ k. (head : ImageHead) → IsImage n head rooms.now
        → HasNoneApart n k (held_in (fit_in n rooms.now)) avoid → ⊥) }
    ensures larger { IfSome result (λ k. (head : ImageHead) → IsImage n head rooms.now
        → (j : ℕ) → k < j → j ≤ n → HasNoneApart n j (held_in (fit_in n rooms.now)) avoid) }
    ensures none { IfNone result ((head : ImageHead) → IsImage n head rooms.now
        → (k : ℕ) → k ≤ n → HasNoneApart n k (held_in (fit_in n rooms.now)) avoid) }
{
    let most = most_apart(rooms, n, avoid.dim, node_of(n, avoid));
    if most < 2 {
        return None;
    }
    Some((most as u32 - 2).min(n))
}

/// Takes a block.
///
/// Returns `false`, and changes nothing, only if it overlaps a held block.
pub fn take_at(head: &mut Head, rooms: &mut [u8], n: u32, region: Region) -> bool
    requires machine { n ≤ MAX_BITMAP_DIM }
    requires rooms { length rooms.old ≡ 2 ^ (n + 1) }
    requires region { IsAligned n region }
    ensures image { IsImage n head.old rooms.old → IsImage n head.new rooms.new }
    ensures len { length rooms.new ≡ length rooms.old }
    ensures dim_stays { head.new.dim ≡ head.old.dim }
    ensures free { IsImage n head.old rooms.old
        → IsTrue result ↔ IsFree (held_in (fit_in n rooms.old)) region }
    ensures given { IsTrue result → IsImage n head.old rooms.old
        → Gives n region.base region.dim
        (held_in (fit_in n rooms.old)) (held_in (fit_in n rooms.new)) region }
    ensures unchanged { result ≡ false → rooms.new ≡ rooms.old }
    ensures head_stays { result ≡ false → head.new ≡ head.old }
{
    let node = node_of(n, region);
    let free = walks::is_open(rooms, n, region.dim, node);
    if free {
        set_room(&mut head.maximal, rooms, n, region.dim, node, 0);
    }
    free
}

/// Releases a block.
///
/// Returns `false`, and changes nothing, only if it is not held as one block.
pub fn release(head: &mut Head, rooms: &mut [u8], n: u32, region: Region) -> bool
    requires machine { n ≤ MAX_BITMAP_DIM }
    requires rooms { length rooms.old ≡ 2 ^ (n + 1) }
    requires region { IsAligned n region }
    ensures image { IsImage n head.old rooms.old → IsImage n head.new rooms.new }
    ensures len { length rooms.new ≡ length rooms.old }
    ensures dim_stays { head.new.dim ≡ head.old.dim }
    ensures held { IsImage n head.old rooms.old
        → IsTrue result ↔ HoldsBlock (fit_in n rooms.old) region }
    ensures taken_back { IsTrue result → IsImage n head.old rooms.old → TakesBack region.base
        (held_in (fit_in n rooms.old)) (held_in (fit_in n rooms.new)) region }
    ensures unchanged { result ≡ false → rooms.new ≡ rooms.old }
    ensures head_stays { result ≡ false → head.new ≡ head.old }
{
    let node = node_of(n, region);
    let held = rooms[node] == 0;
    if held {
        set_room(
            &mut head.maximal,
            rooms,
            n,
            region.dim,
            node,
            region.dim as u8 + 2,
        );
    }
    held
}

/// Replaces a held block by its two halves, which are both held then.
///
/// Returns `OneProcessor` exactly if the block has one processor, and `NotHeld` only if it has more
/// and is not held as one block. Then nothing changes.
pub fn split(head: &mut Head, rooms: &mut [u8], n: u32, region: Region) -> Result<(), SplitError>
    requires machine { n ≤ MAX_BITMAP_DIM }
    requires rooms { length rooms.old ≡ 2 ^ (n + 1) }
    requires region { IsAligned n region }
    ensures image { IsImage n head.old rooms.old → IsImage n head.new rooms.new }
    ensures len { length rooms.new ≡ length rooms.old }
    ensures dim_stays { head.new.dim ≡ head.old.dim }
    ensures split { OnOk result (IsImage n head.old rooms.old → Splits
        (held_in (fit_in n rooms.old)) (held_in (fit_in n rooms.new)) region) }
    ensures not_held { IfErr result (λ error. error ≡ SplitError.NotHeld
        → IsImage n head.old rooms.old → HoldsBlock (fit_in n rooms.old) region → ⊥) }
    ensures one_processor { IfErr result (λ error.
        (error ≡ SplitError.OneProcessor) ↔ (region.dim ≡ 0)) }
    ensures more { OnOk result (0 < region.dim) }
    ensures unchanged { OnErr result (rooms.new ≡ rooms.old) }
    ensures head_stays { OnErr result (head.new ≡ head.old) }
{
    if region.dim == 0 {
        return Err(SplitError::OneProcessor);
    }
    let node = node_of(n, region);
    if rooms[node] != 0 {
        return Err(SplitError::NotHeld);
    }
    split_node(&mut head.maximal, rooms, n, region.dim - 1, node);
    Ok(())
}

/// Replaces the two halves of a block, which are both held, by the block.
///
/// Returns `OneProcessor` exactly if the block has one processor, and `NotHeld` only if it has more
/// and a half is not held as one block. Then nothing changes.
pub fn join(head: &mut Head, rooms: &mut [u8], n: u32, region: Region) -> Result<(), JoinError>
    requires machine { n ≤ MAX_BITMAP_DIM }
    requires rooms { length rooms.old ≡ 2 ^ (n + 1) }
    requires region { IsAligned n region }
    ensures image { IsImage n head.old rooms.old → IsImage n head.new rooms.new }
    ensures len { length rooms.new ≡ length rooms.old }
    ensures dim_stays { head.new.dim ≡ head.old.dim }
    ensures joined { OnOk result (IsImage n head.old rooms.old → Joins
        (held_in (fit_in n rooms.old)) (held_in (fit_in n rooms.new)) region) }
    ensures not_held { IfErr result (λ error. error ≡ JoinError.NotHeld
        → IsImage n head.old rooms.old → HoldsHalves (held_in (fit_in n rooms.old)) region → ⊥) }
    ensures one_processor { IfErr result (λ error.
        (error ≡ JoinError.OneProcessor) ↔ (region.dim ≡ 0)) }
    ensures more { OnOk result (0 < region.dim) }
    ensures unchanged { OnErr result (rooms.new ≡ rooms.old) }
    ensures head_stays { OnErr result (head.new ≡ head.old) }
{
    if region.dim == 0 {
        return Err(JoinError::OneProcessor);
    }
    let node = node_of(n, region);
    if rooms[2 * node] != 0 || rooms[2 * node + 1] != 0 {
        return Err(JoinError::NotHeld);
    }
    join_node(&mut head.maximal, rooms, n, region.dim - 1, node);
    Ok(())
}

/// Returns whether a block overlaps no held block.
pub fn is_free(rooms: &[u8], n: u32, region: Region) -> bool
    requires machine { n ≤ MAX_BITMAP_DIM }
    requires rooms { length rooms.now ≡ 2 ^ (n + 1) }
    requires region { IsAligned n region }
    ensures { (head : ImageHead) → IsImage n head rooms.now
        → IsTrue result ↔ IsFree (held_in (fit_in n rooms.now)) region }
{
    walks::is_open(rooms, n, region.dim, node_of(n, region))
}

/// Returns whether a half of a block has a free block of dimension `k`, if the block has one. The
/// half is that of a node.
pub(crate) fn has_fit_at(rooms: &[u8], n: u32, k: u32, node: usize) -> bool
    requires machine { n ≤ MAX_BITMAP_DIM }
    requires rooms { length rooms.now ≡ 2 ^ (n + 1) }
    requires node { node < 2 ^ (n + 1) }
    requires dim { k ≤ n }
    ensures { (head : ImageHead) (whole half : HeldRegion) → IsImage n head rooms.now
        → IsNodeOf n node half → k ≤ half.dim → IsAligned n whole → IsHalfOf whole half
        → HasFitIn n k (held_in (fit_in n rooms.now)) whole
        → IsTrue result ↔ HasFitIn n k (held_in (fit_in n rooms.now)) half }
{
    if rooms[node] < k as u8 + 2 {
        return false;
    }
    true
}

/// Returns whether a block is held as one block.
pub fn is_held(rooms: &[u8], n: u32, region: Region) -> bool
    requires machine { n ≤ MAX_BITMAP_DIM }
    requires rooms { length rooms.now ≡ 2 ^ (n + 1) }
    requires region { IsAligned n region }
    ensures { (head : ImageHead) → IsImage n head rooms.now
        → IsTrue result ↔ HoldsBlock (fit_in n rooms.now) region }
{
    rooms[node_of(n, region)] == 0
}

/// Returns the held block that has a processor, if there is one.
pub fn block_with(rooms: &[u8], n: u32, processor: u64) -> Option<Region>
    requires machine { n ≤ MAX_BITMAP_DIM }
    requires rooms { length rooms.now ≡ 2 ^ (n + 1) }
    requires processor { processor < 2 ^ n }
    ensures aligned { IfSome result (λ r. IsAligned n r) }
    ensures covers { IfSome result (λ r. Covers r processor) }
    ensures held { IfSome result (λ r. (head : ImageHead) → IsImage n head rooms.now
        → HoldsBlock (fit_in n rooms.now) r) }
    ensures free { IfNone result ((head : ImageHead) → IsImage n head rooms.now
        → (s : ℕ) (a : HeldRegion) → held_in (fit_in n rooms.now) s ≡ Some a
        → Covers a processor → ⊥) }
{
    let mut node = (1 << n) + processor as usize;
    for dim in 0..n + 1 {
        if rooms[node] == 0 {
            return Some(block_of(n, dim, node));
        }
        node /= 2;
    }
    None
}

/// Returns the largest dimension of a block that overlaps no held block, or `None` if all
/// processors are held.
pub fn largest_free(rooms: &[u8], n: u32) -> Option<u32>
    requires machine { n ≤ MAX_BITMAP_DIM }
    requires rooms { length rooms.now ≡ 2 ^ (n + 1) }
    ensures dim { IfSome result (λ k. k ≤ n) }
    ensures fits { IfSome result (λ k. (head : ImageHead) → IsImage n head rooms.now
        → HasNoFit n k (held_in (fit_in n rooms.now)) → ⊥) }
    ensures larger { IfSome result (λ k. (head : ImageHead) → IsImage n head rooms.now
        → (j : ℕ) → k < j → j ≤ n → HasNoFit n j (held_in (fit_in n rooms.now))) }
    ensures none { IfNone result ((head : ImageHead) → IsImage n head rooms.now
        → (k : ℕ) → k ≤ n → HasNoFit n k (held_in (fit_in n rooms.now))) }
{
    if rooms[1] < 2 {
        return None;
    }
    let room = (rooms[1] as u32).min(n + 2);
    Some(room - 2)
}

/// Returns the number of free blocks of dimension `k`, those within larger free blocks too.
pub fn free_blocks(head: &Head, n: u32, k: u32) -> u32
    requires machine { n ≤ MAX_BITMAP_DIM }
    requires dim { k ≤ n }
    ensures { (rooms : List ℕ) → IsImage n head.now rooms
        → IsCount (λ m. IsFree (held_in (fit_in n rooms)) (block k m)) (2 ^ (n - k)) result }
{
    let mut count = 0u32;
    for above in 0..n - k + 1 {
        let maximal = head.maximal[(n - above) as usize];
        count = count.wrapping_add(count).wrapping_add(maximal);
    }
    count
}

/// Returns the number of processors in held blocks.
pub fn held_processors(head: &Head, n: u32) -> u32
    requires { n ≤ MAX_BITMAP_DIM }
    ensures { (rooms : List ℕ) → IsImage n head.now rooms
        → IsCount (IsHeld (held_in (fit_in n rooms))) (2 ^ n) result }
{
    (1u32 << n).wrapping_sub(free_blocks(head, n, 0))
}
