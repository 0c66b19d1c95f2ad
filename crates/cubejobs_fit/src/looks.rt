//! Questions about blocks. They change nothing.

ghost use Rattle.std.specs.Prelude.{◌≡◌, ◌≢◌, ℕ, ◌^◌, ◌<◌, ◌≤◌, ◌⊎◌, ◌↔◌, IsTrue};
ghost use Rattle.cube_shape.specs.Region.{Covers, IsAligned, block};
ghost use Rattle.cube_shape.specs.Machine.{HasNoFit, IsFirstFit, IsFree};
ghost use Rattle.cube_shape.specs.Falling.{IsFreeProcessor, IsHeld};
ghost use Rattle.fit_tree.specs.Fit.{HoldsBlock};
ghost use Rattle.fit_tree.specs.FirstApart.{HasNoneApart, IsFirstApart};
ghost use Rattle.fit_tree.specs.Image.{IsImage, fit_in};
ghost use Rattle.cubejobs_fit.specs.Answers.{HasOtherSize, HasSize, NamesNone, held_of, region_from, region_of};

use crate::answer::{Answer, done, refused};
use crate::codes::{BAD_BASE, BAD_DIMENSION, BAD_SIZE, DONE, NO_ROOM, NOTHING_HELD};
use crate::faults::{fault_of_block, fault_of_dim, fault_of_size};
use cube_shape::{MAX_BITMAP_DIM, Region};
use fit_tree::{Head, image};

/// Returns the first fit, which `cubejobs_image_take` would take: block `(m, k)` for the least `m`
/// such that it overlaps no held block.
///
/// The code is `DONE`, with the block, or the first of these that applies:
/// - `BAD_DIMENSION` if `n` is above `MAX_BITMAP_DIM`;
/// - `BAD_SIZE` if there are not `2^(n + 1)` rooms;
/// - `BAD_DIMENSION` if `k` is above `n`;
/// - `NO_ROOM`.
#[unsafe(no_mangle)]
pub extern "C" fn cubejobs_image_first(head: &Head, rooms: &[u8], n: u32, k: u32) -> Answer
    ensures bad_machine { MAX_BITMAP_DIM < n → result.code ≡ BAD_DIMENSION }
    ensures bad_size { HasOtherSize n rooms.now → result.code ≡ BAD_SIZE }
    ensures bad_dimension { HasSize n rooms.now → n < k → result.code ≡ BAD_DIMENSION }
    ensures no_room { IsImage n head.now rooms.now → k ≤ n → HasNoFit n k (held_of n rooms.now)
        → result.code ≡ NO_ROOM }
    ensures done { IsImage n head.now rooms.now → k ≤ n → (m : ℕ)
        → IsFirstFit n k (held_of n rooms.now) m → result.code ≡ DONE }
    // Whatever the bytes are.
    ensures codes { HasSize n rooms.now → k ≤ n
        → (result.code ≡ DONE) ⊎ (result.code ≡ NO_ROOM) }
    ensures dim { result.code ≡ DONE → result.dim ≡ k }
    ensures aligned { result.code ≡ DONE → IsAligned n (region_of result) }
    ensures first { result.code ≡ DONE → IsImage n head.now rooms.now → (m : ℕ)
        × (region_of result ≡ block k m) × IsFirstFit n k (held_of n rooms.now) m }
    ensures no_region { result.code ≢ DONE → NamesNone result }
{
    let _head = head;
    let fault = fault_of_dim(rooms, n, k);
    if fault != DONE {
        return refused(fault);
    }
    match image::first(rooms, n, k) {
        Some(region) => done(region),
        None => refused(NO_ROOM),
    }
}

/// Returns the first fit apart from a block that is to be avoided. This is block `(m, k)` for the
/// least `m` such that it overlaps neither this block nor a held one. The block to avoid has
/// dimension `avoid` and begins at the processor `base`.
///
/// The code is `DONE`, with the block, or the first of these that applies:
/// - `BAD_DIMENSION` or `BAD_SIZE`, as in `cubejobs_image_first`;
/// - `BAD_DIMENSION` if `avoid` is above `n`;
/// - `BAD_BASE`;
/// - `NO_ROOM`.
#[unsafe(no_mangle)]
pub extern "C" fn cubejobs_image_first_apart(
    head: &Head,
    rooms: &[u8],
    n: u32,
    k: u32,
    base: u64,
    avoid: u32,
) -> Answer
    ensures bad_machine { MAX_BITMAP_DIM < n → result.code ≡ BAD_DIMENSION }
    ensures bad_size { HasOtherSize n rooms.now → result.code ≡ BAD_SIZE }
    ensures bad_dimension { HasSize n rooms.now → (n < k) ⊎ (n < avoid)
        → result.code ≡ BAD_DIMENSION }
    ensures bad_base { HasSize n rooms.now → k ≤ n → avoid ≤ n
        → (IsAligned n (region_from base avoid) → ⊥) → result.code ≡ BAD_BASE }
    ensures no_room { IsImage n head.now rooms.now → k ≤ n → IsAligned n (region_from base avoid)
        → HasNoneApart n k (held_of n rooms.now) (region_from base avoid)
        → result.code ≡ NO_ROOM }
    ensures done { IsImage n head.now rooms.now → k ≤ n → IsAligned n (region_from base avoid)
        → (m : ℕ) → IsFirstApart n k (held_of n rooms.now) (region_from base avoid) m
        → result.code ≡ DONE }
    // Whatever the bytes are.
    ensures codes { HasSize n rooms.now → k ≤ n → IsAligned n (region_from base avoid)
        → (result.code ≡ DONE) ⊎ (result.code ≡ NO_ROOM) }
    ensures dim { result.code ≡ DONE → result.dim ≡ k }
    ensures aligned { result.code ≡ DONE → IsAligned n (region_of result) }
    ensures first { result.code ≡ DONE → IsImage n head.now rooms.now → (m : ℕ)
        × (region_of result ≡ block k m)
        × IsFirstApart n k (held_of n rooms.now) (region_from base avoid) m }
    ensures no_region { result.code ≢ DONE → NamesNone result }
{
    let _head = head;
    let reserved = Region { base, dim: avoid };
    let fault = fault_of_apart(rooms, n, k, reserved);
    if fault != DONE {
        return refused(fault);
    }
    match image::first_apart(rooms, n, k, reserved) {
        Some(region) => done(region),
        None => refused(NO_ROOM),
    }
}

// Returns `DONE` if the size is right, the machine has blocks of dimension `k`, and `avoid` is a
// block of it. Otherwise returns the fault: that of the size, or else `BAD_DIMENSION`, or else
// `BAD_BASE`.
fn fault_of_apart(rooms: &[u8], n: u32, k: u32, avoid: Region) -> u32
    ensures machine { MAX_BITMAP_DIM < n → result ≡ BAD_DIMENSION }
    ensures size { HasOtherSize n rooms.now → result ≡ BAD_SIZE }
    ensures dimension { HasSize n rooms.now → (n < k) ⊎ (n < avoid.dim)
        → result ≡ BAD_DIMENSION }
    ensures base { HasSize n rooms.now → k ≤ n → avoid.dim ≤ n → (IsAligned n avoid → ⊥)
        → result ≡ BAD_BASE }
    ensures done { HasSize n rooms.now → k ≤ n → IsAligned n avoid → result ≡ DONE }
    ensures fine { result ≡ DONE → HasSize n rooms.now × (k ≤ n) × IsAligned n avoid }
{
    let fault = fault_of_dim(rooms, n, k);
    if fault != DONE {
        return fault;
    }
    fault_of_block(rooms, n, avoid)
}

/// Returns the held block that has a processor.
///
/// The code is `DONE`, with the block, or the first of these that applies:
/// - `BAD_DIMENSION` if `n` is above `MAX_BITMAP_DIM`;
/// - `BAD_SIZE` if there are not `2^(n + 1)` rooms;
/// - `BAD_BASE` if the machine has no such processor;
/// - `NOTHING_HELD` if it is free.
#[unsafe(no_mangle)]
pub extern "C" fn cubejobs_image_block_with(
    head: &Head,
    rooms: &[u8],
    n: u32,
    processor: u64,
) -> Answer
    ensures bad_machine { MAX_BITMAP_DIM < n → result.code ≡ BAD_DIMENSION }
    ensures bad_size { HasOtherSize n rooms.now → result.code ≡ BAD_SIZE }
    ensures bad_base { HasSize n rooms.now → 2 ^ n ≤ processor → result.code ≡ BAD_BASE }
    ensures nothing_held { IsImage n head.now rooms.now → processor < 2 ^ n
        → IsFreeProcessor (held_of n rooms.now) processor → result.code ≡ NOTHING_HELD }
    ensures done { IsImage n head.now rooms.now → IsHeld (held_of n rooms.now) processor
        → result.code ≡ DONE }
    // Whatever the bytes are.
    ensures codes { HasSize n rooms.now → processor < 2 ^ n
        → (result.code ≡ DONE) ⊎ (result.code ≡ NOTHING_HELD) }
    ensures aligned { result.code ≡ DONE → IsAligned n (region_of result) }
    ensures covers { result.code ≡ DONE → Covers (region_of result) processor }
    ensures held { result.code ≡ DONE → IsImage n head.now rooms.now
        → HoldsBlock (fit_in n rooms.now) (region_of result) }
    ensures no_region { result.code ≢ DONE → NamesNone result }
{
    let _head = head;
    let fault = fault_of_size(rooms, n);
    if fault != DONE {
        return refused(fault);
    }
    if processor >= 1 << n {
        return refused(BAD_BASE);
    }
    match image::block_with(rooms, n, processor) {
        Some(region) => done(region),
        None => refused(NOTHING_HELD),
    }
}

/// Returns whether a block of dimension `k` begins at this processor and overlaps no held block.
///
/// It is false if `n` is above `MAX_BITMAP_DIM`, or if there are not `2^(n + 1)` rooms.
#[unsafe(no_mangle)]
pub extern "C" fn cubejobs_image_is_free(
    head: &Head,
    rooms: &[u8],
    n: u32,
    base: u64,
    k: u32,
) -> bool
    ensures free { IsImage n head.now rooms.now → IsTrue result ↔ (IsAligned n (region_from base k)
        × IsFree (held_of n rooms.now) (region_from base k)) }
    // Whatever the bytes are.
    ensures fine { IsTrue result → HasSize n rooms.now × IsAligned n (region_from base k) }
{
    let _head = head;
    let region = Region { base, dim: k };
    if fault_of_block(rooms, n, region) != DONE {
        return false;
    }
    image::is_free(rooms, n, region)
}
