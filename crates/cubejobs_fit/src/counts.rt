//! How many blocks are free, and the largest of them.

ghost use Rattle.std.specs.Prelude.{◌≡◌, ◌≢◌, ℕ, ◌-◌, ◌^◌, ◌<◌, ◌≤◌, ◌⊎◌};
ghost use Rattle.cube_shape.specs.Region.{IsAligned, block};
ghost use Rattle.cube_shape.specs.Machine.{HasNoFit, IsFirstFit, IsFree};
ghost use Rattle.cube_shape.specs.Falling.{IsFreeProcessor, IsFull};
ghost use Rattle.alloc_bits.specs.Count.{IsCount};
ghost use Rattle.fit_tree.specs.Image.{IsImage};
ghost use Rattle.cubejobs_fit.specs.Answers.{HasOtherSize, HasSize, NamesNone, held_of, region_of};

use crate::answer::{Answer, done, refused};
use crate::codes::{BAD_DIMENSION, BAD_SIZE, DONE, NO_ROOM};
use crate::faults::{fault_of_dim, fault_of_size};
use cube_shape::MAX_BITMAP_DIM;
use fit_tree::{Head, image};

/// Returns the first block among the free ones of the largest dimension.
///
/// The code is `DONE`, with the block, or the first of these that applies:
/// - `BAD_DIMENSION` if `n` is above `MAX_BITMAP_DIM`;
/// - `BAD_SIZE` if there are not `2^(n + 1)` rooms;
/// - `NO_ROOM` if each processor is held.
#[unsafe(no_mangle)]
pub extern "C" fn cubejobs_image_largest(head: &Head, rooms: &[u8], n: u32) -> Answer
    ensures bad_machine { MAX_BITMAP_DIM < n → result.code ≡ BAD_DIMENSION }
    ensures bad_size { HasOtherSize n rooms.now → result.code ≡ BAD_SIZE }
    ensures no_room { IsImage n head.now rooms.now → IsFull n (held_of n rooms.now)
        → result.code ≡ NO_ROOM }
    ensures done { IsImage n head.now rooms.now → (p : ℕ) → p < 2 ^ n
        → IsFreeProcessor (held_of n rooms.now) p → result.code ≡ DONE }
    // Whatever the bytes are.
    ensures codes { HasSize n rooms.now → (result.code ≡ DONE) ⊎ (result.code ≡ NO_ROOM) }
    ensures aligned { result.code ≡ DONE → IsAligned n (region_of result) }
    ensures first { result.code ≡ DONE → IsImage n head.now rooms.now → (m : ℕ)
        × (region_of result ≡ block result.dim m)
        × IsFirstFit n result.dim (held_of n rooms.now) m }
    ensures largest { result.code ≡ DONE → IsImage n head.now rooms.now → (k : ℕ)
        → result.dim < k → k ≤ n → HasNoFit n k (held_of n rooms.now) }
    ensures no_region { result.code ≢ DONE → NamesNone result }
{
    let _head = head;
    let fault = fault_of_size(rooms, n);
    if fault != DONE {
        return refused(fault);
    }
    let Some(k) = image::largest_free(rooms, n) else {
        return refused(NO_ROOM);
    };
    match image::first(rooms, n, k) {
        Some(region) => done(region),
        None => refused(NO_ROOM),
    }
}

/// Returns how many blocks of dimension `k` overlap no held block.
///
/// It is 0 if `n` is above `MAX_BITMAP_DIM`, if there are not `2^(n + 1)` rooms, or if `k` is above
/// `n`.
#[unsafe(no_mangle)]
pub extern "C" fn cubejobs_image_free_blocks(head: &Head, rooms: &[u8], n: u32, k: u32) -> u64
    ensures counted { IsImage n head.now rooms.now → k ≤ n
        → IsCount (λ m. IsFree (held_of n rooms.now) (block k m)) (2 ^ (n - k)) result }
    ensures none { (HasSize n rooms.now → k ≤ n → ⊥) → result ≡ 0 }
{
    if fault_of_dim(rooms, n, k) != DONE {
        return 0;
    }
    image::free_blocks(head, n, k) as u64
}
