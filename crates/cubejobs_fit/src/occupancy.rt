//! How much of a machine is free.

ghost use Rattle.std.specs.Prelude.{◌≡◌, ◌≢◌, ℕ, ◌-◌, ◌^◌, ◌<◌, ◌≤◌, false, slice_index, IsTrue, List};
ghost use Rattle.cube_shape.specs.Region.{block};
ghost use Rattle.cube_shape.specs.Machine.{HasNoFit, IsFree};
ghost use Rattle.cube_shape.specs.Falling.{IsHeld};
ghost use Rattle.alloc_bits.specs.Count.{IsCount};
ghost use Rattle.fit_tree.specs.Image.{IsImage};
ghost use Rattle.cubejobs_fit.specs.Answers.{CountsNone, HasOtherSize, HasSize, held_of};

use crate::codes::{BAD_DIMENSION, BAD_SIZE, DONE};
use crate::faults::fault_of_size;
use cube_shape::MAX_BITMAP_DIM;
use fit_tree::{COUNT_PLACES, Head, image};

/// The occupancy of a machine: what of it is free.
#[repr(C)]
#[derive(Clone, Copy, Debug)]
pub struct OccupancyAnswer {
    /// `DONE`, or why the call was refused. Then all else is 0.
    pub code: u32,
    /// The largest dimension of a free block, if there is one, else 0.
    pub largest: u32,
    /// Whether a block is free.
    pub has_free: bool,
    /// The number of processors in held blocks.
    pub held: u64,
    /// The number of free blocks of each dimension, at the dimension. It is 0 above the machine's.
    pub free: [u64; COUNT_PLACES],
}

// Makes the answer of a refused call.
fn counts_none(code: u32) -> OccupancyAnswer
    ensures code { result.code ≡ code }
    ensures nothing { CountsNone result }
{
    OccupancyAnswer {
        code,
        largest: 0,
        has_free: false,
        held: 0,
        free: [0; COUNT_PLACES],
    }
}

// Counts the free blocks of each dimension.
fn free_of(head: &Head, n: u32) -> [u64; COUNT_PLACES]
    requires { n ≤ MAX_BITMAP_DIM }
    ensures counted { (rooms : List ℕ) → IsImage n head.now rooms → (k : ℕ) → k ≤ n
        → IsCount (λ m. IsFree (held_of n rooms) (block k m)) (2 ^ (n - k))
        (slice_index result k) }
    ensures above { (k : ℕ) → n < k → slice_index result k ≡ 0 }
{
    let mut free = [0; COUNT_PLACES];
    for k in 0..n + 1 {
        free[k as usize] = image::free_blocks(head, n, k) as u64;
    }
    free
}

/// Counts the free blocks of each dimension and the processors in held blocks, and finds the
/// largest free dimension.
///
/// The code is `DONE`, or the first of these that applies:
/// - `BAD_DIMENSION` if `n` is above `MAX_BITMAP_DIM`;
/// - `BAD_SIZE` if there are not `2^(n + 1)` rooms.
#[unsafe(no_mangle)]
pub extern "C" fn cubejobs_image_occupancy(head: &Head, rooms: &[u8], n: u32) -> OccupancyAnswer
    ensures bad_machine { MAX_BITMAP_DIM < n → result.code ≡ BAD_DIMENSION }
    ensures bad_size { HasOtherSize n rooms.now → result.code ≡ BAD_SIZE }
    ensures done { HasSize n rooms.now → result.code ≡ DONE }
    ensures fits { IsTrue result.has_free → IsImage n head.now rooms.now
        → HasNoFit n result.largest (held_of n rooms.now) → ⊥ }
    ensures larger { IsTrue result.has_free → IsImage n head.now rooms.now → (k : ℕ)
        → result.largest < k → k ≤ n → HasNoFit n k (held_of n rooms.now) }
    ensures full { result.has_free ≡ false → IsImage n head.now rooms.now → (k : ℕ) → k ≤ n
        → HasNoFit n k (held_of n rooms.now) }
    ensures held { IsImage n head.now rooms.now
        → IsCount (IsHeld (held_of n rooms.now)) (2 ^ n) result.held }
    ensures free { IsImage n head.now rooms.now → (k : ℕ) → k ≤ n
        → IsCount (λ m. IsFree (held_of n rooms.now) (block k m)) (2 ^ (n - k))
        (slice_index result.free k) }
    // Whatever the bytes are.
    ensures above { (k : ℕ) → n < k → slice_index result.free k ≡ 0 }
    ensures limit { result.largest ≤ n }
    ensures no_largest { result.has_free ≡ false → result.largest ≡ 0 }
    ensures nothing { result.code ≢ DONE → CountsNone result }
{
    let fault = fault_of_size(rooms, n);
    if fault != DONE {
        return counts_none(fault);
    }
    let held = image::held_processors(head, n) as u64;
    let free = free_of(head, n);
    match image::largest_free(rooms, n) {
        Some(largest) => OccupancyAnswer {
            code: DONE,
            largest,
            has_free: true,
            held,
            free,
        },
        None => OccupancyAnswer {
            code: DONE,
            largest: 0,
            has_free: false,
            held,
            free,
        },
    }
}
