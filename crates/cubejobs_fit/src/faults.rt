//! The faults of arguments, in the order in which calls check them.

ghost use Rattle.std.specs.Prelude.{◌≡◌, ◌+◌, ◌^◌, ◌<◌, ◌≤◌, ◌⊎◌};
ghost use Rattle.cube_shape.specs.Region.{IsAligned};
ghost use Rattle.cubejobs_fit.specs.Answers.{HasOtherSize, HasSize};

use crate::codes::{BAD_BASE, BAD_DIMENSION, BAD_SIZE, DONE};
use cube_shape::{MAX_BITMAP_DIM, Region};
use fit_tree::image;

// Returns how many rooms a machine of dimension `n` has.
pub(crate) fn room_count(n: u32) -> usize
    requires { n ≤ MAX_BITMAP_DIM }
    ensures rooms { result ≡ 2 ^ (n + 1) }
    ensures limit { result ≤ 2 ^ (MAX_BITMAP_DIM + 1) }
{
    1 << (n + 1)
}

// Returns `DONE` if there is a machine of dimension `n` and it has this number of rooms. Otherwise
// returns the fault: `BAD_DIMENSION`, or else `BAD_SIZE`.
pub(crate) fn fault_of_size(rooms: &[u8], n: u32) -> u32
    ensures machine { MAX_BITMAP_DIM < n → result ≡ BAD_DIMENSION }
    ensures size { HasOtherSize n rooms.now → result ≡ BAD_SIZE }
    ensures done { HasSize n rooms.now → result ≡ DONE }
    ensures fine { result ≡ DONE → HasSize n rooms.now }
{
    if n > MAX_BITMAP_DIM {
        return BAD_DIMENSION;
    }
    if rooms.len() != room_count(n) {
        return BAD_SIZE;
    }
    DONE
}

// Returns `DONE` if the size is right and the machine has blocks of dimension `k`. Otherwise
// returns the fault: that of the size, or else `BAD_DIMENSION`.
pub(crate) fn fault_of_dim(rooms: &[u8], n: u32, k: u32) -> u32
    ensures machine { MAX_BITMAP_DIM < n → result ≡ BAD_DIMENSION }
    ensures size { HasOtherSize n rooms.now → result ≡ BAD_SIZE }
    ensures dimension { HasSize n rooms.now → n < k → result ≡ BAD_DIMENSION }
    ensures done { HasSize n rooms.now → k ≤ n → result ≡ DONE }
    ensures fine { result ≡ DONE → HasSize n rooms.now × (k ≤ n) }
{
    let fault = fault_of_size(rooms, n);
    if fault == DONE && k > n {
        return BAD_DIMENSION;
    }
    fault
}

// Returns `DONE` if the size is right and this is a block of the machine. Otherwise returns the
// fault: that of the size, or else `BAD_DIMENSION`, or else `BAD_BASE`.
pub(crate) fn fault_of_block(rooms: &[u8], n: u32, region: Region) -> u32
    ensures machine { MAX_BITMAP_DIM < n → result ≡ BAD_DIMENSION }
    ensures size { HasOtherSize n rooms.now → result ≡ BAD_SIZE }
    ensures dimension { HasSize n rooms.now → n < region.dim → result ≡ BAD_DIMENSION }
    ensures base { HasSize n rooms.now → region.dim ≤ n → (IsAligned n region → ⊥)
        → result ≡ BAD_BASE }
    ensures done { HasSize n rooms.now → IsAligned n region → result ≡ DONE }
    ensures fine { result ≡ DONE → HasSize n rooms.now × IsAligned n region }
{
    let fault = fault_of_dim(rooms, n, region.dim);
    if fault == DONE && !image::is_aligned(n, region) {
        return BAD_BASE;
    }
    fault
}

// Returns `DONE` if the size is right and this is a block of the machine that has halves. Otherwise
// returns the fault: that of the size, or else `BAD_DIMENSION`, or else `BAD_BASE`.
pub(crate) fn fault_of_whole(rooms: &[u8], n: u32, region: Region) -> u32
    ensures machine { MAX_BITMAP_DIM < n → result ≡ BAD_DIMENSION }
    ensures size { HasOtherSize n rooms.now → result ≡ BAD_SIZE }
    ensures dimension { HasSize n rooms.now → (n < region.dim) ⊎ (region.dim ≡ 0)
        → result ≡ BAD_DIMENSION }
    ensures base { HasSize n rooms.now → 0 < region.dim → region.dim ≤ n
        → (IsAligned n region → ⊥) → result ≡ BAD_BASE }
    ensures done { HasSize n rooms.now → 0 < region.dim → IsAligned n region → result ≡ DONE }
    ensures fine { result ≡ DONE
        → HasSize n rooms.now × (0 < region.dim) × IsAligned n region }
{
    let fault = fault_of_size(rooms, n);
    if fault == DONE && region.dim == 0 {
        return BAD_DIMENSION;
    }
    fault_of_block(rooms, n, region)
}
