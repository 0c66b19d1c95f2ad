//! How many bytes an image has, and how bytes become one.

ghost use Rattle.std.specs.Prelude.{◌≡◌, ◌≢◌, ℕ, ◌+◌, ◌^◌, ◌<◌, ◌≤◌, ◌⊎◌, ◌↔◌, length, None};
ghost use Rattle.cube_shape.specs.declared.region.Region.{Region as HeldRegion};
ghost use Rattle.fit_tree.specs.Fit.{HoldsBlock};
ghost use Rattle.fit_tree.specs.Image.{IsImage, fit_in};
ghost use Rattle.fit_tree.specs.Topmost.{IsTopmost};
ghost use Rattle.cubejobs_fit.specs.Answers.{HasOtherSize, HasSize, held_of};

use crate::codes::{BAD_DIMENSION, BAD_IMAGE, BAD_SIZE, DONE};
use crate::faults::{fault_of_size, room_count};
use cube_shape::MAX_BITMAP_DIM;
use fit_tree::{COUNT_PLACES, Head, IMAGE_MARK, image};
use std::sync::atomic::{AtomicU64, Ordering};

/// The number of bytes of a head.
pub const HEAD_BYTES: u64 = 96;

/// Returns how many bytes the image of a machine of dimension `n` has: its head and its rooms. It
/// is 0 if `n` is above `MAX_BITMAP_DIM`.
#[unsafe(no_mangle)]
pub extern "C" fn cubejobs_fit_bytes(n: u32) -> u64
    ensures bytes { n ≤ MAX_BITMAP_DIM → result ≡ HEAD_BYTES + 2 ^ (n + 1) }
    ensures none { MAX_BITMAP_DIM < n → result ≡ 0 }
{
    if n > MAX_BITMAP_DIM {
        return 0;
    }
    HEAD_BYTES + room_count(n) as u64
}

// Keeps the writes before it apart from those after it. Without it the compiler leaves out a write
// that is written over. Another process finds that write if this one dies.
fn order_writes() {
    AtomicU64::new(0).swap(1, Ordering::SeqCst);
}

/// Makes an image of a machine of dimension `n` in which nothing is held, whatever the bytes were.
/// The mark is 0 until the rest is written.
///
/// Returns `DONE`, or the first of these that applies:
/// - `BAD_DIMENSION` if `n` is above `MAX_BITMAP_DIM`;
/// - `BAD_SIZE` if there are not `2^(n + 1)` rooms.
///
/// A refusal changes nothing.
#[unsafe(no_mangle)]
pub extern "C" fn cubejobs_image_open(head: &mut Head, rooms: &mut [u8], n: u32) -> u32
    ensures bad_machine { MAX_BITMAP_DIM < n → result ≡ BAD_DIMENSION }
    ensures bad_size { HasOtherSize n rooms.old → result ≡ BAD_SIZE }
    ensures done { HasSize n rooms.old → result ≡ DONE }
    ensures image { result ≡ DONE → IsImage n head.new rooms.new }
    ensures free { result ≡ DONE → (s : ℕ) → held_of n rooms.new s ≡ None }
    ensures len { length rooms.new ≡ length rooms.old }
    ensures unchanged { result ≢ DONE → rooms.new ≡ rooms.old }
    ensures head_stays { result ≢ DONE → head.new ≡ head.old }
{
    let fault = fault_of_size(rooms, n);
    if fault != DONE {
        return fault;
    }
    head.mark = 0;
    order_writes();
    image::open(head, rooms, n);
    DONE
}

/// Checks that the head and the rooms are an image of a machine of dimension `n`.
///
/// Returns `DONE` if so, or the first of these that applies:
/// - `BAD_DIMENSION` or `BAD_SIZE`, as in `cubejobs_image_open`;
/// - `BAD_IMAGE`.
#[unsafe(no_mangle)]
pub extern "C" fn cubejobs_image_check(head: &Head, rooms: &[u8], n: u32) -> u32
    ensures bad_machine { MAX_BITMAP_DIM < n → result ≡ BAD_DIMENSION }
    ensures bad_size { HasOtherSize n rooms.now → result ≡ BAD_SIZE }
    ensures bad_image { HasSize n rooms.now → (IsImage n head.now rooms.now → ⊥)
        → result ≡ BAD_IMAGE }
    ensures done { IsImage n head.now rooms.now → result ≡ DONE }
{
    let fault = fault_of_size(rooms, n);
    if fault != DONE {
        return fault;
    }
    if !image::check(head, rooms, n) {
        return BAD_IMAGE;
    }
    DONE
}

// States that there is a count for each dimension of any machine. This does nothing.
fn each_dimension_has_a_count(counts: &[u32; COUNT_PLACES])
    ensures { length counts.now ≡ COUNT_PLACES }
{}

/// Makes an image of a machine of dimension `n`, of the bytes that a call left which did not end. A
/// block is held then exactly if its room was 0, and that of no block which contains it. An image
/// stays as it is.
///
/// Returns `DONE`, or the first of these that applies:
/// - `BAD_DIMENSION` or `BAD_SIZE`, as in `cubejobs_image_open`;
/// - `BAD_IMAGE` if the mark is not `IMAGE_MARK`, or the dimension of the head is not `n`.
///
/// A refusal changes nothing.
#[unsafe(no_mangle)]
pub extern "C" fn cubejobs_image_repair(head: &mut Head, rooms: &mut [u8], n: u32) -> u32
    ensures bad_machine { MAX_BITMAP_DIM < n → result ≡ BAD_DIMENSION }
    ensures bad_size { HasOtherSize n rooms.old → result ≡ BAD_SIZE }
    ensures bad_image { HasSize n rooms.old
        → (head.old.mark ≢ IMAGE_MARK) ⊎ (head.old.dim ≢ n) → result ≡ BAD_IMAGE }
    ensures done { HasSize n rooms.old → head.old.mark ≡ IMAGE_MARK → head.old.dim ≡ n
        → result ≡ DONE }
    ensures image { result ≡ DONE → IsImage n head.new rooms.new }
    ensures held { result ≡ DONE → (r : HeldRegion)
        → HoldsBlock (fit_in n rooms.new) r ↔ IsTopmost n rooms.old r }
    ensures kept { IsImage n head.old rooms.old → rooms.new ≡ rooms.old }
    ensures head_kept { IsImage n head.old rooms.old → head.new ≡ head.old }
    ensures len { length rooms.new ≡ length rooms.old }
    ensures unchanged { result ≢ DONE → rooms.new ≡ rooms.old }
    ensures head_stays { result ≢ DONE → head.new ≡ head.old }
{
    let fault = fault_of_size(rooms, n);
    if fault != DONE {
        return fault;
    }
    if head.mark != IMAGE_MARK || head.dim != n {
        return BAD_IMAGE;
    }
    image::repair(head, rooms, n);
    each_dimension_has_a_count(&head.maximal);
    DONE
}
