//! Calls about a held block: its release, and steps between it and its halves.

ghost use Rattle.std.specs.Prelude.{◌≡◌, ◌≢◌, ◌<◌, ◌≤◌, ◌⊎◌, length};
ghost use Rattle.cube_shape.specs.Region.{IsAligned};
ghost use Rattle.cube_shape.specs.Machine.{TakesBack};
ghost use Rattle.fit_tree.specs.Fit.{HoldsBlock};
ghost use Rattle.fit_tree.specs.Halves.{HoldsHalves, Joins, Splits};
ghost use Rattle.fit_tree.specs.Image.{IsImage, fit_in};
ghost use Rattle.cubejobs_fit.specs.Answers.{HasOtherSize, HasSize, held_of, region_from};

use crate::codes::{BAD_BASE, BAD_DIMENSION, BAD_SIZE, DONE, NOT_HALVES, NOTHING_HELD};
use crate::faults::{fault_of_block, fault_of_whole};
use cube_shape::{MAX_BITMAP_DIM, Region};
use fit_tree::{Head, image};

/// Releases the block of dimension `k` that begins at this processor. It was taken as one block.
///
/// Returns `DONE`, or the first of these that applies:
/// - `BAD_DIMENSION` if `n` is above `MAX_BITMAP_DIM`;
/// - `BAD_SIZE` if there are not `2^(n + 1)` rooms;
/// - `BAD_DIMENSION` if `k` is above `n`;
/// - `BAD_BASE`;
/// - `NOTHING_HELD`.
///
/// A refusal changes nothing.
#[unsafe(no_mangle)]
pub extern "C" fn cubejobs_image_release(
    head: &mut Head,
    rooms: &mut [u8],
    n: u32,
    base: u64,
    k: u32,
) -> u32
    ensures bad_machine { MAX_BITMAP_DIM < n → result ≡ BAD_DIMENSION }
    ensures bad_size { HasOtherSize n rooms.old → result ≡ BAD_SIZE }
    ensures bad_dimension { HasSize n rooms.old → n < k → result ≡ BAD_DIMENSION }
    ensures bad_base { HasSize n rooms.old → k ≤ n → (IsAligned n (region_from base k) → ⊥)
        → result ≡ BAD_BASE }
    ensures nothing_held { IsImage n head.old rooms.old → IsAligned n (region_from base k)
        → (HoldsBlock (fit_in n rooms.old) (region_from base k) → ⊥) → result ≡ NOTHING_HELD }
    ensures done { IsImage n head.old rooms.old
        → HoldsBlock (fit_in n rooms.old) (region_from base k) → result ≡ DONE }
    // Whatever the bytes are.
    ensures codes { HasSize n rooms.old → IsAligned n (region_from base k)
        → (result ≡ DONE) ⊎ (result ≡ NOTHING_HELD) }
    ensures released { result ≡ DONE → IsImage n head.old rooms.old → TakesBack base
        (held_of n rooms.old) (held_of n rooms.new) (region_from base k) }
    ensures image { IsImage n head.old rooms.old → IsImage n head.new rooms.new }
    ensures len { length rooms.new ≡ length rooms.old }
    ensures dim_stays { head.new.dim ≡ head.old.dim }
    ensures unchanged { result ≢ DONE → rooms.new ≡ rooms.old }
    ensures head_stays { result ≢ DONE → head.new ≡ head.old }
{
    let region = Region { base, dim: k };
    let fault = fault_of_block(rooms, n, region);
    if fault != DONE {
        return fault;
    }
    if !image::release(head, rooms, n, region) {
        return NOTHING_HELD;
    }
    DONE
}

/// Splits the held block of dimension `k` that begins at this processor. Then its halves are held
/// as one block each.
///
/// Returns `DONE`, or the first of these that applies:
/// - `BAD_DIMENSION` or `BAD_SIZE`, as in `cubejobs_image_release`;
/// - `BAD_DIMENSION` if `k` is 0;
/// - `BAD_BASE`;
/// - `NOTHING_HELD`.
///
/// A refusal changes nothing.
#[unsafe(no_mangle)]
pub extern "C" fn cubejobs_image_split(
    head: &mut Head,
    rooms: &mut [u8],
    n: u32,
    base: u64,
    k: u32,
) -> u32
    ensures bad_machine { MAX_BITMAP_DIM < n → result ≡ BAD_DIMENSION }
    ensures bad_size { HasOtherSize n rooms.old → result ≡ BAD_SIZE }
    ensures bad_dimension { HasSize n rooms.old → (n < k) ⊎ (k ≡ 0) → result ≡ BAD_DIMENSION }
    ensures bad_base { HasSize n rooms.old → 0 < k → k ≤ n
        → (IsAligned n (region_from base k) → ⊥) → result ≡ BAD_BASE }
    ensures nothing_held { IsImage n head.old rooms.old → 0 < k → IsAligned n (region_from base k)
        → (HoldsBlock (fit_in n rooms.old) (region_from base k) → ⊥) → result ≡ NOTHING_HELD }
    ensures done { IsImage n head.old rooms.old → 0 < k
        → HoldsBlock (fit_in n rooms.old) (region_from base k) → result ≡ DONE }
    // Whatever the bytes are.
    ensures codes { HasSize n rooms.old → 0 < k → IsAligned n (region_from base k)
        → (result ≡ DONE) ⊎ (result ≡ NOTHING_HELD) }
    ensures split { result ≡ DONE → IsImage n head.old rooms.old → Splits
        (held_of n rooms.old) (held_of n rooms.new) (region_from base k) }
    ensures image { IsImage n head.old rooms.old → IsImage n head.new rooms.new }
    ensures len { length rooms.new ≡ length rooms.old }
    ensures dim_stays { head.new.dim ≡ head.old.dim }
    ensures unchanged { result ≢ DONE → rooms.new ≡ rooms.old }
    ensures head_stays { result ≢ DONE → head.new ≡ head.old }
{
    let region = Region { base, dim: k };
    let fault = fault_of_whole(rooms, n, region);
    if fault != DONE {
        return fault;
    }
    if image::split(head, rooms, n, region).is_err() {
        return NOTHING_HELD;
    }
    DONE
}

/// Joins the two halves of the block of dimension `k` that begins at this processor. Then the whole
/// is held as one block.
///
/// Returns `DONE`, or the first of these that applies:
/// - `BAD_DIMENSION` or `BAD_SIZE`, as in `cubejobs_image_release`;
/// - `BAD_DIMENSION` if `k` is 0;
/// - `BAD_BASE`;
/// - `NOT_HALVES` if the halves are not both held as one block each.
///
/// A refusal changes nothing.
#[unsafe(no_mangle)]
pub extern "C" fn cubejobs_image_join(
    head: &mut Head,
    rooms: &mut [u8],
    n: u32,
    base: u64,
    k: u32,
) -> u32
    ensures bad_machine { MAX_BITMAP_DIM < n → result ≡ BAD_DIMENSION }
    ensures bad_size { HasOtherSize n rooms.old → result ≡ BAD_SIZE }
    ensures bad_dimension { HasSize n rooms.old → (n < k) ⊎ (k ≡ 0) → result ≡ BAD_DIMENSION }
    ensures bad_base { HasSize n rooms.old → 0 < k → k ≤ n
        → (IsAligned n (region_from base k) → ⊥) → result ≡ BAD_BASE }
    ensures not_halves { IsImage n head.old rooms.old → 0 < k → IsAligned n (region_from base k)
        → (HoldsHalves (held_of n rooms.old) (region_from base k) → ⊥) → result ≡ NOT_HALVES }
    ensures done { IsImage n head.old rooms.old → 0 < k → IsAligned n (region_from base k)
        → HoldsHalves (held_of n rooms.old) (region_from base k) → result ≡ DONE }
    // Whatever the bytes are.
    ensures codes { HasSize n rooms.old → 0 < k → IsAligned n (region_from base k)
        → (result ≡ DONE) ⊎ (result ≡ NOT_HALVES) }
    ensures joined { result ≡ DONE → IsImage n head.old rooms.old → Joins
        (held_of n rooms.old) (held_of n rooms.new) (region_from base k) }
    ensures image { IsImage n head.old rooms.old → IsImage n head.new rooms.new }
    ensures len { length rooms.new ≡ length rooms.old }
    ensures dim_stays { head.new.dim ≡ head.old.dim }
    ensures unchanged { result ≢ DONE → rooms.new ≡ rooms.old }
    ensures head_stays { result ≢ DONE → head.new ≡ head.old }
{
    let region = Region { base, dim: k };
    let fault = fault_of_whole(rooms, n, region);
    if fault != DONE {
        return fault;
    }
    if image::join(head, rooms, n, region).is_err() {
        return NOT_HALVES;
    }
    DONE
}
