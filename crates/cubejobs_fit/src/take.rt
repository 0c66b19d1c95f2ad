//! Takes of a block.

ghost use Rattle.std.specs.Prelude.{◌≡◌, ◌≢◌, ℕ, ◌<◌, ◌≤◌, ◌⊎◌, length};
ghost use Rattle.cube_shape.specs.Region.{IsAligned, block};
ghost use Rattle.cube_shape.specs.Machine.{Gives, HasNoFit, IsFirstFit, IsFree};
ghost use Rattle.cube_shape.specs.Falling.{HoldsNoNarrower, IsFull};
ghost use Rattle.fit_tree.specs.Image.{IsImage};
ghost use Rattle.cubejobs_fit.specs.Answers.{HasOtherSize, HasSize, NamesNone, held_of, region_from, region_of};

use crate::answer::{Answer, done, refused};
use crate::codes::{BAD_BASE, BAD_DIMENSION, BAD_SIZE, DONE, NO_ROOM, TAKEN};
use crate::faults::{fault_of_block, fault_of_dim};
use cube_shape::{MAX_BITMAP_DIM, Region};
use fit_tree::{Head, image};

/// Takes the first fit, block `(m, k)` for the least `m` such that it overlaps no held block.
///
/// The code is `DONE`, with the block, or the first of these that applies:
/// - `BAD_DIMENSION` if `n` is above `MAX_BITMAP_DIM`;
/// - `BAD_SIZE` if there are not `2^(n + 1)` rooms;
/// - `BAD_DIMENSION` if `k` is above `n`;
/// - `NO_ROOM`.
///
/// A refusal changes nothing.
#[unsafe(no_mangle)]
pub extern "C" fn cubejobs_image_take(head: &mut Head, rooms: &mut [u8], n: u32, k: u32) -> Answer
    ensures bad_machine { MAX_BITMAP_DIM < n → result.code ≡ BAD_DIMENSION }
    ensures bad_size { HasOtherSize n rooms.old → result.code ≡ BAD_SIZE }
    ensures bad_dimension { HasSize n rooms.old → n < k → result.code ≡ BAD_DIMENSION }
    ensures no_room { IsImage n head.old rooms.old → k ≤ n → HasNoFit n k (held_of n rooms.old)
        → result.code ≡ NO_ROOM }
    ensures done { IsImage n head.old rooms.old → k ≤ n → (m : ℕ)
        → IsFirstFit n k (held_of n rooms.old) m → result.code ≡ DONE }
    // Whatever the bytes are.
    ensures codes { HasSize n rooms.old → k ≤ n
        → (result.code ≡ DONE) ⊎ (result.code ≡ NO_ROOM) }
    // Once no held block is narrower, only a full machine refuses.
    ensures full { IsImage n head.old rooms.old → HoldsNoNarrower k (held_of n rooms.old)
        → result.code ≡ NO_ROOM → IsFull n (held_of n rooms.old) }
    ensures dim { result.code ≡ DONE → result.dim ≡ k }
    ensures aligned { result.code ≡ DONE → IsAligned n (region_of result) }
    ensures first { result.code ≡ DONE → IsImage n head.old rooms.old → (m : ℕ)
        × (region_of result ≡ block k m) × IsFirstFit n k (held_of n rooms.old) m }
    ensures given { result.code ≡ DONE → IsImage n head.old rooms.old → Gives n result.base k
        (held_of n rooms.old) (held_of n rooms.new) (region_of result) }
    ensures image { IsImage n head.old rooms.old → IsImage n head.new rooms.new }
    ensures len { length rooms.new ≡ length rooms.old }
    ensures dim_stays { head.new.dim ≡ head.old.dim }
    ensures no_region { result.code ≢ DONE → NamesNone result }
    ensures unchanged { result.code ≢ DONE → rooms.new ≡ rooms.old }
    ensures head_stays { result.code ≢ DONE → head.new ≡ head.old }
{
    let fault = fault_of_dim(rooms, n, k);
    if fault != DONE {
        return refused(fault);
    }
    let Some(region) = image::take(head, rooms, n, k) else {
        return refused(NO_ROOM);
    };
    done(region)
}

/// Takes the block of dimension `k` that begins at this processor.
///
/// The code is `DONE`, with the block, or the first of these that applies:
/// - `BAD_DIMENSION` or `BAD_SIZE`, as in `cubejobs_image_take`;
/// - `BAD_BASE`;
/// - `TAKEN` if it overlaps a held block.
///
/// A refusal changes nothing.
#[unsafe(no_mangle)]
pub extern "C" fn cubejobs_image_take_at(
    head: &mut Head,
    rooms: &mut [u8],
    n: u32,
    base: u64,
    k: u32,
) -> Answer
    ensures bad_machine { MAX_BITMAP_DIM < n → result.code ≡ BAD_DIMENSION }
    ensures bad_size { HasOtherSize n rooms.old → result.code ≡ BAD_SIZE }
    ensures bad_dimension { HasSize n rooms.old → n < k → result.code ≡ BAD_DIMENSION }
    ensures bad_base { HasSize n rooms.old → k ≤ n → (IsAligned n (region_from base k) → ⊥)
        → result.code ≡ BAD_BASE }
    ensures taken { IsImage n head.old rooms.old → IsAligned n (region_from base k)
        → (IsFree (held_of n rooms.old) (region_from base k) → ⊥) → result.code ≡ TAKEN }
    ensures done { IsImage n head.old rooms.old → IsAligned n (region_from base k)
        → IsFree (held_of n rooms.old) (region_from base k) → result.code ≡ DONE }
    // Whatever the bytes are.
    ensures codes { HasSize n rooms.old → IsAligned n (region_from base k)
        → (result.code ≡ DONE) ⊎ (result.code ≡ TAKEN) }
    ensures region { result.code ≡ DONE → region_of result ≡ region_from base k }
    ensures given { result.code ≡ DONE → IsImage n head.old rooms.old → Gives n base k
        (held_of n rooms.old) (held_of n rooms.new) (region_from base k) }
    ensures image { IsImage n head.old rooms.old → IsImage n head.new rooms.new }
    ensures len { length rooms.new ≡ length rooms.old }
    ensures dim_stays { head.new.dim ≡ head.old.dim }
    ensures no_region { result.code ≢ DONE → NamesNone result }
    ensures unchanged { result.code ≢ DONE → rooms.new ≡ rooms.old }
    ensures head_stays { result.code ≢ DONE → head.new ≡ head.old }
{
    let region = Region { base, dim: k };
    let fault = fault_of_block(rooms, n, region);
    if fault != DONE {
        return refused(fault);
    }
    if !image::take_at(head, rooms, n, region) {
        return refused(TAKEN);
    }
    done(region)
}
