//! The block of a handle is split, and the halves in two handles are joined.
ghost use Rattle.std.specs.Prelude.{◌≡◌, ◌≢◌, ◌<◌, ◌≤◌, ◌^◌, ◌↔◌, IsTrue, None};
ghost use Rattle.cube_shape.specs.declared.limits.TheConstants.{MAX_BITMAP_DIM};
ghost use Rattle.bitmap_tree.specs.Layout.{AreHalves};
ghost use Rattle.cubejobs_regions.specs.Gives.{IsJoined, IsSplit};
ghost use Rattle.cubejobs_regions.specs.Handle.{refusal_of_filling};
ghost use Rattle.cubejobs_regions.specs.Holding.{refusal_of_giving, IsOfItsNumber};
ghost use Rattle.cubejobs_regions.specs.Holds.{hold_in, hold_of};
ghost use Rattle.cubejobs_regions.specs.Machine.{number_of};

use crate::block_handle::BlockHandle;
use crate::codes::{BAD_DIMENSION, DONE, NOT_HALVES};
use crate::gives::{refusal, take_out};
use crate::machine::Machine;
use crate::tag::region_at;
use cube_shape::Region;

/// Splits the block of a handle. The upper half goes into another handle, which must be empty.
pub(crate) fn split(machine: &Machine, region: &mut BlockHandle, half: &mut BlockHandle) -> u32
    requires one_machine { IsOfItsNumber machine.now region.old }
    requires empty { refusal_of_filling half.old ≡ DONE }
    ensures barred { refusal_of_giving (number_of machine.now) (hold_of region.old) ≢ DONE
        → result ≡ refusal_of_giving (number_of machine.now) (hold_of region.old) }
    ensures bad_dimension { refusal_of_giving (number_of machine.now) (hold_of region.old) ≡ DONE
        → (hold_in region.old).region.dim ≡ 0 → result ≡ BAD_DIMENSION }
    ensures done { refusal_of_giving (number_of machine.now) (hold_of region.old) ≡ DONE
        → 0 < (hold_in region.old).region.dim → result ≡ DONE }
    ensures split { result ≡ DONE → IsSplit machine.now region.old region.new half.new }
    ensures unchanged { result ≢ DONE → region.new ≡ region.old }
    ensures half_unchanged { result ≢ DONE → half.new ≡ half.old }
{
    let number = machine.number();
    let code = refusal(number, region);
    if code != DONE {
        return code;
    }
    if region_at(region.tag).dim == 0 {
        return BAD_DIMENSION;
    }
    let held = take_out(machine, region);
    let (lower, upper) = machine.tree().split(held);
    region.put(lower, number);
    half.put(upper, number);
    DONE
}

// Returns whether two blocks are the lower and the upper half of one.
fn are_halves(lower: Region, upper: Region) -> bool
    requires dim { lower.dim ≤ MAX_BITMAP_DIM }
    requires base { lower.base < 2 ^ MAX_BITMAP_DIM }
    ensures { IsTrue result ↔ AreHalves lower upper }
{
    if upper.dim != lower.dim {
        return false;
    }
    if lower.base % (1 << (lower.dim + 1)) != 0 {
        return false;
    }
    upper.base == lower.base + (1 << lower.dim)
}

/// Joins the blocks of two handles, if they are the halves of one. The second handle is empty then.
pub(crate) fn join(machine: &Machine, region: &mut BlockHandle, half: &mut BlockHandle) -> u32
    requires one_machine { IsOfItsNumber machine.now region.old }
    requires half_one_machine { IsOfItsNumber machine.now half.old }
    ensures barred { refusal_of_giving (number_of machine.now) (hold_of region.old) ≢ DONE
        → result ≡ refusal_of_giving (number_of machine.now) (hold_of region.old) }
    ensures half_barred { refusal_of_giving (number_of machine.now) (hold_of region.old) ≡ DONE
        → refusal_of_giving (number_of machine.now) (hold_of half.old) ≢ DONE
        → result ≡ refusal_of_giving (number_of machine.now) (hold_of half.old) }
    ensures not_halves { refusal_of_giving (number_of machine.now) (hold_of region.old) ≡ DONE
        → refusal_of_giving (number_of machine.now) (hold_of half.old) ≡ DONE
        → (AreHalves (hold_in region.old).region (hold_in half.old).region → ⊥)
        → result ≡ NOT_HALVES }
    ensures done { refusal_of_giving (number_of machine.now) (hold_of region.old) ≡ DONE
        → refusal_of_giving (number_of machine.now) (hold_of half.old) ≡ DONE
        → AreHalves (hold_in region.old).region (hold_in half.old).region → result ≡ DONE }
    ensures joined { result ≡ DONE → IsJoined machine.now region.old half.old region.new }
    ensures none { result ≡ DONE → hold_of half.new ≡ None }
    ensures unchanged { result ≢ DONE → region.new ≡ region.old }
    ensures half_unchanged { result ≢ DONE → half.new ≡ half.old }
{
    let number = machine.number();
    let code = refusal(number, region);
    if code != DONE {
        return code;
    }
    let half_code = refusal(number, half);
    if half_code != DONE {
        return half_code;
    }
    if !are_halves(region_at(region.tag), region_at(half.tag)) {
        return NOT_HALVES;
    }
    let lower = take_out(machine, region);
    let upper = take_out(machine, half);
    let whole = machine.tree().join(lower, upper);
    region.put(whole, number);
    DONE
}
