//! The functions of the library that release, split, join and show blocks, under the names that C
//! declares.
ghost use Rattle.std.specs.Prelude.{◌≡◌, ◌≢◌, ◌<◌, None, IsSome};
ghost use Rattle.bitmap_tree.specs.Layout.{AreHalves};
ghost use Rattle.cubejobs_regions.specs.Answers.{region_of, NamesNone};
ghost use Rattle.cubejobs_regions.specs.Gives.{IsJoined, IsReleased, IsSplit};
ghost use Rattle.cubejobs_regions.specs.Handle.{machine_of, refusal_of_filling};
ghost use Rattle.cubejobs_regions.specs.Holding.{refusal_of_call, AreNumbered};
ghost use Rattle.cubejobs_regions.specs.Holds.{hold_in, hold_of};
ghost use Rattle.cubejobs_regions.specs.Machine.{OnMachine};

use crate::answer::{Answer, done, refused};
use crate::block_handle::BlockHandle;
use crate::codes::{BAD_DIMENSION, DONE, NOT_HALVES, NOT_OPEN, NOTHING_HELD};
use crate::handle::Handle;
use crate::places::machine_at;
use crate::tag::region_at;
use crate::{gives, halves};

/// Releases the block of a handle, which any thread may do.
#[unsafe(no_mangle)]
pub extern "C" fn cubejobs_regions_release(thread: &mut Handle, region: &mut BlockHandle) -> u32
    requires one_machine { AreNumbered (machine_of thread.old) region.old }
    ensures code { result ≡ refusal_of_call (machine_of thread.old) (hold_of region.old) }
    ensures released { result ≡ DONE
        → OnMachine (λ machine. IsReleased machine region.old region.new) (machine_of thread.old) }
    ensures none { result ≡ DONE → hold_of region.new ≡ None }
    ensures machine { machine_of thread.new ≡ machine_of thread.old }
    ensures unchanged { result ≢ DONE → region.new ≡ region.old }
{
    if !thread.is_open() {
        return NOT_OPEN;
    }
    gives::release(machine_at(thread.ptr.get_mut()), region)
}

/// Splits the block of a handle, which keeps the lower half. The upper half goes into another
/// handle.
#[unsafe(no_mangle)]
pub extern "C" fn cubejobs_regions_split(
    thread: &mut Handle,
    region: &mut BlockHandle,
    half: &mut BlockHandle,
) -> u32
    requires one_machine { AreNumbered (machine_of thread.old) region.old }
    ensures not_open { machine_of thread.old ≡ None → result ≡ NOT_OPEN }
    ensures half_barred { IsSome (machine_of thread.old) → refusal_of_filling half.old ≢ DONE
        → result ≡ refusal_of_filling half.old }
    ensures barred { refusal_of_filling half.old ≡ DONE
        → refusal_of_call (machine_of thread.old) (hold_of region.old) ≢ DONE
        → result ≡ refusal_of_call (machine_of thread.old) (hold_of region.old) }
    ensures bad_dimension { refusal_of_filling half.old ≡ DONE
        → refusal_of_call (machine_of thread.old) (hold_of region.old) ≡ DONE
        → (hold_in region.old).region.dim ≡ 0 → result ≡ BAD_DIMENSION }
    ensures done { refusal_of_filling half.old ≡ DONE
        → refusal_of_call (machine_of thread.old) (hold_of region.old) ≡ DONE
        → 0 < (hold_in region.old).region.dim → result ≡ DONE }
    ensures split { result ≡ DONE → OnMachine (λ machine. IsSplit machine region.old region.new
        half.new) (machine_of thread.old) }
    ensures machine { machine_of thread.new ≡ machine_of thread.old }
    ensures unchanged { result ≢ DONE → region.new ≡ region.old }
    ensures half_unchanged { result ≢ DONE → half.new ≡ half.old }
{
    if !thread.is_open() {
        return NOT_OPEN;
    }
    let code = half.refusal();
    if code != DONE {
        return code;
    }
    halves::split(machine_at(thread.ptr.get_mut()), region, half)
}

/// Joins the blocks of two handles, which are the lower and the upper half of one. The first handle
/// holds it then, and the second nothing.
#[unsafe(no_mangle)]
pub extern "C" fn cubejobs_regions_join(
    thread: &mut Handle,
    region: &mut BlockHandle,
    half: &mut BlockHandle,
) -> u32
    requires one_machine { AreNumbered (machine_of thread.old) region.old }
    requires half_one_machine { AreNumbered (machine_of thread.old) half.old }
    ensures barred { refusal_of_call (machine_of thread.old) (hold_of region.old) ≢ DONE
        → result ≡ refusal_of_call (machine_of thread.old) (hold_of region.old) }
    ensures half_barred { refusal_of_call (machine_of thread.old) (hold_of region.old) ≡ DONE
        → refusal_of_call (machine_of thread.old) (hold_of half.old) ≢ DONE
        → result ≡ refusal_of_call (machine_of thread.old) (hold_of half.old) }
    ensures not_halves { refusal_of_call (machine_of thread.old) (hold_of region.old) ≡ DONE
        → refusal_of_call (machine_of thread.old) (hold_of half.old) ≡ DONE
        → (AreHalves (hold_in region.old).region (hold_in half.old).region → ⊥)
        → result ≡ NOT_HALVES }
    ensures done { refusal_of_call (machine_of thread.old) (hold_of region.old) ≡ DONE
        → refusal_of_call (machine_of thread.old) (hold_of half.old) ≡ DONE
        → AreHalves (hold_in region.old).region (hold_in half.old).region → result ≡ DONE }
    ensures joined { result ≡ DONE → OnMachine (λ machine. IsJoined machine region.old half.old
        region.new) (machine_of thread.old) }
    ensures none { result ≡ DONE → hold_of half.new ≡ None }
    ensures machine { machine_of thread.new ≡ machine_of thread.old }
    ensures unchanged { result ≢ DONE → region.new ≡ region.old }
    ensures half_unchanged { result ≢ DONE → half.new ≡ half.old }
{
    if !thread.is_open() {
        return NOT_OPEN;
    }
    halves::join(machine_at(thread.ptr.get_mut()), region, half)
}

/// Returns the block that a handle holds.
#[unsafe(no_mangle)]
pub extern "C" fn cubejobs_regions_block(region: &BlockHandle) -> Answer
    ensures nothing { hold_of region.now ≡ None → result.code ≡ NOTHING_HELD }
    ensures done { IsSome (hold_of region.now) → result.code ≡ DONE }
    ensures region { result.code ≡ DONE → region_of result ≡ (hold_in region.now).region }
    ensures none { result.code ≢ DONE → NamesNone result }
    ensures quiet { result.contended ≡ 0 }
{
    if !region.is_held() {
        return refused(NOTHING_HELD, 0);
    }
    done(region_at(region.tag))
}
