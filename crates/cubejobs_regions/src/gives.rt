//! A held block comes out of its handle: to be released, split or joined.
ghost use Rattle.std.specs.Prelude.{◌≡◌, ◌≢◌, Some, None, false};
ghost use Rattle.bitmap_tree.specs.Handles.{IsHeldOf};
ghost use Rattle.cubejobs_regions.specs.Gives.{IsReleased};
ghost use Rattle.cubejobs_regions.specs.Held.{held_at};
ghost use Rattle.cubejobs_regions.specs.Holding.{refusal_of_giving, IsHoldOf, IsOfItsNumber};
ghost use Rattle.cubejobs_regions.specs.Holds.{hold_of};
ghost use Rattle.cubejobs_regions.specs.Machine.{number_of, tree_of};
ghost use Rattle.cubejobs_regions.specs.Tags.{is_held};

use crate::block_handle::BlockHandle;
use crate::codes::{DONE, NOTHING_HELD, OTHER_MACHINE};
use crate::machine::Machine;
use bitmap_tree::HeldBlock;

// Returns why a call on the machine of this number cannot have the block of a handle, or `DONE`.
#[inline(always)]
pub(crate) fn refusal(number: u64, region: &BlockHandle) -> u32
    ensures { result ≡ refusal_of_giving number (hold_of region.now) }
{
    if !region.is_held() {
        return NOTHING_HELD;
    }
    if region.machine == number {
        DONE
    } else {
        OTHER_MACHINE
    }
}

// Takes the block of the machine out of a handle, which is empty then.
#[inline(always)]
pub(crate) fn take_out(machine: &Machine, region: &mut BlockHandle) -> HeldBlock
    requires one_machine { IsOfItsNumber machine.now region.old }
    requires held { refusal_of_giving (number_of machine.now) (hold_of region.old) ≡ DONE }
    ensures held { hold_of region.old ≡ Some (held_at (number_of machine.now) result) }
    ensures of_machine { IsHoldOf machine.now (held_at (number_of machine.now) result) }
    ensures of_tree { IsHeldOf (tree_of machine.now) result }
    ensures empty { is_held region.new.tag ≡ false }
{
    region.take()
}

/// Releases the block of a handle.
#[inline(always)]
pub(crate) fn release(machine: &Machine, region: &mut BlockHandle) -> u32
    requires one_machine { IsOfItsNumber machine.now region.old }
    ensures code { result
        ≡ refusal_of_giving (number_of machine.now) (hold_of region.old) }
    ensures released { result ≡ DONE → IsReleased machine.now region.old region.new }
    ensures none { result ≡ DONE → hold_of region.new ≡ None }
    ensures unchanged { result ≢ DONE → region.new ≡ region.old }
{
    let common = machine.common();
    let code = refusal(common.number, region);
    if code != DONE {
        return code;
    }
    let held = take_out(machine, region);
    let released = common.tree.release(held);
    region.keep(released.into_seat());
    DONE
}
