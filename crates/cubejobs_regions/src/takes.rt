//! Takes of a block into a handle.
ghost use Rattle.std.specs.Prelude.{◌≡◌, ◌≢◌, ◌<◌, ◌≤◌, ◌⊎◌, Some, None, true, false};
ghost use Rattle.cube_shape.specs.Region.{IsAligned};
ghost use Rattle.bitmap_tree.specs.Bounds.{block_steps, exact_steps, take_steps};
ghost use Rattle.bitmap_tree.specs.Handles.{held_region};
ghost use Rattle.cubejobs_regions.specs.Answers.{region_of, NamesNone};
ghost use Rattle.cubejobs_regions.specs.Handle.{machine_of, refusal_of_filling, refusal_of_take};
ghost use Rattle.cubejobs_regions.specs.Held.{held_at};
ghost use Rattle.cubejobs_regions.specs.Holding.{trail_of};
ghost use Rattle.cubejobs_regions.specs.Holds.{hold_of};
ghost use Rattle.cubejobs_regions.specs.Machine.{dim_of_machine};
ghost use Rattle.cubejobs_regions.specs.declared.codes.TheConstants.{BAD_VERSION};
ghost use Rattle.cubejobs_regions.specs.Takes.{FoundInUse, FoundNoRoom, IsAnsweredBy};

use crate::aligned::is_block;
use crate::answer::{Answer, done, refused};
use crate::block_handle::BlockHandle;
use crate::codes::{BAD_BASE, BAD_DIMENSION, DONE, NO_ROOM, NOT_NOW, NOT_OPEN, TAKEN};
use crate::handle::Handle;
use crate::machine::Machine;
use bitmap_tree::HeldBlock;
use cube_shape::Region;

// Returns why a take through a handle of a machine cannot fill a handle of a block, or `DONE`.
#[inline(always)]
pub(crate) fn refusal(thread: &Handle, region: &BlockHandle) -> u32
    ensures { result ≡ refusal_of_take (machine_of thread.now) region.now }
{
    if !thread.is_open() {
        return NOT_OPEN;
    }
    region.refusal()
}

// Puts a held block into a handle.
#[inline(always)]
fn fill(number: u64, region: &mut BlockHandle, held: HeldBlock) -> Answer
    requires { refusal_of_filling region.old ≡ DONE }
    ensures code { result.code ≡ DONE }
    ensures region { region_of result ≡ held_region held }
    ensures quiet { result.contended ≡ 0 }
    ensures held { hold_of region.new ≡ Some (held_at number held) }
{
    let answer = done(held.region());
    region.put(held, number);
    answer
}

// Makes the answer of a take that found nothing free: this code, unless it gave up a word.
#[inline(always)]
fn sought(code: u32, disturbed: bool) -> Answer
    requires code { code ≤ BAD_VERSION }
    requires other { code ≢ NOT_NOW }
    ensures quiet { result.code ≢ NOT_NOW → (result.contended ≡ 0) × (result.code ≡ code) }
    ensures busy { result.code ≡ NOT_NOW → result.contended ≡ 1 }
    ensures either { (result.code ≡ code) ⊎ (result.code ≡ NOT_NOW) }
    ensures none { NamesNone result }
    ensures alone { result.contended ≡ 0 → disturbed ≡ false }
    ensures disturbed { result.contended ≢ 0 → disturbed ≡ true }
{
    if disturbed {
        return refused(NOT_NOW, 1);
    }
    refused(code, 0)
}

/// Takes a block of dimension `k` by the marks.
#[inline(always)]
pub(crate) fn take(machine: &Machine, region: &mut BlockHandle, k: u32) -> Answer
    requires empty { refusal_of_filling region.old ≡ DONE }
    ensures bad_dimension { dim_of_machine machine.now < k → result.code ≡ BAD_DIMENSION }
    ensures tried { k ≤ dim_of_machine machine.now
        → (result.code ≡ DONE) ⊎ (result.code ≡ NOT_NOW) }
    ensures answered { IsAnsweredBy take_steps (Some machine.now) region.old region.new result }
    ensures dimension { result.code ≡ DONE → result.dim ≡ k }
    ensures unchanged { result.code ≢ DONE → region.new ≡ region.old }
    ensures quiet { result.contended ≡ 0 }
{
    let common = machine.common();
    if k > common.tree.dim() {
        return refused(BAD_DIMENSION, 0);
    }
    match common.tree.take(k, machine.start) {
        Ok(held) => fill(common.number, region, held),
        Err(_) => refused(NOT_NOW, 0),
    }
}

/// Takes a block of dimension `k`. Looks at each word before it is refused.
pub(crate) fn take_exact(machine: &Machine, region: &mut BlockHandle, k: u32) -> Answer
    requires empty { refusal_of_filling region.old ≡ DONE }
    ensures bad_dimension { dim_of_machine machine.now < k → result.code ≡ BAD_DIMENSION }
    ensures tried { k ≤ dim_of_machine machine.now
        → (result.code ≡ DONE) ⊎ (result.code ≡ NO_ROOM) ⊎ (result.code ≡ NOT_NOW) }
    ensures answered { IsAnsweredBy exact_steps (Some machine.now) region.old region.new result }
    ensures dimension { result.code ≡ DONE → result.dim ≡ k }
    ensures found { (result.code ≡ NO_ROOM) ⊎ (result.code ≡ NOT_NOW)
        → FoundNoRoom (dim_of_machine machine.now) k result.contended (trail_of region.new) }
    ensures busy { result.code ≡ NOT_NOW → result.contended ≡ 1 }
{
    let common = machine.common();
    if k > common.tree.dim() {
        return refused(BAD_DIMENSION, 0);
    }
    match common.tree.take_exact(k, machine.start) {
        Ok(held) => fill(common.number, region, held),
        Err(refusal) => {
            let disturbed = refusal.disturbed;
            region.keep(refusal.into_seat());
            sought(NO_ROOM, disturbed)
        }
    }
}

/// Takes one block.
pub(crate) fn take_at(machine: &Machine, region: &mut BlockHandle, block: Region) -> Answer
    requires empty { refusal_of_filling region.old ≡ DONE }
    ensures bad_dimension { dim_of_machine machine.now < block.dim → result.code ≡ BAD_DIMENSION }
    ensures bad_base { block.dim ≤ dim_of_machine machine.now
        → (IsAligned (dim_of_machine machine.now) block → ⊥) → result.code ≡ BAD_BASE }
    ensures tried { IsAligned (dim_of_machine machine.now) block
        → (result.code ≡ DONE) ⊎ (result.code ≡ TAKEN) ⊎ (result.code ≡ NOT_NOW) }
    ensures answered { IsAnsweredBy block_steps (Some machine.now) region.old region.new result }
    ensures region { result.code ≡ DONE → region_of result ≡ block }
    ensures found { (result.code ≡ TAKEN) ⊎ (result.code ≡ NOT_NOW)
        → FoundInUse (dim_of_machine machine.now) block result.contended (trail_of region.new) }
    ensures busy { result.code ≡ NOT_NOW → result.contended ≡ 1 }
{
    let common = machine.common();
    let n = common.tree.dim();
    if block.dim > n {
        return refused(BAD_DIMENSION, 0);
    }
    if !is_block(n, block) {
        return refused(BAD_BASE, 0);
    }
    match common.tree.take_at(block) {
        Ok(held) => fill(common.number, region, held),
        Err(refusal) => {
            let disturbed = refusal.disturbed;
            region.keep(refusal.into_seat());
            sought(TAKEN, disturbed)
        }
    }
}
