//! Steps on numbers and reservations.

ghost use Rattle.std.specs.Prelude.{◌≡◌, ℕ, ◌*◌, ◌^◌, ◌<◌, ◌≤◌, ◌↔◌, Option, Some, None, IfSome, IsFalse, IsTrue};
ghost use Rattle.cube_shape.specs.Region.{IsAligned};
ghost use Rattle.sched_law.specs.declared.job.TheConstants.{NEVER as LAST};
ghost use Rattle.sched_law.specs.State.{end_after, overlaps};
ghost use Rattle.sched_law.specs.Policy.{Precedes};
ghost use Rattle.sched_core.specs.Inner.{kept_beside, kept_without};

use crate::assigned::Assigned;
use cube_shape::{MAX_BITMAP_DIM, Region};
use sched_law::{NEVER, SchedJob};

/// Returns the estimated end of a job with this estimate that starts now.
pub(crate) fn end_of(now: u64, estimate: u64) -> u64
    ensures { result ≡ end_after now estimate }
{
    if estimate == 0 {
        return NEVER;
    }
    now.saturating_add(estimate)
}

/// Returns the longest estimate with which a job that starts now ends by a known time, or 0.
pub(crate) fn slack(latest: u64, now: u64) -> u64
    ensures { (estimate : ℕ) → ((0 < estimate) × (estimate ≤ result))
        ↔ ((latest < LAST) × (end_after now estimate ≤ latest)) }
{
    if latest == NEVER {
        return 0;
    }
    latest.saturating_sub(now)
}

/// Returns whether less has passed a job than this many times the machine.
pub(crate) fn is_patient(passed: u64, patience: u32, dim: u32) -> bool
    requires { dim ≤ MAX_BITMAP_DIM }
    ensures few { IsTrue result → passed < patience * 2 ^ dim }
    ensures many { IsFalse result → patience * 2 ^ dim ≤ passed }
{
    if passed >= patience as u64 * (1 << dim) {
        return false;
    }
    true
}

/// Ends a reservation, if it is that of this slot.
pub(crate) fn forget(kept: &mut Option<Assigned>, slot: u32)
    ensures { kept.new ≡ kept_without slot kept.old }
{
    let Some(it) = *kept else {
        return;
    };
    if it.slot == slot {
        *kept = None;
    }
}

/// Returns whether job `i` comes before job `j` in order.
pub(crate) fn precedes(first: &SchedJob, i: u64, second: &SchedJob, j: u64) -> bool
    ensures yes { IsTrue result → Precedes i first.now j second.now }
    ensures no { IsFalse result → Precedes i first.now j second.now → ⊥ }
{
    if first.class < second.class {
        return true;
    }
    if first.class > second.class {
        return false;
    }
    if i >= j {
        return false;
    }
    true
}

// Returns whether two blocks have a processor in common.
fn overlap(n: u32, a: Region, b: Region) -> bool
    requires machine { n ≤ MAX_BITMAP_DIM }
    requires first { IsAligned n a }
    requires second { IsAligned n b }
    ensures { result ≡ overlaps a b }
{
    if a.base >= b.base + (1 << b.dim) {
        return false;
    }
    if b.base >= a.base + (1 << a.dim) {
        return false;
    }
    true
}

/// Returns the reservation, if its block has no part of this one.
pub(crate) fn beside(n: u32, block: Region, kept: Option<Assigned>) -> Option<Assigned>
    requires machine { n ≤ MAX_BITMAP_DIM }
    requires block { IsAligned n block }
    requires kept { IfSome kept (λ it. IsAligned n it.block) }
    ensures { result ≡ kept_beside block kept }
{
    let Some(it) = kept else {
        return None;
    };
    if overlap(n, block, it.block) {
        return None;
    }
    kept
}
