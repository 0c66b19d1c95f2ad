//! Blocks go out of service, and into it again.

ghost use Rattle.std.specs.Prelude.{◌≡◌, ◌≢◌, ◌⊎◌};
ghost use Rattle.cubejobs_plan.specs.Blocks.{HasBlock, IsInUse, IsNotOut, IsOccupied, IsVacated};

use crate::codes::{DONE, OUT_OF_RANGE, WRONG_STATE};
use cube_shape::Region;
use fit_tree::image;
use sched_core::Scheduler;

/// Takes a block out of service.
pub(crate) fn occupy(scheduler: &mut Scheduler, region: Region) -> u32
    ensures out_of_range { (HasBlock region scheduler.old → ⊥) → result ≡ OUT_OF_RANGE }
    ensures tried { HasBlock region scheduler.old → (result ≡ DONE) ⊎ (result ≡ WRONG_STATE) }
    ensures wrong_state { result ≡ WRONG_STATE → IsInUse region scheduler.old }
    ensures occupied { result ≡ DONE → IsOccupied region scheduler.old scheduler.new }
    ensures unchanged { result ≢ DONE → scheduler.new ≡ scheduler.old }
{
    if !image::is_aligned(scheduler.dim(), region) {
        return OUT_OF_RANGE;
    }
    if !scheduler.occupy(region) {
        return WRONG_STATE;
    }
    DONE
}

/// Puts a block back into service.
pub(crate) fn vacate(scheduler: &mut Scheduler, region: Region) -> u32
    ensures out_of_range { (HasBlock region scheduler.old → ⊥) → result ≡ OUT_OF_RANGE }
    ensures tried { HasBlock region scheduler.old → (result ≡ DONE) ⊎ (result ≡ WRONG_STATE) }
    ensures wrong_state { result ≡ WRONG_STATE → IsNotOut region scheduler.old }
    ensures vacated { result ≡ DONE → IsVacated region scheduler.old scheduler.new }
    ensures unchanged { result ≢ DONE → scheduler.new ≡ scheduler.old }
{
    if !image::is_aligned(scheduler.dim(), region) {
        return OUT_OF_RANGE;
    }
    if !scheduler.vacate(region) {
        return WRONG_STATE;
    }
    DONE
}
