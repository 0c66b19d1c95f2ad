//! How a job is submitted.

ghost use Rattle.std.specs.Prelude.{◌≡◌, ◌≢◌, ◌⊎◌};
ghost use Rattle.sched_core.specs.Shows.{dim_of};
ghost use Rattle.cubejobs_plan.specs.Answers.{SaysNothing};
ghost use Rattle.sched_core.specs.Request.{IsAskable};
ghost use Rattle.cubejobs_plan.specs.Jobs.{IsFull, IsRefused, IsSubmitted};

use crate::answer::PlanJob;
use crate::answers::{answer_at_last, refused};
use crate::codes::{DONE, FULL, OUT_OF_RANGE};
use sched_core::{JobRequest, NEVER, Scheduler, is_askable, job_of};

/// Submits a job.
pub(crate) fn submit(scheduler: &mut Scheduler, request: JobRequest) -> PlanJob
    ensures out_of_range { (IsAskable (dim_of scheduler.old) request → ⊥)
        → result.code ≡ OUT_OF_RANGE }
    ensures tried { IsAskable (dim_of scheduler.old) request
        → (result.code ≡ DONE) ⊎ (result.code ≡ FULL) }
    ensures full { result.code ≡ FULL → IsFull scheduler.old }
    ensures refused { IsRefused request scheduler.old → result.code ≡ FULL }
    ensures submitted { result.code ≡ DONE
        → IsSubmitted request result scheduler.old scheduler.new }
    ensures nothing { result.code ≢ DONE → SaysNothing result }
    ensures unchanged { result.code ≢ DONE → scheduler.new ≡ scheduler.old }
{
    let n = scheduler.dim();
    if !is_askable(n, request) {
        return refused(OUT_OF_RANGE);
    }
    if scheduler.submitted() == NEVER {
        return refused(FULL);
    }
    let Some(slot) = scheduler.submit(job_of(n, request)) else {
        return refused(FULL);
    };
    answer_at_last(scheduler, slot)
}
