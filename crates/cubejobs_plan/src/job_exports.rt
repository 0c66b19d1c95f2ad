//! The function of the library that submits a job, under the name that C declares.
ghost use Rattle.std.specs.Prelude.{◌≡◌, ◌≢◌, ◌⊎◌, None};
ghost use Rattle.sched_core.specs.Shows.{dim_of};
ghost use Rattle.cubejobs_plan.specs.Answers.{SaysNothing};
ghost use Rattle.cubejobs_plan.specs.Handle.{OnCore, OnCores, core_of};
ghost use Rattle.sched_core.specs.Request.{IsAskable};
ghost use Rattle.cubejobs_plan.specs.Jobs.{IsFull, IsRefused, IsSubmitted};

use crate::answer::PlanJob;
use crate::answers::refused;
use crate::codes::{DONE, FULL, NOT_OPEN, OUT_OF_RANGE};
use crate::handle::Handle;
use crate::submitting::submit;
use sched_core::JobRequest;

/// Submits a job, which waits from now on.
#[unsafe(no_mangle)]
pub extern "C" fn cubejobs_plan_submit(plan: &mut Handle, request: JobRequest) -> PlanJob
    ensures not_open { core_of plan.old ≡ None → result.code ≡ NOT_OPEN }
    ensures out_of_range { OnCore (λ core. IsAskable (dim_of core) request → ⊥) (core_of plan.old)
        → result.code ≡ OUT_OF_RANGE }
    ensures tried { OnCore (λ core. IsAskable (dim_of core) request) (core_of plan.old)
        → (result.code ≡ DONE) ⊎ (result.code ≡ FULL) }
    ensures full { result.code ≡ FULL → OnCore IsFull (core_of plan.old) }
    ensures refused { OnCore (IsRefused request) (core_of plan.old) → result.code ≡ FULL }
    ensures submitted { result.code ≡ DONE
        → OnCores (IsSubmitted request result) (core_of plan.old) (core_of plan.new) }
    ensures nothing { result.code ≢ DONE → SaysNothing result }
    ensures unchanged { result.code ≢ DONE → plan.new ≡ plan.old }
{
    if !plan.is_open() {
        return refused(NOT_OPEN);
    }
    submit(&mut plan.at.get_mut().scheduler, request)
}
