//! The function of the library that starts a job, under the name that C declares.
ghost use Rattle.std.specs.Prelude.{◌≡◌, ◌≢◌, ◌<◌, ◌≤◌, ◌⊎◌, None, IsSome};
ghost use Rattle.sched_law.specs.declared.job.TheConstants.{NEVER as LAST};
ghost use Rattle.sched_core.specs.Shows.{time_of};
ghost use Rattle.cubejobs_plan.specs.Answers.{SaysNothing};
ghost use Rattle.cubejobs_plan.specs.Handle.{OnCore, OnCores, core_of};
ghost use Rattle.cubejobs_plan.specs.Jobs.{IsAtRest, IsStarted};

use crate::answer::PlanJob;
use crate::answers::refused;
use crate::codes::{DONE, NO_JOB, NOT_OPEN, OUT_OF_RANGE, TIME_BACK};
use crate::handle::Handle;
use crate::starting::next;

/// Starts one job at this time, or says that none may start.
#[unsafe(no_mangle)]
pub extern "C" fn cubejobs_plan_next(plan: &mut Handle, now: u64) -> PlanJob
    ensures not_open { core_of plan.old ≡ None → result.code ≡ NOT_OPEN }
    ensures out_of_range { IsSome (core_of plan.old) → now ≡ LAST → result.code ≡ OUT_OF_RANGE }
    ensures time_back { now < LAST → OnCore (λ core. now < time_of core) (core_of plan.old)
        → result.code ≡ TIME_BACK }
    ensures decided { now < LAST → OnCore (λ core. time_of core ≤ now) (core_of plan.old)
        → (result.code ≡ DONE) ⊎ (result.code ≡ NO_JOB) }
    ensures started { result.code ≡ DONE
        → OnCores (IsStarted now result) (core_of plan.old) (core_of plan.new) }
    ensures rests { result.code ≡ NO_JOB
        → OnCores (IsAtRest now) (core_of plan.old) (core_of plan.new) }
    ensures nothing { result.code ≢ DONE → SaysNothing result }
    ensures unchanged { result.code ≢ DONE → result.code ≢ NO_JOB → plan.new ≡ plan.old }
{
    if !plan.is_open() {
        return refused(NOT_OPEN);
    }
    next(&mut plan.at.get_mut().scheduler, now)
}
