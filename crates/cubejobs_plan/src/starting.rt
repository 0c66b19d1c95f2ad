//! How the next job starts.

ghost use Rattle.std.specs.Prelude.{◌≡◌, ◌≢◌, ◌<◌, ◌≤◌, ◌⊎◌};
ghost use Rattle.sched_law.specs.declared.job.TheConstants.{NEVER as LAST};
ghost use Rattle.sched_core.specs.Shows.{time_of};
ghost use Rattle.cubejobs_plan.specs.Answers.{SaysNothing};
ghost use Rattle.cubejobs_plan.specs.Jobs.{IsAtRest, IsStarted};

use crate::answer::PlanJob;
use crate::answers::{answer_at, refused};
use crate::codes::{DONE, NO_JOB, OUT_OF_RANGE, TIME_BACK};
use sched_core::{NEVER, Scheduler};

/// Starts the job that comes next at this time.
pub(crate) fn next(scheduler: &mut Scheduler, now: u64) -> PlanJob
    ensures out_of_range { now ≡ LAST → result.code ≡ OUT_OF_RANGE }
    ensures time_back { now < LAST → now < time_of scheduler.old → result.code ≡ TIME_BACK }
    ensures decided { now < LAST → time_of scheduler.old ≤ now
        → (result.code ≡ DONE) ⊎ (result.code ≡ NO_JOB) }
    ensures started { result.code ≡ DONE → IsStarted now result scheduler.old scheduler.new }
    ensures rests { result.code ≡ NO_JOB → IsAtRest now scheduler.old scheduler.new }
    ensures nothing { result.code ≢ DONE → SaysNothing result }
    ensures unchanged { result.code ≢ DONE → result.code ≢ NO_JOB
        → scheduler.new ≡ scheduler.old }
{
    if now == NEVER {
        return refused(OUT_OF_RANGE);
    }
    if now < scheduler.now() {
        return refused(TIME_BACK);
    }
    let Some(slot) = scheduler.next(now) else {
        return refused(NO_JOB);
    };
    answer_at(scheduler, slot)
}
