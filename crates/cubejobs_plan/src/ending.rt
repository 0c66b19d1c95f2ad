//! How a job is over: it is cancelled, or has ended.

ghost use Rattle.std.specs.Prelude.{◌≡◌, ◌≢◌, ◌⊎◌};
ghost use Rattle.cubejobs_plan.specs.Answers.{SaysNothing};
ghost use Rattle.cubejobs_plan.specs.Jobs.{HasNoJobWith, HasRunningWith, HasWaitingWith, IsCancelled, IsFinished};

use crate::answer::PlanJob;
use crate::answers::{answer_at, refused};
use crate::codes::{DONE, NO_JOB, WRONG_STATE};
use sched_core::{Place, Scheduler};

/// Takes a job back that waits.
pub(crate) fn cancel(scheduler: &mut Scheduler, ticket: u64) -> PlanJob
    ensures codes { (result.code ≡ DONE) ⊎ (result.code ≡ NO_JOB) ⊎ (result.code ≡ WRONG_STATE) }
    ensures no_job { result.code ≡ NO_JOB → HasNoJobWith ticket scheduler.old }
    ensures wrong_state { result.code ≡ WRONG_STATE → HasRunningWith ticket scheduler.old }
    ensures cancelled { result.code ≡ DONE
        → IsCancelled ticket result scheduler.old scheduler.new }
    ensures nothing { result.code ≢ DONE → SaysNothing result }
    ensures unchanged { result.code ≢ DONE → scheduler.new ≡ scheduler.old }
{
    let Some(slot) = scheduler.find(ticket) else {
        return refused(NO_JOB);
    };
    let Place::Waiting(_) = scheduler.place(slot) else {
        return refused(WRONG_STATE);
    };
    let answer = answer_at(scheduler, slot);
    scheduler.cancel(slot);
    answer
}

/// Says that a job that ran has ended.
pub(crate) fn finish(scheduler: &mut Scheduler, ticket: u64) -> PlanJob
    ensures codes { (result.code ≡ DONE) ⊎ (result.code ≡ NO_JOB) ⊎ (result.code ≡ WRONG_STATE) }
    ensures no_job { result.code ≡ NO_JOB → HasNoJobWith ticket scheduler.old }
    ensures wrong_state { result.code ≡ WRONG_STATE → HasWaitingWith ticket scheduler.old }
    ensures finished { result.code ≡ DONE
        → IsFinished ticket result scheduler.old scheduler.new }
    ensures nothing { result.code ≢ DONE → SaysNothing result }
    ensures unchanged { result.code ≢ DONE → scheduler.new ≡ scheduler.old }
{
    let Some(slot) = scheduler.find(ticket) else {
        return refused(NO_JOB);
    };
    let Place::Running(_) = scheduler.place(slot) else {
        return refused(WRONG_STATE);
    };
    let answer = answer_at(scheduler, slot);
    scheduler.finish(slot);
    answer
}
