//! Calls that look at jobs and change nothing.

ghost use Rattle.std.specs.Prelude.{◌≡◌, ◌≢◌, ◌⊎◌};
ghost use Rattle.cubejobs_plan.specs.Answers.{SaysNothing};
ghost use Rattle.cubejobs_plan.specs.Jobs.{HasNoJobWith, IsFound};
ghost use Rattle.cubejobs_plan.specs.Looks.{HasNoneAfter, IsAfter, slot_after};

use crate::answer::PlanJob;
use crate::answers::{answer_at, listed, refused};
use crate::codes::{DONE, NO_JOB};
use sched_core::{MAX_SLOTS, Scheduler};

/// Says where a job is.
pub(crate) fn forecast(scheduler: &Scheduler, ticket: u64) -> PlanJob
    ensures codes { (result.code ≡ DONE) ⊎ (result.code ≡ NO_JOB) }
    ensures no_job { result.code ≡ NO_JOB → HasNoJobWith ticket scheduler.now }
    ensures found { result.code ≡ DONE → IsFound ticket result scheduler.now }
    ensures nothing { result.code ≢ DONE → SaysNothing result }
{
    let Some(slot) = scheduler.find(ticket) else {
        return refused(NO_JOB);
    };
    answer_at(scheduler, slot)
}

// Returns the slot after that of a ticket.
fn after_ticket(ticket: u64) -> u32
    ensures { result ≡ slot_after ticket }
{
    if ticket == 0 {
        return 0;
    }
    (ticket % MAX_SLOTS as u64) as u32 + 1
}

/// Returns the first job in a slot after that of a ticket.
pub(crate) fn after(scheduler: &Scheduler, ticket: u64) -> PlanJob
    ensures codes { (result.code ≡ DONE) ⊎ (result.code ≡ NO_JOB) }
    ensures no_job { result.code ≡ NO_JOB → HasNoneAfter ticket scheduler.now }
    ensures next { result.code ≡ DONE → IsAfter ticket result scheduler.now }
    ensures nothing { result.code ≢ DONE → SaysNothing result }
{
    let Some(slot) = scheduler.next_used(after_ticket(ticket)) else {
        return refused(NO_JOB);
    };
    listed(scheduler, slot)
}
