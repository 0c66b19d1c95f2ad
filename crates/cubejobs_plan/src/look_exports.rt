//! The functions of the library that look at jobs and count, under the names that C declares.
ghost use Rattle.std.specs.Prelude.{◌≡◌, ◌≢◌, ◌⊎◌, None, IsSome};
ghost use Rattle.cubejobs_plan.specs.Answers.{SaysNothing};
ghost use Rattle.cubejobs_plan.specs.Counts.{CountsNothing, HasCounts};
ghost use Rattle.cubejobs_plan.specs.Handle.{OnCore, core_of};
ghost use Rattle.cubejobs_plan.specs.Jobs.{HasNoJobWith, IsFound};
ghost use Rattle.cubejobs_plan.specs.Looks.{HasNoneAfter, IsAfter};

use crate::answer::{PlanCounts, PlanJob};
use crate::answers::refused;
use crate::codes::{DONE, NO_JOB, NOT_OPEN};
use crate::counting::{counts, uncounted};
use crate::handle::Handle;
use crate::looking::{after, forecast};

/// Says where a job is.
#[unsafe(no_mangle)]
pub extern "C" fn cubejobs_plan_forecast(plan: &mut Handle, ticket: u64) -> PlanJob
    ensures not_open { core_of plan.old ≡ None → result.code ≡ NOT_OPEN }
    ensures codes { IsSome (core_of plan.old)
        → (result.code ≡ DONE) ⊎ (result.code ≡ NO_JOB) }
    ensures no_job { result.code ≡ NO_JOB → OnCore (HasNoJobWith ticket) (core_of plan.old) }
    ensures found { result.code ≡ DONE → OnCore (IsFound ticket result) (core_of plan.old) }
    ensures nothing { result.code ≢ DONE → SaysNothing result }
    ensures unchanged { plan.new ≡ plan.old }
{
    if !plan.is_open() {
        return refused(NOT_OPEN);
    }
    forecast(&plan.at.get_mut().scheduler, ticket)
}

/// Returns the first job in a slot after that of a ticket.
#[unsafe(no_mangle)]
pub extern "C" fn cubejobs_plan_after(plan: &mut Handle, ticket: u64) -> PlanJob
    ensures not_open { core_of plan.old ≡ None → result.code ≡ NOT_OPEN }
    ensures codes { IsSome (core_of plan.old)
        → (result.code ≡ DONE) ⊎ (result.code ≡ NO_JOB) }
    ensures no_job { result.code ≡ NO_JOB → OnCore (HasNoneAfter ticket) (core_of plan.old) }
    ensures next { result.code ≡ DONE → OnCore (IsAfter ticket result) (core_of plan.old) }
    ensures nothing { result.code ≢ DONE → SaysNothing result }
    ensures unchanged { plan.new ≡ plan.old }
{
    if !plan.is_open() {
        return refused(NOT_OPEN);
    }
    after(&plan.at.get_mut().scheduler, ticket)
}

/// Counts jobs and processors.
#[unsafe(no_mangle)]
pub extern "C" fn cubejobs_plan_counts(plan: &mut Handle) -> PlanCounts
    ensures not_open { core_of plan.old ≡ None → result.code ≡ NOT_OPEN }
    ensures done { IsSome (core_of plan.old) → result.code ≡ DONE }
    ensures counted { result.code ≡ DONE → OnCore (HasCounts result) (core_of plan.old) }
    ensures nothing { result.code ≢ DONE → CountsNothing result }
    ensures unchanged { plan.new ≡ plan.old }
{
    if !plan.is_open() {
        return uncounted(NOT_OPEN);
    }
    counts(&plan.at.get_mut().scheduler)
}
