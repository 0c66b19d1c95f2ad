//! How much a planner has.

ghost use Rattle.std.specs.Prelude.{◌≡◌, ◌^◌, ◌≤◌};
ghost use Rattle.cube_shape.specs.declared.limits.TheConstants.{MAX_BITMAP_DIM};
ghost use Rattle.alloc_bits.specs.Count.{IsCount};
ghost use Rattle.sched_law.specs.State.{Sched};
ghost use Rattle.sched_jobs.specs.Counts.{DoesRun, DoesWait};
ghost use Rattle.sched_jobs.specs.Sums.{asked as asked_in};
ghost use Rattle.sched_core.specs.Shows.{ShowsCore};
ghost use Rattle.cubejobs_plan.specs.Counts.{IsCounted, IsLargest, CountsNothing};

use crate::answer::PlanCounts;
use crate::codes::DONE;
use sched_core::Scheduler;

// Makes the answer of a refused call.
pub(crate) fn uncounted(code: u32) -> PlanCounts
    ensures code { result.code ≡ code }
    ensures nothing { CountsNothing result }
{
    PlanCounts {
        code,
        waiting: 0,
        running: 0,
        held: 0,
        asked: 0,
        occupied: 0,
        largest: 0,
    }
}

// Returns how many jobs wait.
fn waiting(scheduler: &Scheduler) -> u32
    ensures { (w : Sched) → ShowsCore w scheduler.now → IsCount (DoesWait w) w.next result }
{
    scheduler.shows_a_state();
    scheduler.waiting() as u32
}

// Returns how many jobs run.
fn running(scheduler: &Scheduler) -> u32
    ensures { (w : Sched) → ShowsCore w scheduler.now → IsCount (DoesRun w) w.next result }
{
    scheduler.shows_a_state();
    scheduler.running() as u32
}

// Returns how many processors the running jobs asked for.
fn asked(scheduler: &Scheduler) -> u32
    ensures { (w : Sched) → ShowsCore w scheduler.now → result ≡ asked_in w }
{
    scheduler.shows_a_state();
    scheduler.asked() as u32
}

// Returns the number of processors of the largest vacant block, or 0.
fn largest(scheduler: &Scheduler) -> u32
    ensures { (w : Sched) → ShowsCore w scheduler.now → IsLargest w result }
{
    scheduler.shows_a_state();
    let Some(dim) = scheduler.largest_vacant() else {
        return 0;
    };
    1 << dim
}

/// Counts what a scheduler has.
pub(crate) fn counts(scheduler: &Scheduler) -> PlanCounts
    ensures code { result.code ≡ DONE }
    ensures counted { (w : Sched) → ShowsCore w scheduler.now → IsCounted w result }
{
    PlanCounts {
        code: DONE,
        waiting: waiting(scheduler),
        running: running(scheduler),
        held: scheduler.held(),
        asked: asked(scheduler),
        occupied: scheduler.occupied(),
        largest: largest(scheduler),
    }
}
