//! How an answer about a job is made.
//!
//! An answer is large. These functions are parts of their callers, so that it is written once.

ghost use Rattle.std.specs.Prelude.{◌≡◌, ℕ, ◌+◌, ◌<◌};
ghost use Rattle.sched_law.specs.declared.job.Place.TheVariants.{Waiting};
ghost use Rattle.sched_law.specs.declared.job.SchedWait.{SchedWait as WaitData};
ghost use Rattle.sched_law.specs.State.{Sched};
ghost use Rattle.sched_core.specs.Shows.{IsTaken, ShowsCore, job_arrival, job_place, slots_of, submitted_of};
ghost use Rattle.sched_core.specs.Answers.{IsWaitForecast};
ghost use Rattle.cubejobs_plan.specs.Answers.{HasNumbers, IsAnswer, IsBefore, IsListed, SaysNothing, SaysQueued, SaysRuns};

use crate::answer::PlanJob;
use crate::codes::DONE;
use crate::states::{RESERVED, RUNS, WAITS};
use sched_core::{Forecast, NEVER, Place, SchedJob, SchedRun, Scheduler};

// The names of a job, and how many waiting jobs come before it.
#[derive(Clone, Copy)]
struct Names {
    ticket: u64,
    arrival: u64,
    before: u64,
}

// Where a job is, and until when.
#[derive(Clone, Copy)]
struct Spot {
    state: u32,
    base: u64,
    dim: u32,
    time: u64,
}

// Makes the answer of a refused call.
pub(crate) fn refused(code: u32) -> PlanJob
    ensures code { result.code ≡ code }
    ensures nothing { SaysNothing result }
{
    PlanJob {
        code,
        state: 0,
        ticket: 0,
        payload: 0,
        base: 0,
        time: 0,
        before: 0,
        arrival: 0,
        processors: 0,
        dim: 0,
        job_class: 0,
    }
}

// Makes the answer about a job at a spot.
#[inline(always)]
fn answer_of(names: Names, job: SchedJob, spot: Spot) -> PlanJob
    ensures code { result.code ≡ DONE }
    ensures ticket { result.ticket ≡ names.ticket }
    ensures arrival { result.arrival ≡ names.arrival }
    ensures numbers { HasNumbers job result }
    ensures state { result.state ≡ spot.state }
    ensures base { result.base ≡ spot.base }
    ensures dim { result.dim ≡ spot.dim }
    ensures time { result.time ≡ spot.time }
    ensures before { result.before ≡ names.before }
{
    PlanJob {
        code: DONE,
        state: spot.state,
        ticket: names.ticket,
        payload: job.payload,
        base: spot.base,
        time: spot.time,
        before: names.before,
        arrival: names.arrival,
        processors: job.processors,
        dim: spot.dim,
        job_class: job.class as u32,
    }
}

// Makes the answer about a running job.
#[inline(always)]
fn running(names: Names, run: SchedRun) -> PlanJob
    ensures code { result.code ≡ DONE }
    ensures ticket { result.ticket ≡ names.ticket }
    ensures arrival { result.arrival ≡ names.arrival }
    ensures numbers { HasNumbers run.job result }
    ensures runs { SaysRuns run result }
    ensures before { result.before ≡ names.before }
{
    let spot = Spot {
        state: RUNS,
        base: run.block.base,
        dim: run.block.dim,
        time: run.end,
    };
    answer_of(names, run.job, spot)
}

// Makes the answer about a waiting job with this forecast.
#[inline(always)]
fn waiting(names: Names, job: SchedJob, forecast: Forecast) -> PlanJob
    ensures code { result.code ≡ DONE }
    ensures ticket { result.ticket ≡ names.ticket }
    ensures arrival { result.arrival ≡ names.arrival }
    ensures numbers { HasNumbers job result }
    ensures queued { (w : Sched) (j : ℕ) → IsWaitForecast w j forecast
        → SaysQueued w j job result }
    ensures before { result.before ≡ names.before }
{
    if let Forecast::Promised(block, time) = forecast {
        let spot = Spot {
            state: RESERVED,
            base: block.base,
            dim: block.dim,
            time,
        };
        return answer_of(names, job, spot);
    }
    let spot = Spot {
        state: WAITS,
        base: 0,
        dim: job.dim as u32,
        time: NEVER,
    };
    answer_of(names, job, spot)
}

// Returns the answer about the job of a slot, with this number of jobs before it.
#[inline(always)]
fn described(scheduler: &Scheduler, slot: u32, before: u64) -> PlanJob
    requires inside { slot < slots_of scheduler.now }
    requires job { IsTaken scheduler.now slot }
    ensures code { result.code ≡ DONE }
    ensures listed { (w : Sched) → ShowsCore w scheduler.now
        → IsListed w scheduler.now slot result }
    ensures before { result.before ≡ before }
{
    let names = Names {
        ticket: scheduler.ticket(slot),
        arrival: scheduler.arrival(slot),
        before,
    };
    let place = scheduler.place(slot);
    if let Place::Running(run) = place {
        return running(names, run);
    }
    let Place::Waiting(wait) = place else {
        unreachable!()
    };
    waiting(names, wait.job, scheduler.forecast(slot))
}

// Returns the answer about the job of a slot, except how many come before it.
pub(crate) fn listed(scheduler: &Scheduler, slot: u32) -> PlanJob
    requires inside { slot < slots_of scheduler.now }
    requires job { IsTaken scheduler.now slot }
    ensures code { result.code ≡ DONE }
    ensures listed { (w : Sched) → ShowsCore w scheduler.now
        → IsListed w scheduler.now slot result }
    ensures before { result.before ≡ 0 }
{
    described(scheduler, slot, 0)
}

// Returns how many waiting jobs come before that of a slot.
#[inline(always)]
fn before(scheduler: &Scheduler, slot: u32) -> u64
    requires inside { slot < slots_of scheduler.now }
    requires job { IsTaken scheduler.now slot }
    ensures { (w : Sched) → ShowsCore w scheduler.now
        → IsBefore w (job_arrival scheduler.now slot) (job_place scheduler.now slot) result }
{
    let Place::Waiting(_) = scheduler.place(slot) else {
        return 0;
    };
    scheduler.before(slot)
}

// Returns the answer about the job of a slot.
#[inline(always)]
pub(crate) fn answer_at(scheduler: &Scheduler, slot: u32) -> PlanJob
    requires inside { slot < slots_of scheduler.now }
    requires job { IsTaken scheduler.now slot }
    ensures code { result.code ≡ DONE }
    ensures answer { (w : Sched) → ShowsCore w scheduler.now
        → IsAnswer w scheduler.now slot result }
{
    described(scheduler, slot, before(scheduler, slot))
}

/// Returns the answer about the job of a slot, which waits, and was submitted last.
pub(crate) fn answer_at_last(scheduler: &Scheduler, slot: u32) -> PlanJob
    requires inside { slot < slots_of scheduler.now }
    requires job { (wait : WaitData) × (job_place scheduler.now slot ≡ Waiting wait) }
    requires last { job_arrival scheduler.now slot + 1 ≡ submitted_of scheduler.now }
    ensures code { result.code ≡ DONE }
    ensures answer { (w : Sched) → ShowsCore w scheduler.now
        → IsAnswer w scheduler.now slot result }
{
    described(scheduler, slot, scheduler.before_last(slot))
}
