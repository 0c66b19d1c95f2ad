//! What is known of a job's start and end, and which jobs come before it.

ghost use Rattle.std.specs.Prelude.{◌≡◌, ℕ, ◌+◌, ◌<◌, IsTrue, IsFalse};
ghost use Rattle.alloc_bits.specs.Count.{IsCount};
ghost use Rattle.sched_law.specs.declared.job.TheConstants.{NEVER as LAST};
ghost use Rattle.sched_law.specs.declared.job.Place.TheVariants.{Waiting};
ghost use Rattle.sched_law.specs.declared.job.SchedWait.{SchedWait as WaitData};
ghost use Rattle.sched_law.specs.State.{Sched};
ghost use Rattle.sched_law.specs.Policy.{Precedes};
ghost use Rattle.sched_jobs.specs.Counts.{WaitsBefore};
ghost use Rattle.sched_core.specs.Shows.{IsTaken, ShowsCore, job_arrival, job_place, slots_of, submitted_of};
ghost use Rattle.sched_core.specs.Answers.{ComesBefore, IsForecast, IsWaitForecast};

use crate::assigned::Forecast;
use crate::scheduler::Core;
use crate::small::precedes;
use sched_law::Place;

impl Core {
    // Returns what is known of a waiting job.
    fn promise(&self, slot: u32) -> Forecast
        requires { (w : Sched) × ShowsCore w self.now }
        ensures { (w : Sched) → ShowsCore w self.now → IsTaken self.now slot
            → IsWaitForecast w (job_arrival self.now slot) result }
    {
        let Some(kept) = self.reserved else {
            return Forecast::Queued;
        };
        if kept.slot != slot {
            return Forecast::Queued;
        }
        Forecast::Promised(kept.block, self.blocks.latest(kept.block))
    }

    /// Returns what is known of when and where the job of a slot runs.
    pub(crate) fn forecast(&self, slot: u32) -> Forecast
        requires shows { (w : Sched) × ShowsCore w self.now }
        requires inside { slot < slots_of self.now }
        ensures { (w : Sched) → ShowsCore w self.now
            → IsForecast w (job_arrival self.now slot) (job_place self.now slot) result }
    {
        let place = self.jobs.place(slot);
        if let Place::Running(run) = place {
            return Forecast::Started(run.block, run.end);
        }
        let Place::Waiting(_) = place else {
            return Forecast::Nothing;
        };
        self.promise(slot)
    }

    // Returns whether the waiting job of a slot comes before that of another slot in order.
    fn is_before(&self, first: u32, second: u32) -> bool
        requires shows { (w : Sched) × ShowsCore w self.now }
        requires first { first < slots_of self.now }
        requires second { second < slots_of self.now }
        ensures yes { (one other : WaitData) → job_place self.now first ≡ Waiting one
            → job_place self.now second ≡ Waiting other → IsTrue result
            → Precedes (job_arrival self.now first) one.job (job_arrival self.now second)
            other.job }
        ensures no { (one other : WaitData) → job_place self.now first ≡ Waiting one
            → job_place self.now second ≡ Waiting other → IsFalse result
            → Precedes (job_arrival self.now first) one.job (job_arrival self.now second)
            other.job → ⊥ }
    {
        let Place::Waiting(one) = self.jobs.place(first) else {
            return false;
        };
        let Place::Waiting(other) = self.jobs.place(second) else {
            return false;
        };
        let number = self.jobs.arrival(first);
        precedes(&one.job, number, &other.job, self.jobs.arrival(second))
    }

    // Returns how many waiting jobs come before that of a slot, where `before` do in order. The
    // reserved job comes before all others.
    fn before_with(&self, slot: u32, before: u64) -> u64
        requires shows { (w : Sched) × ShowsCore w self.now }
        requires inside { slot < slots_of self.now }
        requires job { (wait : WaitData) × (job_place self.now slot ≡ Waiting wait) }
        requires count { (w : Sched) (wait : WaitData) → ShowsCore w self.now
            → job_place self.now slot ≡ Waiting wait
            → IsCount (WaitsBefore w (job_arrival self.now slot) wait.job) w.next before }
        requires few { before < LAST }
        ensures { (w : Sched) (wait : WaitData) → ShowsCore w self.now
            → job_place self.now slot ≡ Waiting wait
            → IsCount (ComesBefore w (job_arrival self.now slot) wait.job) w.next result }
    {
        let Some(kept) = self.reserved else {
            return before;
        };
        if kept.slot == slot {
            return 0;
        }
        if self.is_before(kept.slot, slot) {
            return before;
        }
        before + 1
    }

    /// Returns how many waiting jobs come before the waiting job of a slot. The reserved job comes
    /// before all others.
    pub(crate) fn before(&self, slot: u32) -> u64
        requires shows { (w : Sched) × ShowsCore w self.now }
        requires inside { slot < slots_of self.now }
        requires job { (wait : WaitData) × (job_place self.now slot ≡ Waiting wait) }
        ensures { (w : Sched) (wait : WaitData) → ShowsCore w self.now
            → job_place self.now slot ≡ Waiting wait
            → IsCount (ComesBefore w (job_arrival self.now slot) wait.job) w.next result }
    {
        self.before_with(slot, self.jobs.count_before(slot))
    }

    /// Returns the same for the job that was submitted last.
    pub(crate) fn before_last(&self, slot: u32) -> u64
        requires shows { (w : Sched) × ShowsCore w self.now }
        requires inside { slot < slots_of self.now }
        requires job { (wait : WaitData) × (job_place self.now slot ≡ Waiting wait) }
        requires last { job_arrival self.now slot + 1 ≡ submitted_of self.now }
        ensures { (w : Sched) (wait : WaitData) → ShowsCore w self.now
            → job_place self.now slot ≡ Waiting wait
            → IsCount (ComesBefore w (job_arrival self.now slot) wait.job) w.next result }
    {
        self.before_with(slot, self.jobs.count_before_last(slot))
    }
}
