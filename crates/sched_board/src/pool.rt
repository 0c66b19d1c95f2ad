//! A scheduler and its workers as one value.

ghost use Rattle.std.specs.Prelude.{◌≡◌, ◌≢◌, ℕ, ◌+◌, ◌<◌, ◌≤◌, ◌⊎◌, ◌↔◌, Some, None, IsOk, IsTrue, IsFalse, IfOk, OnOk, IfSome, IfNone};
ghost use Rattle.cube_shape.specs.Region.{IsAligned};
ghost use Rattle.sched_law.specs.declared.job.TheConstants.{NEVER as LAST};
ghost use Rattle.sched_law.specs.declared.job.Place.TheVariants.{Absent, Waiting as Queued, Running};
ghost use Rattle.sched_law.specs.declared.job.SchedWait.{SchedWait as WaitData};
ghost use Rattle.sched_law.specs.declared.job.SchedRun.{SchedRun as RunData};
ghost use Rattle.sched_law.specs.State.{Sched, IsVacant, at, cancel, finish, initial, occupy, submit, vacate};
ghost use Rattle.sched_law.specs.Policy.{Decides};
ghost use Rattle.sched_law.specs.Law.{IsSound};
ghost use Rattle.fixed_vec.specs.Spending.{HasWords, Spends};
ghost use Rattle.sched_core.specs.Shows.{HasSameJobs, IsSpent, IsTaken, KeepsGenerations, KeepsOthers, KeepsSlots, ShowsCore, dim_of, job_arrival, job_generation, job_place, slots_of, submitted_of};
ghost use Rattle.sched_core.specs.Answers.{answer_of};
ghost use Rattle.sched_board.specs.declared.workers.PoolWorker.TheVariants.{Away, Waiting, Busy};
ghost use Rattle.sched_board.specs.Pool.{HasNoneIdle, HasSameCore, HasSameWorkers, IsFirstIdle, IsStaffed, KeepsWorkers, pool_words, worker_in, workers_of};

use crate::workers::{MAX_WORKERS, PoolWorker, first_waiting, put_state, state_at};
use fixed_vec::{FixedVec, Store};
use sched_core::{CLASSES, MAX_BITMAP_DIM, MAX_GENERATION, MAX_SLOTS, Region, SchedJob, Scheduler};
use std::alloc::AllocError;
use std::marker::Model;

/// A scheduler with workers. Each job that runs has exactly one worker.
#[derive(Drop)]
pub struct Pool {
    scheduler: Scheduler,
    workers: FixedVec<PoolWorker>,
    /// No worker below this number waits.
    first: u32,
}

impl Model for Pool {
    ghost use Rattle.std.specs.Coded.{codes};
    ghost use Rattle.sched_blocks.specs.Layout.{layout_code};
    ghost use Rattle.sched_board.specs.Pool.{IsPool, PoolData};

    ghost Value = { PoolData };

    ghost coded = { Prim.hlevel (codes, layout_code) };

    ghost view = { λ a. record {
      core = a.scheduler;
      workers = a.workers.items;
      first = a.first;
    } };

    ghost invariant = { λ a. IsPool (record {
      core = a.scheduler;
      workers = a.workers.items;
      first = a.first;
    }) };
}

impl Pool {
    /// Creates a scheduler as `Scheduler::new` does, and this number of workers, which are away.
    pub fn new(
        store: &mut Store,
        dim: u32,
        capacity: usize,
        patience: u32,
        workers: u32,
    ) -> Result<Self, AllocError>
        requires dim { dim ≤ MAX_BITMAP_DIM }
        requires capacity { capacity ≤ MAX_SLOTS }
        requires workers { workers ≤ MAX_WORKERS }
        ensures slots { IfOk result (λ made. slots_of made.core ≡ capacity) }
        ensures shows { IfOk result (λ made. ShowsCore (initial dim patience) made.core) }
        ensures workers { IfOk result (λ made. workers_of made ≡ workers) }
        ensures away { IfOk result (λ made. (u : ℕ) → worker_in made u ≡ Away) }
        ensures spends { OnOk result (Spends (pool_words dim capacity workers)
            store.old store.new) }
        ensures enough { HasWords (pool_words dim capacity workers) store.old → IsOk result }
    {
        let scheduler = Scheduler::new(store, dim, capacity, patience)?;
        let count = workers as usize;
        let workers = store.filled(PoolWorker::Away, count, count)?;
        Ok(Pool {
            scheduler,
            workers,
            first: 0,
        })
    }

    /// Returns the scheduler, to read it.
    pub fn scheduler(&self) -> &Scheduler
        ensures { result.now ≡ self.now.core }
    {
        &self.scheduler
    }

    /// Returns how many workers there are.
    pub fn workers(&self) -> u32
        ensures count { result ≡ workers_of self.now }
        ensures limit { result ≤ MAX_WORKERS }
    {
        self.workers.len() as u32
    }

    /// Returns what a worker does.
    pub fn worker(&self, number: u32) -> PoolWorker
        requires { number < workers_of self.now }
        ensures { result ≡ worker_in self.now number }
    {
        state_at(&self.workers, number)
    }

    /// Says that each job that a worker has runs, and that each job that runs has exactly one
    /// worker.
    pub fn is_staffed(&self)
        ensures { IsStaffed self.now.core self.now.workers }
    {
        let _workers = &self.workers;
    }

    /// Adds a waiting job, as `Scheduler::submit` does, and returns its slot.
    pub fn submit(&mut self, job: SchedJob) -> Option<u32>
        requires sound { IsSound (dim_of self.old.core) job }
        requires class { job.class < CLASSES }
        requires next { submitted_of self.old.core < LAST }
        ensures workers { HasSameWorkers self.old self.new }
        ensures slots { slots_of self.new.core ≡ slots_of self.old.core }
        ensures unchanged { IfNone result (HasSameCore self.old self.new) }
        ensures full { IfNone result ((slot : ℕ) → slot < slots_of self.old.core
            → IsTaken self.old.core slot ⊎ IsSpent self.old.core slot) }
        ensures inside { IfSome result (λ slot. slot < slots_of self.new.core) }
        ensures free { IfSome result (λ slot. IsTaken self.old.core slot → ⊥) }
        ensures unspent { IfSome result (λ slot. job_generation self.old.core slot
            < MAX_GENERATION) }
        ensures generation { IfSome result (λ slot. job_generation self.new.core slot
            ≡ job_generation self.old.core slot + 1) }
        ensures generations { IfSome result (λ slot. (u : ℕ) → u ≢ slot
            → job_generation self.new.core u ≡ job_generation self.old.core u) }
        ensures place { IfSome result (λ slot. job_place self.new.core slot
            ≡ Queued (record { job = job; passed = 0 })) }
        ensures arrival { IfSome result (λ slot. job_arrival self.new.core slot
            ≡ submitted_of self.old.core) }
        ensures submitted { IfSome result (λ slot. submitted_of self.new.core
            ≡ submitted_of self.old.core + 1) }
        ensures others { IfSome result (KeepsOthers self.old.core self.new.core) }
        ensures shows { (w : Sched) → ShowsCore w self.old.core
            → IfSome result (λ slot. ShowsCore (submit job w) self.new.core) }
    {
        self.scheduler.submit(job)
    }

    /// Removes a waiting job. A block that was reserved for it is so no more.
    pub fn cancel(&mut self, slot: u32)
        requires inside { slot < slots_of self.old.core }
        requires job { (wait : WaitData) × (job_place self.old.core slot ≡ Queued wait) }
        ensures workers { HasSameWorkers self.old self.new }
        ensures slots { slots_of self.new.core ≡ slots_of self.old.core }
        ensures place { job_place self.new.core slot ≡ Absent }
        ensures generations { KeepsGenerations self.old.core self.new.core }
        ensures others { KeepsOthers self.old.core self.new.core slot }
        ensures shows { (w : Sched) → ShowsCore w self.old.core
            → ShowsCore (cancel (job_arrival self.old.core slot) w) self.new.core }
    {
        self.scheduler.cancel(slot);
    }

    /// Takes a block out of service, as `Scheduler::occupy` does.
    pub fn occupy(&mut self, region: Region) -> bool
        requires block { IsAligned (dim_of self.old.core) region }
        ensures workers { HasSameWorkers self.old self.new }
        ensures vacant { (w : Sched) → ShowsCore w self.old.core
            → IsTrue result ↔ IsVacant w region }
        ensures unchanged { IsFalse result → HasSameCore self.old self.new }
        ensures jobs { HasSameJobs self.old.core self.new.core }
        ensures shows { (w : Sched) → ShowsCore w self.old.core → IsVacant w region
            → ShowsCore (occupy region w) self.new.core }
    {
        self.scheduler.occupy(region)
    }

    /// Puts a block back into service, as `Scheduler::vacate` does.
    pub fn vacate(&mut self, region: Region) -> bool
        ensures workers { HasSameWorkers self.old self.new }
        ensures out { (w : Sched) → ShowsCore w self.old.core
            → IsTrue result ↔ (w.occupied region.base ≡ Some region) }
        ensures unchanged { IsFalse result → HasSameCore self.old self.new }
        ensures jobs { HasSameJobs self.old.core self.new.core }
        ensures shows { (w : Sched) → ShowsCore w self.old.core
            → w.occupied region.base ≡ Some region
            → ShowsCore (vacate region w) self.new.core }
    {
        self.scheduler.vacate(region)
    }

    /// Lets a worker wait that is away.
    pub fn ask(&mut self, worker: u32)
        requires inside { worker < workers_of self.old }
        requires away { worker_in self.old worker ≡ Away }
        ensures core { HasSameCore self.old self.new }
        ensures count { workers_of self.new ≡ workers_of self.old }
        ensures waits { worker_in self.new worker ≡ Waiting }
        ensures others { KeepsWorkers self.old self.new worker }
    {
        put_state(&mut self.workers, worker, PoolWorker::Waiting);
        self.first = self.first.min(worker);
    }

    /// Lets a worker wait no longer.
    pub fn leave(&mut self, worker: u32)
        requires inside { worker < workers_of self.old }
        requires waits { worker_in self.old worker ≡ Waiting }
        ensures core { HasSameCore self.old self.new }
        ensures count { workers_of self.new ≡ workers_of self.old }
        ensures away { worker_in self.new worker ≡ Away }
        ensures others { KeepsWorkers self.old self.new worker }
    {
        put_state(&mut self.workers, worker, PoolWorker::Away);
    }

    /// Removes the job that a worker has. Its block is vacant then, and the worker is away.
    pub fn finish(&mut self, worker: u32)
        requires inside { worker < workers_of self.old }
        requires busy { (slot : ℕ) × (worker_in self.old worker ≡ Busy slot) }
        ensures count { workers_of self.new ≡ workers_of self.old }
        ensures away { worker_in self.new worker ≡ Away }
        ensures others { KeepsWorkers self.old self.new worker }
        ensures slots { slots_of self.new.core ≡ slots_of self.old.core }
        ensures generations { KeepsGenerations self.old.core self.new.core }
        ensures place { (slot : ℕ) → worker_in self.old worker ≡ Busy slot
            → job_place self.new.core slot ≡ Absent }
        ensures other_jobs { (slot : ℕ) → worker_in self.old worker ≡ Busy slot
            → KeepsOthers self.old.core self.new.core slot }
        ensures shows { (slot : ℕ) (w : Sched) → worker_in self.old worker ≡ Busy slot
            → ShowsCore w self.old.core
            → ShowsCore (finish (job_arrival self.old.core slot) w) self.new.core }
    {
        let PoolWorker::Busy(slot) = state_at(&self.workers, worker) else {
            return;
        };
        self.scheduler.finish(slot);
        put_state(&mut self.workers, worker, PoolWorker::Away);
    }

    /// Starts the job that comes next at this time, and gives it to the first worker that waits.
    /// Returns this worker. Returns `None` if no worker waits, or if no job may start; then a block
    /// may have been reserved.
    pub fn assign(&mut self, now: u64) -> Option<u32>
        ensures count { workers_of self.new ≡ workers_of self.old }
        ensures slots { slots_of self.new.core ≡ slots_of self.old.core }
        ensures generations { KeepsGenerations self.old.core self.new.core }
        ensures keeps { KeepsSlots self.old.core self.new.core }
        ensures first { IfSome result (IsFirstIdle self.old) }
        ensures others { IfSome result (KeepsWorkers self.old self.new) }
        ensures starts { (w : Sched) → ShowsCore w self.old.core → IfSome result (λ u. (slot : ℕ)
            × ((v : Sched) × ((worker_in self.new u ≡ Busy slot)
            × Decides (at now w) (answer_of self.new.core (Some slot)) v
            × ShowsCore v self.new.core))) }
        ensures same { IfNone result (HasSameWorkers self.old self.new) }
        ensures idle { HasNoneIdle self.old → HasSameCore self.old self.new }
        ensures none { (w : Sched) → ShowsCore w self.old.core → IfNone result (
            (HasNoneIdle self.old × HasSameCore self.old self.new)
            ⊎ ((v : Sched) × (Decides (at now w) None v × ShowsCore v self.new.core))) }
    {
        let Some(worker) = first_waiting(&self.workers, self.first) else {
            return None;
        };
        self.scheduler.shows_a_state();
        let Some(slot) = self.scheduler.next(now) else {
            return None;
        };
        put_state(&mut self.workers, worker, PoolWorker::Busy(slot));
        self.first = worker;
        Some(worker)
    }
}
