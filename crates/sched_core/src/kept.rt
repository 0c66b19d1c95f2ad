//! The scheduler for callers that keep it.

ghost use Rattle.std.specs.Prelude.{◌≡◌, ◌≢◌, ℕ, ◌+◌, ◌^◌, ◌<◌, ◌≤◌, ◌⊎◌, ◌↔◌, Some, IsOk, IsTrue, IsFalse, IfOk, OnOk, IfSome, IfNone};
ghost use Rattle.cube_shape.specs.Region.{IsAligned};
ghost use Rattle.cube_shape.specs.Falling.{IsHeld};
ghost use Rattle.alloc_bits.specs.Count.{IsCount};
ghost use Rattle.sched_law.specs.declared.job.TheConstants.{NEVER as LAST};
ghost use Rattle.sched_law.specs.declared.job.Place.TheVariants.{Absent, Waiting, Running};
ghost use Rattle.sched_law.specs.declared.job.SchedWait.{SchedWait as WaitData};
ghost use Rattle.sched_law.specs.declared.job.SchedRun.{SchedRun as RunData};
ghost use Rattle.sched_law.specs.State.{Sched, IsVacant, at, cancel, finish, held, initial, occupy, submit, vacate};
ghost use Rattle.sched_law.specs.Policy.{Decides, HasNone};
ghost use Rattle.sched_law.specs.Law.{IsSound};
ghost use Rattle.sched_jobs.specs.Counts.{DoesRun, DoesWait, WaitsBefore};
ghost use Rattle.sched_jobs.specs.Sums.{asked};
ghost use Rattle.fixed_vec.specs.Spending.{HasWords, Spends};
ghost use Rattle.sched_core.specs.Shows.{HasNoneTaken, HasSameJobs, IsNextTaken, IsSpent, IsTaken, KeepsGenerations, KeepsOtherJobs, KeepsOthers, KeepsSlots, ShowsCore, core_words, dim_of, job_arrival, job_generation, job_place, job_ticket, slots_of, submitted_of, time_of};
ghost use Rattle.sched_core.specs.Answers.{ComesBefore, IsAnnounced, IsForecast, answer_of};

use crate::assigned::{Assigned, Forecast};
use crate::scheduler::Core;
use cube_shape::{MAX_BITMAP_DIM, Region};
use fixed_vec::Store;
use sched_jobs::{CLASSES, MAX_GENERATION, MAX_SLOTS};
use sched_law::{Place, SchedJob};
use std::alloc::AllocError;
use std::marker::Model;

/// A scheduler that shows a state of `sched_law` at each call. So no call requires that.
#[derive(Drop)]
pub struct Scheduler {
    core: Core,
}

impl Model for Scheduler {
    ghost use Rattle.std.specs.Coded.{codes};
    ghost use Rattle.sched_law.specs.State.{Sched};
    ghost use Rattle.sched_blocks.specs.Layout.{layout_code};
    ghost use Rattle.sched_core.specs.declared.scheduler.Core.{Core as CoreData};
    ghost use Rattle.sched_core.specs.Shows.{ShowsCore};

    ghost Value = { CoreData };

    ghost coded = { Prim.hlevel (codes, layout_code) };

    ghost view = { λ a. a.core };

    ghost invariant = { λ a. (w : Sched) × ShowsCore w a.core };
}

impl Scheduler {
    /// Creates a scheduler of a machine of dimension `dim`, for this many jobs, without a job, in
    /// memory of a store. If `patience` times the machine has passed the head, a block is reserved
    /// for it in any case.
    pub fn new(
        store: &mut Store,
        dim: u32,
        capacity: usize,
        patience: u32,
    ) -> Result<Self, AllocError>
        requires dim { dim ≤ MAX_BITMAP_DIM }
        requires capacity { capacity ≤ MAX_SLOTS }
        ensures slots { IfOk result (λ made. slots_of made ≡ capacity) }
        ensures shows { IfOk result (ShowsCore (initial dim patience)) }
        ensures spends { OnOk result (Spends (core_words dim capacity) store.old store.new) }
        ensures enough { HasWords (core_words dim capacity) store.old → IsOk result }
    {
        let core = Core::new(store, dim, capacity, patience)?;
        Ok(Scheduler { core })
    }

    /// Returns the dimension of the machine.
    pub fn dim(&self) -> u32
        ensures dim { result ≡ dim_of self.now }
        ensures shown { (w : Sched) → ShowsCore w self.now → result ≡ w.dim }
        ensures limit { result ≤ MAX_BITMAP_DIM }
    {
        self.core.dim()
    }

    /// Returns the time of the last decision.
    pub fn now(&self) -> u64
        ensures time { result ≡ time_of self.now }
        ensures shown { (w : Sched) → ShowsCore w self.now → result ≡ w.now }
    {
        self.core.now()
    }

    /// Returns how many times the machine passes a job before a block without a known promise is
    /// reserved for it.
    pub fn patience(&self) -> u32
        ensures { (w : Sched) → ShowsCore w self.now → result ≡ w.patience }
    {
        self.core.patience()
    }

    /// Returns how many jobs there may be that are not over.
    pub fn capacity(&self) -> usize
        ensures { result ≡ slots_of self.now }
    {
        self.core.capacity()
    }

    /// Returns how many jobs were submitted, which is the number of the next one.
    pub fn submitted(&self) -> u64
        ensures submitted { result ≡ submitted_of self.now }
        ensures shown { (w : Sched) → ShowsCore w self.now → result ≡ w.next }
    {
        self.core.submitted()
    }

    /// Returns where the job of a slot is.
    pub fn place(&self, slot: u32) -> Place
        requires { slot < slots_of self.now }
        ensures { result ≡ job_place self.now slot }
    {
        self.core.place(slot)
    }

    /// Returns the number of a slot's job.
    pub fn arrival(&self, slot: u32) -> u64
        requires inside { slot < slots_of self.now }
        ensures { result ≡ job_arrival self.now slot }
    {
        self.core.arrival(slot)
    }

    /// Returns a name for a slot's job, which no other job ever has. It is not 0.
    pub fn ticket(&self, slot: u32) -> u64
        requires inside { slot < slots_of self.now }
        ensures ticket { result ≡ job_ticket self.now slot }
        ensures some { IsTaken self.now slot → 0 < result }
    {
        self.core.ticket(slot)
    }

    /// Returns the slot of the job with a ticket, if it is not over.
    pub fn find(&self, ticket: u64) -> Option<u32>
        ensures found { IfSome result (λ slot. slot < slots_of self.now
            × IsTaken self.now slot × (ticket ≡ job_ticket self.now slot)) }
        ensures none { IfNone result ((slot : ℕ) → slot < slots_of self.now
            → IsTaken self.now slot → ticket ≡ job_ticket self.now slot → ⊥) }
    {
        self.core.find(ticket)
    }

    /// Returns the first slot from one on that has a job.
    pub fn next_used(&self, from: u32) -> Option<u32>
        ensures found { IfSome result (IsNextTaken self.now from) }
        ensures none { IfNone result (HasNoneTaken self.now from) }
    {
        self.core.next_used(from)
    }

    /// Returns how many jobs wait.
    pub fn waiting(&self) -> u64
        ensures { (w : Sched) → ShowsCore w self.now → IsCount (DoesWait w) w.next result }
    {
        self.core.waiting()
    }

    /// Returns how many jobs run.
    pub fn running(&self) -> u64
        ensures { (w : Sched) → ShowsCore w self.now → IsCount (DoesRun w) w.next result }
    {
        self.core.running()
    }

    /// Returns how many processors the running jobs use together. Their blocks may have more.
    pub fn asked(&self) -> u64
        ensures { (w : Sched) → ShowsCore w self.now → result ≡ asked w }
    {
        self.core.asked()
    }

    /// Returns how many waiting jobs come before the waiting job of a slot. They are of a lower
    /// class, or of its class with a lesser number.
    pub fn count_before(&self, slot: u32) -> u64
        requires inside { slot < slots_of self.now }
        requires job { (wait : WaitData) × (job_place self.now slot ≡ Waiting wait) }
        ensures { (w : Sched) (wait : WaitData) → ShowsCore w self.now
            → job_place self.now slot ≡ Waiting wait
            → IsCount (WaitsBefore w (job_arrival self.now slot) wait.job) w.next result }
    {
        self.core.count_before(slot)
    }

    /// Returns how many waiting jobs come before the waiting job of a slot. The reserved job comes
    /// before all others. The others come in order.
    pub fn before(&self, slot: u32) -> u64
        requires inside { slot < slots_of self.now }
        requires job { (wait : WaitData) × (job_place self.now slot ≡ Waiting wait) }
        ensures { (w : Sched) (wait : WaitData) → ShowsCore w self.now
            → job_place self.now slot ≡ Waiting wait
            → IsCount (ComesBefore w (job_arrival self.now slot) wait.job) w.next result }
    {
        self.core.before(slot)
    }

    /// Returns the same for the job that was submitted last.
    pub fn before_last(&self, slot: u32) -> u64
        requires inside { slot < slots_of self.now }
        requires job { (wait : WaitData) × (job_place self.now slot ≡ Waiting wait) }
        requires last { job_arrival self.now slot + 1 ≡ submitted_of self.now }
        ensures { (w : Sched) (wait : WaitData) → ShowsCore w self.now
            → job_place self.now slot ≡ Waiting wait
            → IsCount (ComesBefore w (job_arrival self.now slot) wait.job) w.next result }
    {
        self.core.before_last(slot)
    }

    /// Returns how many processors jobs hold.
    pub fn held(&self) -> u32
        ensures { (w : Sched) → ShowsCore w self.now
            → IsCount (IsHeld (held w)) (2 ^ w.dim) result }
    {
        self.core.held()
    }

    /// Returns how many processors are out of service.
    pub fn occupied(&self) -> u32
        ensures { (w : Sched) → ShowsCore w self.now
            → IsCount (IsHeld w.occupied) (2 ^ w.dim) result }
    {
        self.core.occupied()
    }

    /// Returns the largest dimension of a vacant block, or `None` if no processor is vacant.
    pub fn largest_vacant(&self) -> Option<u32>
        ensures dim { IfSome result (λ l. l ≤ dim_of self.now) }
        ensures largest { (w : Sched) → ShowsCore w self.now → IfSome result (λ l. (k : ℕ)
            → k ≤ w.dim → HasNone w.dim k (IsVacant w) ↔ (l < k)) }
        ensures none { (w : Sched) → ShowsCore w self.now → IfNone result ((k : ℕ)
            → k ≤ w.dim → HasNone w.dim k (IsVacant w)) }
    {
        self.core.largest_vacant()
    }

    /// Adds a waiting job, and returns its slot. Returns `None` only if each slot has a job or has
    /// had as many as it may have; then nothing changes.
    pub fn submit(&mut self, job: SchedJob) -> Option<u32>
        requires sound { IsSound (dim_of self.old) job }
        requires class { job.class < CLASSES }
        requires next { submitted_of self.old < LAST }
        ensures slots { slots_of self.new ≡ slots_of self.old }
        ensures unchanged { IfNone result (self.new ≡ self.old) }
        ensures full { IfNone result ((slot : ℕ) → slot < slots_of self.old
            → IsTaken self.old slot ⊎ IsSpent self.old slot) }
        ensures inside { IfSome result (λ slot. slot < slots_of self.new) }
        ensures free { IfSome result (λ slot. IsTaken self.old slot → ⊥) }
        ensures unspent { IfSome result (λ slot. job_generation self.old slot < MAX_GENERATION) }
        ensures generation { IfSome result (λ slot. job_generation self.new slot
            ≡ job_generation self.old slot + 1) }
        ensures generations { IfSome result (λ slot. (u : ℕ) → u ≢ slot
            → job_generation self.new u ≡ job_generation self.old u) }
        ensures place { IfSome result (λ slot. job_place self.new slot
            ≡ Waiting (record { job = job; passed = 0 })) }
        ensures arrival { IfSome result (λ slot. job_arrival self.new slot
            ≡ submitted_of self.old) }
        ensures submitted { IfSome result (λ slot. submitted_of self.new
            ≡ submitted_of self.old + 1) }
        ensures others { IfSome result (KeepsOthers self.old self.new) }
        ensures shows { (w : Sched) → ShowsCore w self.old
            → IfSome result (λ slot. ShowsCore (submit job w) self.new) }
    {
        self.core.submit(job)
    }

    /// Adds a waiting job in a slot. Returns false only if the slot has a job or has had as many as
    /// it may have; then nothing changes.
    pub fn submit_into(&mut self, slot: u32, job: SchedJob) -> bool
        requires inside { slot < slots_of self.old }
        requires sound { IsSound (dim_of self.old) job }
        requires class { job.class < CLASSES }
        requires next { submitted_of self.old < LAST }
        ensures slots { slots_of self.new ≡ slots_of self.old }
        ensures unchanged { IsFalse result → self.new ≡ self.old }
        ensures refused { IsFalse result → IsTaken self.old slot ⊎ IsSpent self.old slot }
        ensures free { IsTrue result → IsTaken self.old slot → ⊥ }
        ensures unspent { IsTrue result → job_generation self.old slot < MAX_GENERATION }
        ensures generation { IsTrue result → job_generation self.new slot
            ≡ job_generation self.old slot + 1 }
        ensures generations { (u : ℕ) → u ≢ slot
            → job_generation self.new u ≡ job_generation self.old u }
        ensures place { IsTrue result → job_place self.new slot
            ≡ Waiting (record { job = job; passed = 0 }) }
        ensures arrival { IsTrue result → job_arrival self.new slot ≡ submitted_of self.old }
        ensures others { KeepsOtherJobs self.old self.new slot }
        ensures shows { (w : Sched) → ShowsCore w self.old → IsTrue result
            → ShowsCore (submit job w) self.new }
    {
        self.core.submit_into(slot, job)
    }

    /// Removes a waiting job. A block that was reserved for it is so no more.
    pub fn cancel(&mut self, slot: u32)
        requires inside { slot < slots_of self.old }
        requires job { (wait : WaitData) × (job_place self.old slot ≡ Waiting wait) }
        ensures slots { slots_of self.new ≡ slots_of self.old }
        ensures place { job_place self.new slot ≡ Absent }
        ensures generations { KeepsGenerations self.old self.new }
        ensures others { KeepsOthers self.old self.new slot }
        ensures shows { (w : Sched) → ShowsCore w self.old
            → ShowsCore (cancel (job_arrival self.old slot) w) self.new }
    {
        self.core.cancel(slot);
    }

    /// Removes a running job, whose block is vacant then.
    pub fn finish(&mut self, slot: u32)
        requires inside { slot < slots_of self.old }
        requires job { (run : RunData) × (job_place self.old slot ≡ Running run) }
        ensures slots { slots_of self.new ≡ slots_of self.old }
        ensures place { job_place self.new slot ≡ Absent }
        ensures generations { KeepsGenerations self.old self.new }
        ensures others { KeepsOthers self.old self.new slot }
        ensures shows { (w : Sched) → ShowsCore w self.old
            → ShowsCore (finish (job_arrival self.old slot) w) self.new }
    {
        self.core.finish(slot);
    }

    /// Takes a block out of service. A reservation of a part of it ends. Returns false only if a
    /// part of the block is in use; then nothing changes.
    pub fn occupy(&mut self, region: Region) -> bool
        requires block { IsAligned (dim_of self.old) region }
        ensures vacant { (w : Sched) → ShowsCore w self.old
            → IsTrue result ↔ IsVacant w region }
        ensures unchanged { IsFalse result → self.new ≡ self.old }
        ensures jobs { HasSameJobs self.old self.new }
        ensures shows { (w : Sched) → ShowsCore w self.old → IsVacant w region
            → ShowsCore (occupy region w) self.new }
    {
        self.core.occupy(region)
    }

    /// Puts a block back into service. Returns false only if it is not out of service as one block;
    /// then nothing changes.
    pub fn vacate(&mut self, region: Region) -> bool
        ensures out { (w : Sched) → ShowsCore w self.old
            → IsTrue result ↔ (w.occupied region.base ≡ Some region) }
        ensures unchanged { IsFalse result → self.new ≡ self.old }
        ensures jobs { HasSameJobs self.old self.new }
        ensures shows { (w : Sched) → ShowsCore w self.old → w.occupied region.base ≡ Some region
            → ShowsCore (vacate region w) self.new }
    {
        self.core.vacate(region)
    }

    /// Starts the job that comes next at this time, and returns its slot. Returns `None` if no job
    /// may start; then a block may have been reserved. A state has only one decision, as
    /// `sched_law::decisions_are_one` says, so the clause `decides` fixes the job and the state.
    /// The laws of `sched_law` on promises hold if times never go back.
    pub fn next(&mut self, now: u64) -> Option<u32>
        ensures slots { slots_of self.new ≡ slots_of self.old }
        ensures inside { IfSome result (λ slot. slot < slots_of self.new) }
        ensures generations { KeepsGenerations self.old self.new }
        ensures keeps { KeepsSlots self.old self.new }
        ensures runs { IfSome result (λ slot. (run : RunData)
            × (job_place self.new slot ≡ Running run)) }
        ensures decides { (w : Sched) → ShowsCore w self.old → (v : Sched)
            × Decides (at now w) (answer_of self.new result) v × ShowsCore v self.new }
    {
        self.core.next(now)
    }

    /// Returns the job that `next` would start at this time, and its block. It starts nothing, but
    /// a block may be reserved as `next` would reserve it.
    pub fn peek(&mut self, now: u64) -> Option<Assigned>
        ensures jobs { HasSameJobs self.old self.new }
        ensures inside { IfSome result (λ it. it.slot < slots_of self.new) }
        ensures announces { (w : Sched) → ShowsCore w self.old → (v : Sched) × ((u : Sched)
            × (IsAnnounced (at now w) v u self.new result × ShowsCore v self.new)) }
    {
        self.core.peek(now)
    }

    /// Returns what is known of when and where the job of a slot runs.
    pub fn forecast(&self, slot: u32) -> Forecast
        requires inside { slot < slots_of self.now }
        ensures { (w : Sched) → ShowsCore w self.now
            → IsForecast w (job_arrival self.now slot) (job_place self.now slot) result }
    {
        self.core.forecast(slot)
    }

    /// Says that the scheduler shows a state.
    pub fn shows_a_state(&self)
        ensures { (w : Sched) × ShowsCore w self.now }
    {
        let _core = &self.core;
    }
}
