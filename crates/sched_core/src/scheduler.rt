//! The scheduler as a value, and the calls that start nothing.

ghost use Rattle.std.specs.Prelude.{◌≡◌, ◌≢◌, ℕ, ◌+◌, ◌^◌, ◌<◌, ◌≤◌, ◌⊎◌, ◌↔◌, Some, IsOk, IsTrue, IsFalse, IfOk, OnOk, IfSome, IfNone};
ghost use Rattle.cube_shape.specs.Region.{IsAligned};
ghost use Rattle.cube_shape.specs.Falling.{IsHeld};
ghost use Rattle.alloc_bits.specs.Count.{IsCount};
ghost use Rattle.sched_law.specs.declared.job.TheConstants.{NEVER as LAST};
ghost use Rattle.sched_law.specs.declared.job.Place.TheVariants.{Absent, Waiting, Running};
ghost use Rattle.sched_law.specs.declared.job.SchedWait.{SchedWait as WaitData};
ghost use Rattle.sched_law.specs.declared.job.SchedRun.{SchedRun as RunData};
ghost use Rattle.sched_law.specs.State.{Sched, IsVacant, cancel, finish, held, initial, occupy, submit, vacate};
ghost use Rattle.sched_law.specs.Policy.{HasNone};
ghost use Rattle.sched_law.specs.Law.{IsSound};
ghost use Rattle.sched_jobs.specs.Counts.{DoesRun, DoesWait, WaitsBefore};
ghost use Rattle.sched_jobs.specs.Sums.{asked};
ghost use Rattle.fixed_vec.specs.Spending.{HasWords, Spends};
ghost use Rattle.sched_core.specs.Shows.{HasNoneTaken, HasSameJobs, IsNextTaken, IsSpent, IsTaken, KeepsGenerations, KeepsOtherJobs, KeepsOthers, ShowsCore, core_words, dim_of, job_arrival, job_generation, job_place, job_ticket, slots_of, submitted_of, time_of};

use crate::assigned::Assigned;
use crate::small::{beside, forget};
use cube_shape::{MAX_BITMAP_DIM, Region};
use fixed_vec::Store;
use sched_blocks::Blocks;
use sched_jobs::{CLASSES, Jobs, MAX_GENERATION, MAX_SLOTS};
use sched_law::{Place, SchedJob};
use std::alloc::AllocError;

/// A scheduler of aligned blocks for one thread.
///
/// Only `new` takes memory.
#[derive(Drop)]
pub(crate) struct Core {
    pub(crate) blocks: Blocks,
    pub(crate) jobs: Jobs,
    pub(crate) reserved: Option<Assigned>,
    pub(crate) time: u64,
    pub(crate) patience: u32,
}

impl Core {
    /// Creates a scheduler of a machine of dimension `dim`, for this many jobs, without a job, in
    /// memory of a store. If `patience` times the machine has passed the head, a block is reserved
    /// for it in any case.
    pub(crate) fn new(
        store: &mut Store,
        dim: u32,
        capacity: usize,
        patience: u32,
    ) -> Result<Self, AllocError>
        requires dim { dim ≤ MAX_BITMAP_DIM }
        requires capacity { capacity ≤ MAX_SLOTS }
        ensures slots { IfOk result (λ made. slots_of made ≡ capacity) }
        ensures shows { IfOk result (ShowsCore (initial dim patience)) }
        ensures spends { OnOk result (Spends (core_words dim capacity) store.old store.new) }
        ensures enough { HasWords (core_words dim capacity) store.old → IsOk result }
    {
        let blocks = Blocks::new(store, dim)?;
        let jobs = Jobs::new(store, capacity)?;
        Ok(Core {
            blocks,
            jobs,
            reserved: None,
            time: 0,
            patience,
        })
    }

    /// Returns the dimension of the machine.
    pub(crate) fn dim(&self) -> u32
        ensures dim { result ≡ dim_of self.now }
        ensures shown { (w : Sched) → ShowsCore w self.now → result ≡ w.dim }
        ensures limit { result ≤ MAX_BITMAP_DIM }
    {
        self.blocks.dim()
    }

    /// Returns the time of the last decision.
    pub(crate) fn now(&self) -> u64
        ensures time { result ≡ time_of self.now }
        ensures shown { (w : Sched) → ShowsCore w self.now → result ≡ w.now }
    {
        self.time
    }

    /// Returns how many times the machine passes a job before a block without a known promise is
    /// reserved for it.
    pub(crate) fn patience(&self) -> u32
        ensures { (w : Sched) → ShowsCore w self.now → result ≡ w.patience }
    {
        self.patience
    }

    /// Returns how many jobs there may be that are not over.
    pub(crate) fn capacity(&self) -> usize
        ensures { result ≡ slots_of self.now }
    {
        self.jobs.capacity()
    }

    /// Returns how many jobs were submitted, which is the number of the next one.
    pub(crate) fn submitted(&self) -> u64
        ensures submitted { result ≡ submitted_of self.now }
        ensures shown { (w : Sched) → ShowsCore w self.now → result ≡ w.next }
    {
        self.jobs.next()
    }

    /// Returns where the job of a slot is.
    pub(crate) fn place(&self, slot: u32) -> Place
        requires { slot < slots_of self.now }
        ensures { result ≡ job_place self.now slot }
    {
        self.jobs.place(slot)
    }

    /// Returns the number of a slot's job.
    pub(crate) fn arrival(&self, slot: u32) -> u64
        requires shows { (w : Sched) × ShowsCore w self.now }
        requires inside { slot < slots_of self.now }
        ensures { result ≡ job_arrival self.now slot }
    {
        self.jobs.arrival(slot)
    }

    /// Returns a name for a slot's job, which no other job ever has. It is not 0.
    pub(crate) fn ticket(&self, slot: u32) -> u64
        requires shows { (w : Sched) × ShowsCore w self.now }
        requires inside { slot < slots_of self.now }
        ensures ticket { result ≡ job_ticket self.now slot }
        ensures some { IsTaken self.now slot → 0 < result }
    {
        self.jobs.ticket(slot)
    }

    /// Returns the slot of the job with a ticket, if it is not over.
    pub(crate) fn find(&self, ticket: u64) -> Option<u32>
        requires { (w : Sched) × ShowsCore w self.now }
        ensures found { IfSome result (λ slot. slot < slots_of self.now
            × IsTaken self.now slot × (ticket ≡ job_ticket self.now slot)) }
        ensures none { IfNone result ((slot : ℕ) → slot < slots_of self.now
            → IsTaken self.now slot → ticket ≡ job_ticket self.now slot → ⊥) }
    {
        self.jobs.find(ticket)
    }

    /// Returns the first slot from one on that has a job.
    pub(crate) fn next_used(&self, from: u32) -> Option<u32>
        requires { (w : Sched) × ShowsCore w self.now }
        ensures found { IfSome result (IsNextTaken self.now from) }
        ensures none { IfNone result (HasNoneTaken self.now from) }
    {
        self.jobs.next_used(from)
    }

    /// Returns how many jobs wait.
    pub(crate) fn waiting(&self) -> u64
        requires { (w : Sched) × ShowsCore w self.now }
        ensures { (w : Sched) → ShowsCore w self.now → IsCount (DoesWait w) w.next result }
    {
        self.jobs.waiting()
    }

    /// Returns how many jobs run.
    pub(crate) fn running(&self) -> u64
        ensures { (w : Sched) → ShowsCore w self.now → IsCount (DoesRun w) w.next result }
    {
        self.jobs.running()
    }

    /// Returns how many processors the running jobs use together. Their blocks may have more.
    pub(crate) fn asked(&self) -> u64
        ensures { (w : Sched) → ShowsCore w self.now → result ≡ asked w }
    {
        self.jobs.asked()
    }

    /// Returns how many waiting jobs come before the waiting job of a slot. They are of a lower
    /// class, or of its class with a lesser number.
    pub(crate) fn count_before(&self, slot: u32) -> u64
        requires shows { (w : Sched) × ShowsCore w self.now }
        requires inside { slot < slots_of self.now }
        requires job { (wait : WaitData) × (job_place self.now slot ≡ Waiting wait) }
        ensures { (w : Sched) (wait : WaitData) → ShowsCore w self.now
            → job_place self.now slot ≡ Waiting wait
            → IsCount (WaitsBefore w (job_arrival self.now slot) wait.job) w.next result }
    {
        self.jobs.count_before(slot)
    }

    /// Returns how many processors jobs hold.
    pub(crate) fn held(&self) -> u32
        ensures { (w : Sched) → ShowsCore w self.now
            → IsCount (IsHeld (held w)) (2 ^ w.dim) result }
    {
        self.blocks.held_processors()
    }

    /// Returns how many processors are out of service.
    pub(crate) fn occupied(&self) -> u32
        ensures { (w : Sched) → ShowsCore w self.now
            → IsCount (IsHeld w.occupied) (2 ^ w.dim) result }
    {
        self.blocks.occupied_processors()
    }

    /// Returns the largest dimension of a vacant block, or `None` if no processor is vacant.
    pub(crate) fn largest_vacant(&self) -> Option<u32>
        ensures dim { IfSome result (λ l. l ≤ dim_of self.now) }
        ensures largest { (w : Sched) → ShowsCore w self.now → IfSome result (λ l. (k : ℕ)
            → k ≤ w.dim → HasNone w.dim k (IsVacant w) ↔ (l < k)) }
        ensures none { (w : Sched) → ShowsCore w self.now → IfNone result ((k : ℕ)
            → k ≤ w.dim → HasNone w.dim k (IsVacant w)) }
    {
        self.blocks.largest_vacant()
    }

    /// Adds a waiting job, and returns its slot. Returns `None` only if each slot has a job or has
    /// had as many as it may have; then nothing changes.
    pub(crate) fn submit(&mut self, job: SchedJob) -> Option<u32>
        requires shows { (w : Sched) × ShowsCore w self.old }
        requires sound { IsSound (dim_of self.old) job }
        requires class { job.class < CLASSES }
        requires next { submitted_of self.old < LAST }
        ensures slots { slots_of self.new ≡ slots_of self.old }
        ensures unchanged { IfNone result (self.new ≡ self.old) }
        ensures full { IfNone result ((slot : ℕ) → slot < slots_of self.old
            → IsTaken self.old slot ⊎ IsSpent self.old slot) }
        ensures inside { IfSome result (λ slot. slot < slots_of self.new) }
        ensures free { IfSome result (λ slot. IsTaken self.old slot → ⊥) }
        ensures unspent { IfSome result (λ slot. job_generation self.old slot < MAX_GENERATION) }
        ensures generation { IfSome result (λ slot. job_generation self.new slot
            ≡ job_generation self.old slot + 1) }
        ensures generations { IfSome result (λ slot. (u : ℕ) → u ≢ slot
            → job_generation self.new u ≡ job_generation self.old u) }
        ensures place { IfSome result (λ slot. job_place self.new slot
            ≡ Waiting (record { job = job; passed = 0 })) }
        ensures arrival { IfSome result (λ slot. job_arrival self.new slot
            ≡ submitted_of self.old) }
        ensures submitted { IfSome result (λ slot. submitted_of self.new
            ≡ submitted_of self.old + 1) }
        ensures others { IfSome result (KeepsOthers self.old self.new) }
        ensures shows { (w : Sched) → ShowsCore w self.old
            → IfSome result (λ slot. ShowsCore (submit job w) self.new) }
    {
        self.jobs.submit(job)
    }

    /// Adds a waiting job in a slot. Returns false only if the slot has a job or has had as many as
    /// it may have; then nothing changes.
    pub(crate) fn submit_into(&mut self, slot: u32, job: SchedJob) -> bool
        requires shows { (w : Sched) × ShowsCore w self.old }
        requires inside { slot < slots_of self.old }
        requires sound { IsSound (dim_of self.old) job }
        requires class { job.class < CLASSES }
        requires next { submitted_of self.old < LAST }
        ensures slots { slots_of self.new ≡ slots_of self.old }
        ensures unchanged { IsFalse result → self.new ≡ self.old }
        ensures refused { IsFalse result → IsTaken self.old slot ⊎ IsSpent self.old slot }
        ensures free { IsTrue result → IsTaken self.old slot → ⊥ }
        ensures unspent { IsTrue result → job_generation self.old slot < MAX_GENERATION }
        ensures generation { IsTrue result → job_generation self.new slot
            ≡ job_generation self.old slot + 1 }
        ensures generations { (u : ℕ) → u ≢ slot
            → job_generation self.new u ≡ job_generation self.old u }
        ensures place { IsTrue result → job_place self.new slot
            ≡ Waiting (record { job = job; passed = 0 }) }
        ensures arrival { IsTrue result → job_arrival self.new slot ≡ submitted_of self.old }
        ensures others { KeepsOtherJobs self.old self.new slot }
        ensures shows { (w : Sched) → ShowsCore w self.old → IsTrue result
            → ShowsCore (submit job w) self.new }
    {
        self.jobs.submit_into(slot, job)
    }

    /// Removes a waiting job. A block that was reserved for it is so no more.
    pub(crate) fn cancel(&mut self, slot: u32)
        requires shows { (w : Sched) × ShowsCore w self.old }
        requires inside { slot < slots_of self.old }
        requires job { (wait : WaitData) × (job_place self.old slot ≡ Waiting wait) }
        ensures slots { slots_of self.new ≡ slots_of self.old }
        ensures place { job_place self.new slot ≡ Absent }
        ensures generations { KeepsGenerations self.old self.new }
        ensures others { KeepsOthers self.old self.new slot }
        ensures shows { (w : Sched) → ShowsCore w self.old
            → ShowsCore (cancel (job_arrival self.old slot) w) self.new }
    {
        self.jobs.cancel(slot);
        forget(&mut self.reserved, slot);
    }

    /// Removes a running job, whose block is vacant then.
    pub(crate) fn finish(&mut self, slot: u32)
        requires shows { (w : Sched) × ShowsCore w self.old }
        requires inside { slot < slots_of self.old }
        requires job { (run : RunData) × (job_place self.old slot ≡ Running run) }
        ensures slots { slots_of self.new ≡ slots_of self.old }
        ensures place { job_place self.new slot ≡ Absent }
        ensures generations { KeepsGenerations self.old self.new }
        ensures others { KeepsOthers self.old self.new slot }
        ensures shows { (w : Sched) → ShowsCore w self.old
            → ShowsCore (finish (job_arrival self.old slot) w) self.new }
    {
        let Place::Running(ended) = self.jobs.place(slot) else {
            return;
        };
        self.blocks.finish(ended.block);
        self.jobs.finish(slot);
    }

    /// Takes a block out of service. A reservation of a part of it ends. Returns false only if a
    /// part of the block is in use; then nothing changes.
    pub(crate) fn occupy(&mut self, region: Region) -> bool
        requires shows { (w : Sched) × ShowsCore w self.old }
        requires block { IsAligned (dim_of self.old) region }
        ensures vacant { (w : Sched) → ShowsCore w self.old
            → IsTrue result ↔ IsVacant w region }
        ensures unchanged { IsFalse result → self.new ≡ self.old }
        ensures jobs { HasSameJobs self.old self.new }
        ensures shows { (w : Sched) → ShowsCore w self.old → IsVacant w region
            → ShowsCore (occupy region w) self.new }
    {
        let n = self.blocks.dim();
        if !self.blocks.occupy(region) {
            return false;
        }
        self.reserved = beside(n, region, self.reserved);
        true
    }

    /// Puts a block back into service. Returns false only if it is not out of service as one block;
    /// then nothing changes.
    pub(crate) fn vacate(&mut self, region: Region) -> bool
        requires shows { (w : Sched) × ShowsCore w self.old }
        ensures out { (w : Sched) → ShowsCore w self.old
            → IsTrue result ↔ (w.occupied region.base ≡ Some region) }
        ensures unchanged { IsFalse result → self.new ≡ self.old }
        ensures jobs { HasSameJobs self.old self.new }
        ensures shows { (w : Sched) → ShowsCore w self.old → w.occupied region.base ≡ Some region
            → ShowsCore (vacate region w) self.new }
    {
        self.blocks.vacate(region)
    }
}
