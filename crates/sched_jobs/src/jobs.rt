//! The jobs of a scheduler as a value.

ghost use Rattle.std.specs.Prelude.{◌≡◌, ◌≢◌, ℕ, ◌+◌, ◌^◌, ◌<◌, ◌≤◌, ◌⊎◌, ◌↔◌, Option, min, Some, None, IsOk, IsTrue, IsFalse, IfOk, OnOk, IfSome, IfNone, length};
ghost use Rattle.sched_law.specs.declared.job.TheConstants.{NEVER as LAST};
ghost use Rattle.sched_law.specs.declared.job.Place.{Place as PlaceData};
ghost use Rattle.sched_law.specs.declared.job.Place.TheVariants.{Absent, Waiting, Running};
ghost use Rattle.sched_law.specs.declared.job.SchedWait.{SchedWait as WaitData};
ghost use Rattle.sched_law.specs.declared.job.SchedRun.{SchedRun as RunData};
ghost use Rattle.sched_law.specs.State.{Sched, cancel, end_after, finish, initial, pass, set, start, submit};
ghost use Rattle.alloc_bits.specs.Count.{IsCount};
ghost use Rattle.sched_jobs.specs.Counts.{DoesRun, DoesWait, HasKnownEnd, HasNoneUsed, IsNextUsed, WaitsBefore, WaitsUpTo};
ghost use Rattle.sched_jobs.specs.Sums.{asked};
ghost use Rattle.sched_jobs.specs.Lines.{HasLines, rank_in, slots_of};
ghost use Rattle.sched_jobs.specs.Inner.Put.{HasPut};
ghost use Rattle.fixed_vec.specs.Spending.{HasWords, Spends};
ghost use Rattle.sched_jobs.specs.Shows.{HasGenerations, HasJob, HasNoneWaiting, HasOtherJobs, HasOthers, IsFirstWaiting, IsRetired, ShowsJobs, ShowsSlots, arrival_of, capacity_of, generation_of, job_words, place_of, ticket_of};

use crate::line_table::LineTable;
use crate::lines::{CLASSES, DIMS};
use crate::nodes::MAX_SLOTS;
use crate::search::Wanted;
use crate::slots::{
    MAX_GENERATION, Slot, count_known, generation_at, is_present, next_present, place_at,
    processors_of, put,
};
use cube_shape::{MAX_BITMAP_DIM, Region};
use fixed_vec::{FixedVec, Store};
use sched_law::{Place, SchedJob, SchedRun, SchedWait};
use std::alloc::AllocError;

/// The jobs of a scheduler for one thread.
///
/// Only `new` takes memory.
#[derive(Drop)]
pub struct Jobs {
    next: u64,
    free: u32,
    /// How many jobs run.
    running: u64,
    /// How many processors the running jobs use.
    asked: u64,
    /// How many running jobs have a known end.
    timed: u64,
    slots: FixedVec<Slot>,
    lines: LineTable,
}

impl Jobs {
    /// Creates a table for this many jobs, without a job, in memory of a store.
    pub fn new(store: &mut Store, capacity: usize) -> Result<Self, AllocError>
        requires { capacity ≤ MAX_SLOTS }
        ensures capacity { IfOk result (λ made. capacity_of made ≡ capacity) }
        ensures shows { IfOk result (λ made. (n patience : ℕ)
            → ShowsJobs (initial n patience) made) }
        ensures spends { OnOk result (Spends (job_words capacity) store.old store.new) }
        ensures enough { HasWords (job_words capacity) store.old → IsOk result }
    {
        let slots = store.filled(Slot::UNUSED, capacity, 7 * capacity)?;
        let lines = LineTable::new(store, capacity)?;
        Ok(Jobs {
            next: 0,
            free: 0,
            running: 0,
            asked: 0,
            timed: 0,
            slots,
            lines,
        })
    }

    /// Returns how many jobs the table may have.
    pub fn capacity(&self) -> usize
        ensures { result ≡ capacity_of self.now }
    {
        self.slots.len()
    }

    /// Returns how many jobs were submitted, which is the number of the next one.
    pub fn next(&self) -> u64
        ensures { result ≡ self.now.next }
    {
        self.next
    }

    /// Returns where the job of a slot is.
    pub fn place(&self, slot: u32) -> Place
        requires { slot < capacity_of self.now }
        ensures { result ≡ place_of self.now slot }
    {
        place_at(&self.slots, slot)
    }

    /// Returns the number of a slot's job.
    pub fn arrival(&self, slot: u32) -> u64
        requires slot { slot < capacity_of self.now }
        requires shows { (w : Sched) × ShowsJobs w self.now }
        ensures { result ≡ arrival_of self.now slot }
    {
        self.lines.key(slot)
    }

    /// Returns a name for a slot's job, which no other job ever has. It is not 0.
    pub fn ticket(&self, slot: u32) -> u64
        requires slot { slot < capacity_of self.now }
        requires shows { (w : Sched) × ShowsJobs w self.now }
        ensures ticket { result ≡ ticket_of self.now slot }
        ensures some { HasJob self.now slot → 0 < result }
    {
        generation_at(&self.slots, slot) * MAX_SLOTS as u64 + slot as u64
    }

    /// Returns the slot of the job with a ticket, if it is not over.
    pub fn find(&self, ticket: u64) -> Option<u32>
        requires shows { (w : Sched) × ShowsJobs w self.now }
        ensures found { IfSome result (λ slot. slot < capacity_of self.now
            × HasJob self.now slot × (ticket ≡ ticket_of self.now slot)) }
        ensures none { IfNone result ((slot : ℕ) → slot < capacity_of self.now
            → HasJob self.now slot → ticket ≡ ticket_of self.now slot → ⊥) }
    {
        let slot = (ticket % MAX_SLOTS as u64) as u32;
        if slot as usize >= self.slots.len() {
            return None;
        }
        if generation_at(&self.slots, slot) != ticket / MAX_SLOTS as u64 {
            return None;
        }
        if !is_present(&self.slots, slot) {
            return None;
        }
        Some(slot)
    }

    /// Returns the first waiting job in order of those that need at most dimension `most`.
    #[inline(always)]
    pub fn first(&self, most: u32) -> Option<u32>
        requires { (w : Sched) × ShowsJobs w self.now }
        ensures first { (w : Sched) → ShowsJobs w self.now
            → IfSome result (IsFirstWaiting (Some most) None 0 w self.now) }
        ensures none { (w : Sched) → ShowsJobs w self.now
            → IfNone result (HasNoneWaiting (Some most) None 0 w) }
    {
        self.first_passing(Some(most), None, 0)
    }

    /// Returns the first waiting job in order that may pass the head. It needs at most dimension
    /// `any`, or at most `most` and has a known estimate of at most `limit`.
    #[inline(always)]
    pub fn first_passing(&self, any: Option<u32>, most: Option<u32>, limit: u64) -> Option<u32>
        requires { (w : Sched) × ShowsJobs w self.now }
        ensures first { (w : Sched) → ShowsJobs w self.now
            → IfSome result (IsFirstWaiting any most limit w self.now) }
        ensures none { (w : Sched) → ShowsJobs w self.now
            → IfNone result (HasNoneWaiting any most limit w) }
    {
        let wanted = Wanted::new(any, most, limit);
        self.lines.first(&wanted)
    }

    /// Returns how many jobs wait.
    pub fn waiting(&self) -> u64
        requires { (w : Sched) × ShowsJobs w self.now }
        ensures { (w : Sched) → ShowsJobs w self.now → IsCount (DoesWait w) w.next result }
    {
        self.lines.count_classes(CLASSES as usize)
    }

    /// Returns how many jobs of a class, or of a lower one, wait.
    pub fn waiting_up_to(&self, class: u8) -> u64
        requires class { class < CLASSES }
        requires shows { (w : Sched) × ShowsJobs w self.now }
        ensures count { (w : Sched) → ShowsJobs w self.now
            → IsCount (WaitsUpTo w class) w.next result }
        ensures few { result < LAST }
    {
        self.lines.count_classes(class as usize + 1)
    }

    /// Returns how many jobs run.
    pub fn running(&self) -> u64
        ensures { (w : Sched) → ShowsJobs w self.now → IsCount (DoesRun w) w.next result }
    {
        self.running
    }

    /// Returns how many processors the running jobs use together. Their blocks may have more.
    pub fn asked(&self) -> u64
        ensures { (w : Sched) → ShowsJobs w self.now → result ≡ asked w }
    {
        self.asked
    }

    /// Returns whether the end of a running job is known.
    pub fn has_known_end(&self) -> bool
        ensures { (w : Sched) → ShowsJobs w self.now → IsTrue result ↔ HasKnownEnd w }
    {
        if self.timed == 0 {
            return false;
        }
        true
    }

    /// Returns how many waiting jobs come before that of a slot. They are of a lower class, or of
    /// its class with a lesser number.
    pub fn count_before(&self, slot: u32) -> u64
        requires inside { slot < capacity_of self.now }
        requires job { (wait : WaitData) × (place_of self.now slot ≡ Waiting wait) }
        requires shows { (w : Sched) × ShowsJobs w self.now }
        ensures count { (w : Sched) (wait : WaitData) → ShowsJobs w self.now
            → place_of self.now slot ≡ Waiting wait
            → IsCount (WaitsBefore w (arrival_of self.now slot) wait.job) w.next result }
        ensures few { result < LAST }
    {
        let Place::Waiting(wait) = place_at(&self.slots, slot) else {
            return 0;
        };
        let class = wait.job.class as usize;
        let first = class * DIMS;
        let lower = self.lines.count_classes(class);
        let number = self.lines.key(slot);
        lower + self.lines.count(first, first + DIMS, number)
    }

    /// Returns how many waiting jobs come before that of a slot, which was submitted last.
    pub fn count_before_last(&self, slot: u32) -> u64
        requires inside { slot < capacity_of self.now }
        requires job { (wait : WaitData) × (place_of self.now slot ≡ Waiting wait) }
        requires last { arrival_of self.now slot + 1 ≡ self.now.next }
        requires shows { (w : Sched) × ShowsJobs w self.now }
        ensures count { (w : Sched) (wait : WaitData) → ShowsJobs w self.now
            → place_of self.now slot ≡ Waiting wait
            → IsCount (WaitsBefore w (arrival_of self.now slot) wait.job) w.next result }
        ensures few { result < LAST }
    {
        let Place::Waiting(wait) = place_at(&self.slots, slot) else {
            return 0;
        };
        self.waiting_up_to(wait.job.class) - 1
    }

    /// Returns the first slot from one on that has a job.
    pub fn next_used(&self, from: u32) -> Option<u32>
        requires { (w : Sched) × ShowsJobs w self.now }
        ensures found { IfSome result (IsNextUsed self.now from) }
        ensures none { IfNone result (HasNoneUsed self.now from) }
    {
        next_present(&self.slots, from)
    }

    /// Adds a waiting job, and returns its slot. Returns `None` only if each slot has a job or is
    /// retired; then nothing changes.
    pub fn submit(&mut self, job: SchedJob) -> Option<u32>
        requires next { self.old.next < LAST }
        requires class { job.class < CLASSES }
        requires dim { job.dim ≤ MAX_BITMAP_DIM }
        requires shows { (w : Sched) × ShowsJobs w self.old }
        ensures capacity { capacity_of self.new ≡ capacity_of self.old }
        ensures none { IfNone result (self.new ≡ self.old) }
        ensures full { (w : Sched) → ShowsJobs w self.old → IfNone result ((slot : ℕ)
            → slot < capacity_of self.old → HasJob self.old slot ⊎ IsRetired self.old slot) }
        ensures free { IfSome result (λ slot. (place_of self.old slot ≡ Absent)
            × (generation_of self.old slot < MAX_GENERATION)) }
        ensures inside { IfSome result (λ slot. slot < capacity_of self.new) }
        ensures next { IfSome result (λ slot. self.new.next ≡ self.old.next + 1) }
        ensures place { IfSome result (λ slot. place_of self.new slot
            ≡ Waiting (record { job = job; passed = 0 })) }
        ensures arrival { IfSome result (λ slot. arrival_of self.new slot ≡ self.old.next) }
        ensures generation { IfSome result (λ slot. generation_of self.new slot
            ≡ generation_of self.old slot + 1) }
        ensures generations { IfSome result (λ slot. (u : ℕ) → u ≢ slot
            → generation_of self.new u ≡ generation_of self.old u) }
        ensures others { IfSome result (λ slot. HasOthers self.old self.new slot) }
        ensures shows { (w : Sched) → ShowsJobs w self.old
            → IfSome result (λ slot. ShowsJobs (submit job w) self.new) }
    {
        let slot = self.free;
        if slot as usize >= self.slots.len() {
            return None;
        }
        self.take(slot, job);
        Some(slot)
    }

    /// Adds a waiting job in a slot. Returns false only if the slot has a job or is retired; then
    /// nothing changes.
    pub fn submit_into(&mut self, slot: u32, job: SchedJob) -> bool
        requires inside { slot < capacity_of self.old }
        requires next { self.old.next < LAST }
        requires class { job.class < CLASSES }
        requires dim { job.dim ≤ MAX_BITMAP_DIM }
        requires shows { (w : Sched) × ShowsJobs w self.old }
        ensures capacity { capacity_of self.new ≡ capacity_of self.old }
        ensures unchanged { IsFalse result → self.new ≡ self.old }
        ensures refused { IsFalse result → HasJob self.old slot ⊎ IsRetired self.old slot }
        ensures free { IsTrue result → (place_of self.old slot ≡ Absent)
            × (generation_of self.old slot < MAX_GENERATION) }
        ensures next { IsTrue result → self.new.next ≡ self.old.next + 1 }
        ensures place { IsTrue result → place_of self.new slot
            ≡ Waiting (record { job = job; passed = 0 }) }
        ensures arrival { IsTrue result → arrival_of self.new slot ≡ self.old.next }
        ensures generation { IsTrue result → generation_of self.new slot
            ≡ generation_of self.old slot + 1 }
        ensures generations { (u : ℕ) → u ≢ slot
            → generation_of self.new u ≡ generation_of self.old u }
        ensures others { HasOtherJobs self.old self.new slot }
        ensures shows { (w : Sched) → ShowsJobs w self.old
            → IsTrue result → ShowsJobs (submit job w) self.new }
    {
        if is_present(&self.slots, slot) {
            return false;
        }
        if generation_at(&self.slots, slot) >= MAX_GENERATION {
            return false;
        }
        self.bring_forward(slot);
        self.take(slot, job);
        true
    }

    // Makes a free slot the first one.
    fn bring_forward(&mut self, slot: u32)
        requires inside { slot < capacity_of self.old }
        requires free { place_of self.old slot ≡ Absent }
        requires few { generation_of self.old slot < MAX_GENERATION }
        requires shows { (w : Sched) × ShowsJobs w self.old }
        ensures capacity { capacity_of self.new ≡ capacity_of self.old }
        ensures next { self.new.next ≡ self.old.next }
        ensures first { self.new.free ≡ slot }
        ensures places { (u : ℕ) → place_of self.new u ≡ place_of self.old u }
        ensures generations { HasGenerations self.old self.new }
        ensures arrivals { (u : ℕ) → HasJob self.old u
            → arrival_of self.new u ≡ arrival_of self.old u }
        ensures shows { (w : Sched) → ShowsJobs w self.old → ShowsJobs w self.new }
    {
        if slot == self.free {
            return;
        }
        let before = self.lines.free_before(slot);
        let after = self.lines.free_after(slot);
        self.lines.link(before, after);
        self.lines.link(slot, self.free);
        self.free = slot;
    }

    // Adds a waiting job in the first free slot.
    fn take(&mut self, slot: u32, job: SchedJob)
        requires first { slot ≡ self.old.free }
        requires inside { slot < capacity_of self.old }
        requires next { self.old.next < LAST }
        requires class { job.class < CLASSES }
        requires dim { job.dim ≤ MAX_BITMAP_DIM }
        requires shows { (w : Sched) × ShowsJobs w self.old }
        ensures capacity { capacity_of self.new ≡ capacity_of self.old }
        ensures free { (place_of self.old slot ≡ Absent)
            × (generation_of self.old slot < MAX_GENERATION) }
        ensures next { self.new.next ≡ self.old.next + 1 }
        ensures place { place_of self.new slot ≡ Waiting (record { job = job; passed = 0 }) }
        ensures arrival { arrival_of self.new slot ≡ self.old.next }
        ensures generation { generation_of self.new slot ≡ generation_of self.old slot + 1 }
        ensures generations { (u : ℕ) → u ≢ slot
            → generation_of self.new u ≡ generation_of self.old u }
        ensures others { HasOthers self.old self.new slot }
        ensures shows { (w : Sched) → ShowsJobs w self.old → ShowsJobs (submit job w) self.new }
    {
        let generation = generation_at(&self.slots, slot) + 1;
        self.free = self.lines.free_after(slot);
        self.lines.join(&job, slot, self.next);
        let wait = SchedWait { job, passed: 0 };
        put(&mut self.slots, slot, generation, Place::Waiting(wait));
        self.next += 1;
    }

    /// Removes a waiting job.
    pub fn cancel(&mut self, slot: u32)
        requires inside { slot < capacity_of self.old }
        requires job { (wait : WaitData) × (place_of self.old slot ≡ Waiting wait) }
        requires shows { (w : Sched) × ShowsJobs w self.old }
        ensures capacity { capacity_of self.new ≡ capacity_of self.old }
        ensures next { self.new.next ≡ self.old.next }
        ensures generations { HasGenerations self.old self.new }
        ensures place { place_of self.new slot ≡ Absent }
        ensures others { HasOthers self.old self.new slot }
        ensures shows { (w : Sched) → ShowsJobs w self.old
            → ShowsJobs (cancel (arrival_of self.old slot) w) self.new }
    {
        let Place::Waiting(wait) = place_at(&self.slots, slot) else {
            return;
        };
        self.lines.leave(&wait.job, slot);
        self.clear(slot);
    }

    /// Removes a running job.
    pub fn finish(&mut self, slot: u32)
        requires inside { slot < capacity_of self.old }
        requires job { (run : RunData) × (place_of self.old slot ≡ Running run) }
        requires shows { (w : Sched) × ShowsJobs w self.old }
        ensures capacity { capacity_of self.new ≡ capacity_of self.old }
        ensures next { self.new.next ≡ self.old.next }
        ensures generations { HasGenerations self.old self.new }
        ensures place { place_of self.new slot ≡ Absent }
        ensures others { HasOthers self.old self.new slot }
        ensures shows { (w : Sched) → ShowsJobs w self.old
            → ShowsJobs (finish (arrival_of self.old slot) w) self.new }
    {
        let Place::Running(ended) = place_at(&self.slots, slot) else {
            return;
        };
        self.running -= 1;
        self.asked -= processors_of(&ended.job);
        self.timed -= count_known(ended.end);
        self.clear(slot);
    }

    // Makes a slot free, unless it has had as many jobs as it may have. It is in no line.
    fn clear(&mut self, slot: u32)
        requires inside { slot < capacity_of self.old }
        requires job { HasJob self.old slot }
        requires count { slots_of self.old.lines ≡ capacity_of self.old }
        requires slots { (place : ℕ → PlaceData) × ShowsSlots place self.old.next self.old.free
            self.old.slots.items self.old.lines.nodes.items }
        ensures capacity { capacity_of self.new ≡ capacity_of self.old }
        ensures next { self.new.next ≡ self.old.next }
        ensures running { self.new.running ≡ self.old.running }
        ensures asked { self.new.asked ≡ self.old.asked }
        ensures timed { self.new.timed ≡ self.old.timed }
        ensures put { HasPut self.old.slots.items self.new.slots.items slot
            (generation_of self.old slot) Absent }
        ensures generations { HasGenerations self.old self.new }
        ensures others { HasOthers self.old self.new slot }
        ensures slots { (place : ℕ → PlaceData) → ShowsSlots place self.old.next self.old.free
            self.old.slots.items self.old.lines.nodes.items
            → ShowsSlots (set place (arrival_of self.old slot) Absent) self.new.next self.new.free
            self.new.slots.items self.new.lines.nodes.items }
        ensures count { slots_of self.new.lines ≡ slots_of self.old.lines }
        ensures lines { (line : ℕ → Option ℕ) → HasLines self.old.lines line → line slot ≡ None
            → (self.old.free < capacity_of self.old → line self.old.free ≡ None)
            → HasLines self.new.lines line }
        ensures ranks { (u : ℕ) → u ≢ slot → HasJob self.old u
            → rank_in self.new.lines u ≡ rank_in self.old.lines u }
    {
        let generation = generation_at(&self.slots, slot);
        put(&mut self.slots, slot, generation, Place::Absent);
        let is_last = generation >= MAX_GENERATION;
        if is_last {
            return;
        }
        self.lines.link(slot, self.free);
        self.free = slot;
    }

    /// Lets a waiting job run in a block, with this estimated end.
    pub fn start(&mut self, slot: u32, block: Region, end: u64)
        requires inside { slot < capacity_of self.old }
        requires shows { (w : Sched) × ShowsJobs w self.old }
        ensures capacity { capacity_of self.new ≡ capacity_of self.old }
        ensures next { self.new.next ≡ self.old.next }
        ensures generations { HasGenerations self.old self.new }
        ensures arrival { arrival_of self.new slot ≡ arrival_of self.old slot }
        ensures place { (wait : WaitData) → place_of self.old slot ≡ Waiting wait
            → place_of self.new slot ≡ Running (record {
              job = wait.job;
              block = block;
              end = end;
            }) }
        ensures others { HasOthers self.old self.new slot }
        ensures shows { (w : Sched) (wait : WaitData) → ShowsJobs w self.old
            → place_of self.old slot ≡ Waiting wait → end ≡ end_after w.now wait.job.estimate
            → ShowsJobs (start (arrival_of self.old slot) wait.job block w) self.new }
    {
        let Place::Waiting(wait) = place_at(&self.slots, slot) else {
            return;
        };
        let generation = generation_at(&self.slots, slot);
        let run = SchedRun {
            job: wait.job,
            block,
            end,
        };
        // The slot is written first, so that no copy of the job is kept while it leaves its line.
        put(&mut self.slots, slot, generation, Place::Running(run));
        self.running += 1;
        self.asked += processors_of(&wait.job);
        self.timed += count_known(end);
        self.lines.leave(&wait.job, slot);
    }

    /// Counts that a job with a block of dimension `k` passes a waiting one.
    pub fn pass(&mut self, slot: u32, k: u32)
        requires inside { slot < capacity_of self.old }
        requires dim { k ≤ MAX_BITMAP_DIM }
        ensures capacity { capacity_of self.new ≡ capacity_of self.old }
        ensures next { self.new.next ≡ self.old.next }
        ensures generations { HasGenerations self.old self.new }
        ensures arrival { arrival_of self.new slot ≡ arrival_of self.old slot }
        ensures place { (wait : WaitData) → place_of self.old slot ≡ Waiting wait
            → place_of self.new slot ≡ Waiting (record {
              job = wait.job;
              passed = min (wait.passed + 2 ^ k) LAST;
            }) }
        ensures others { HasOthers self.old self.new slot }
        ensures shows { (w : Sched) (wait : WaitData) → ShowsJobs w self.old
            → place_of self.old slot ≡ Waiting wait
            → ShowsJobs (pass (arrival_of self.old slot) wait k w) self.new }
    {
        let Place::Waiting(wait) = place_at(&self.slots, slot) else {
            return;
        };
        let generation = generation_at(&self.slots, slot);
        let passed = passed_more(wait.passed, k);
        let after = SchedWait {
            job: wait.job,
            passed,
        };
        put(&mut self.slots, slot, generation, Place::Waiting(after));
    }
}

// Returns how much has passed a job after a block of dimension `k`.
fn passed_more(passed: u64, k: u32) -> u64
    requires { k ≤ MAX_BITMAP_DIM }
    ensures { result ≡ min (passed + 2 ^ k) LAST }
{
    passed.saturating_add(1 << k)
}
