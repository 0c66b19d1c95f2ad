//! The decision: which job starts next, and its start.

ghost use Rattle.std.specs.Prelude.{◌≡◌, ℕ, ◌*◌, ◌^◌, ◌<◌, ◌≤◌, ◌⊎◌, ◌↔◌, Some, IfSome, IsFalse, IsTrue};
ghost use Rattle.cube_shape.specs.Region.{IsAligned};
ghost use Rattle.sched_law.specs.declared.job.TheConstants.{NEVER as LAST};
ghost use Rattle.sched_law.specs.declared.job.Place.TheVariants.{Waiting, Running};
ghost use Rattle.sched_law.specs.declared.job.SchedWait.{SchedWait as WaitData};
ghost use Rattle.sched_law.specs.declared.job.SchedRun.{SchedRun as RunData};
ghost use Rattle.sched_law.specs.State.{Sched, IsVacant, at, pass, start};
ghost use Rattle.sched_law.specs.Policy.{Decides, HasNone, IsLatest, Prepares};
ghost use Rattle.sched_jobs.specs.Counts.{HasKnownEnd};
ghost use Rattle.sched_core.specs.Shows.{HasSameJobs, KeepsGenerations, KeepsOthers, KeepsSlots, ShowsCore, dim_of, job_arrival, job_place, slots_of};
ghost use Rattle.sched_core.specs.Answers.{IsAnnounced, answer_of};
ghost use Rattle.sched_core.specs.Inner.{IsHeadSlot, IsPick};

use crate::assigned::{Assigned, Decision};
use crate::scheduler::Core;
use crate::small::{end_of, forget, is_patient};
use cube_shape::{MAX_BITMAP_DIM, Region};
use sched_law::{NEVER, Place};

impl Core {
    // Returns whether a block may be reserved for a job: its latest end is known, or enough has
    // passed the job.
    fn may_reserve(&self, block: Region, passed: u64) -> bool
        requires { IsAligned (dim_of self.now) block }
        ensures yes { IsTrue result → (w : Sched) → ShowsCore w self.now → (t : ℕ)
            × IsLatest w block t × ((t < LAST) ⊎ (w.patience * 2 ^ w.dim ≤ passed)) }
        ensures no { IsFalse result → (w : Sched) → ShowsCore w self.now
            → IsLatest w block LAST × (passed < w.patience * 2 ^ w.dim) }
    {
        if self.blocks.latest(block) < NEVER {
            return true;
        }
        if is_patient(passed, self.patience, self.blocks.dim()) {
            return false;
        }
        true
    }

    // Returns whether the head has to wait for a reservation: no end of a running job is known, and
    // too little has passed the head.
    fn has_to_wait(&self, passed: u64) -> bool
        ensures { (w : Sched) → ShowsCore w self.now → IsTrue result
            ↔ ((HasKnownEnd w → ⊥) × (passed < w.patience * 2 ^ w.dim)) }
    {
        if is_patient(passed, self.patience, self.blocks.dim()) {
            return !self.jobs.has_known_end();
        }
        false
    }

    // Reserves a block for the head, unless one is or it has to wait for that. No block is free for
    // the head.
    fn prepare(&mut self, head: u32)
        requires { (w : Sched) × (ShowsCore w self.old × IsHeadSlot w self.old.jobs head) }
        ensures jobs { HasSameJobs self.old self.new }
        ensures prepares { (w : Sched) (slot : IsHeadSlot w self.old.jobs head)
            → ShowsCore w self.old → HasNone w.dim slot.head.job.dim (IsVacant w) → (v : Sched)
            × Prepares w (job_arrival self.old head) slot.head v × ShowsCore v self.new }
    {
        let None = self.reserved else {
            return;
        };
        let Place::Waiting(wait) = self.jobs.place(head) else {
            return;
        };
        if self.has_to_wait(wait.passed) {
            return;
        }
        let block = self.blocks.choose(wait.job.dim as u32);
        if !self.may_reserve(block, wait.passed) {
            return;
        }
        self.reserved = Some(Assigned { slot: head, block });
    }

    // Decides which job starts, and in which block. It may reserve a block.
    fn decide(&mut self) -> Option<Decision>
        requires { (w : Sched) × ShowsCore w self.old }
        ensures jobs { HasSameJobs self.old self.new }
        ensures picks { (w : Sched) → ShowsCore w self.old → (v : Sched)
            × IsPick w v self.new.jobs result × ShowsCore v self.new }
    {
        let Some(head) = self.head() else {
            return None;
        };
        let Place::Waiting(wait) = self.jobs.place(head) else {
            return None;
        };
        if let Some(block) = self.blocks.first(wait.job.dim as u32) {
            return Some(Decision {
                slot: head,
                head,
                block,
            });
        }
        self.prepare(head);
        let Some(it) = self.passing() else {
            return None;
        };
        Some(Decision {
            slot: it.slot,
            head,
            block: it.block,
        })
    }

    // Starts a waiting job in a vacant block.
    fn launch(&mut self, slot: u32, block: Region)
        requires shows { (w : Sched) × ShowsCore w self.old }
        requires inside { slot < slots_of self.old }
        requires block { IsAligned (dim_of self.old) block }
        requires job { (wait : WaitData) × (job_place self.old slot ≡ Waiting wait) }
        ensures slots { slots_of self.new ≡ slots_of self.old }
        ensures generations { KeepsGenerations self.old self.new }
        ensures keeps { KeepsSlots self.old self.new }
        ensures runs { (run : RunData) × (job_place self.new slot ≡ Running run)
            × (run.block ≡ block) }
        ensures shows { (w : Sched) (wait : WaitData) → ShowsCore w self.old
            → job_place self.old slot ≡ Waiting wait → block.dim ≡ wait.job.dim
            → IsVacant w block
            → ShowsCore (start (job_arrival self.old slot) wait.job block w) self.new }
    {
        let Place::Waiting(wait) = self.jobs.place(slot) else {
            return;
        };
        let end = end_of(self.time, wait.job.estimate);
        // This needs no block, so a processor may do it while it still looks for the block.
        self.jobs.start(slot, block, end);
        self.blocks.start(block, end);
        forget(&mut self.reserved, slot);
    }

    // Counts that a job with a block of dimension `k` passes the head.
    fn count(&mut self, head: u32, k: u32)
        requires shows { (w : Sched) × ShowsCore w self.old }
        requires inside { head < slots_of self.old }
        requires dim { k ≤ MAX_BITMAP_DIM }
        requires job { (wait : WaitData) × (job_place self.old head ≡ Waiting wait) }
        ensures slots { slots_of self.new ≡ slots_of self.old }
        ensures dim { dim_of self.new ≡ dim_of self.old }
        ensures generations { KeepsGenerations self.old self.new }
        ensures keeps { KeepsSlots self.old self.new }
        ensures others { KeepsOthers self.old self.new head }
        ensures shows { (w : Sched) (wait : WaitData) → ShowsCore w self.old
            → job_place self.old head ≡ Waiting wait
            → ShowsCore (pass (job_arrival self.old head) wait k w) self.new }
    {
        self.jobs.pass(head, k);
    }

    // Starts the job that was decided on.
    fn carry_out(&mut self, it: Decision)
        requires { (w : Sched) × ((v : Sched) × (IsPick w v self.old.jobs (Some it)
            × ShowsCore v self.old)) }
        ensures slots { slots_of self.new ≡ slots_of self.old }
        ensures inside { it.slot < slots_of self.new }
        ensures generations { KeepsGenerations self.old self.new }
        ensures keeps { KeepsSlots self.old self.new }
        ensures runs { (run : RunData) × (job_place self.new it.slot ≡ Running run)
            × (run.block ≡ it.block) }
        ensures decides { (w v : Sched) → IsPick w v self.old.jobs (Some it)
            → ShowsCore v self.old → (u : Sched)
            × Decides w (Some (job_arrival self.new it.slot)) u × ShowsCore u self.new }
    {
        if it.head == it.slot {
            self.launch(it.slot, it.block);
            return;
        }
        self.count(it.head, it.block.dim);
        self.launch(it.slot, it.block);
    }

    /// Starts the job that comes next at this time, and returns its slot. Returns `None` if no job
    /// may start; then a block may have been reserved. A state has only one decision, as
    /// `sched_law::decisions_are_one` says, so the clause `decides` fixes the job and the state.
    /// The laws of `sched_law` on promises hold if times never go back.
    pub(crate) fn next(&mut self, now: u64) -> Option<u32>
        requires { (w : Sched) × ShowsCore w self.old }
        ensures slots { slots_of self.new ≡ slots_of self.old }
        ensures inside { IfSome result (λ slot. slot < slots_of self.new) }
        ensures generations { KeepsGenerations self.old self.new }
        ensures keeps { KeepsSlots self.old self.new }
        ensures runs { IfSome result (λ slot. (run : RunData)
            × (job_place self.new slot ≡ Running run)) }
        ensures decides { (w : Sched) → ShowsCore w self.old → (v : Sched)
            × Decides (at now w) (answer_of self.new result) v × ShowsCore v self.new }
    {
        self.time = now;
        let Some(it) = self.decide() else {
            return None;
        };
        self.carry_out(it);
        Some(it.slot)
    }

    /// Returns the job that `next` would start at this time, and its block. It starts nothing, but
    /// a block may be reserved as `next` would reserve it.
    pub(crate) fn peek(&mut self, now: u64) -> Option<Assigned>
        requires { (w : Sched) × ShowsCore w self.old }
        ensures jobs { HasSameJobs self.old self.new }
        ensures inside { IfSome result (λ it. it.slot < slots_of self.new) }
        ensures announces { (w : Sched) → ShowsCore w self.old → (v : Sched) × ((u : Sched)
            × (IsAnnounced (at now w) v u self.new result × ShowsCore v self.new)) }
    {
        self.time = now;
        let Some(it) = self.decide() else {
            return None;
        };
        Some(Assigned {
            slot: it.slot,
            block: it.block,
        })
    }
}
