//! The queues of the waiting jobs of a table.

ghost use Rattle.std.specs.Prelude.{◌≡◌, ◌≢◌, ℕ, ◌+◌, ◌*◌, ◌^◌, ◌<◌, ◌≤◌, Option, Some, None, IsOk, IfOk, OnOk, length};
ghost use Rattle.sched_law.specs.declared.job.TheConstants.{NEVER as LAST};
ghost use Rattle.sched_law.specs.State.{set};
ghost use Rattle.sched_jobs.specs.Slots.{before_of, line_at, next_after, rank_of};
ghost use Rattle.fixed_vec.specs.Spending.{HasWords, Spends};
ghost use Rattle.sched_jobs.specs.Lines.{HasLines, count_in, key_in, rank_in, slots_of, table_words};
ghost use Rattle.sched_jobs.specs.Inner.Joins.{MayJoin};
ghost use Rattle.sched_jobs.specs.Inner.Put.{HasLink};
ghost use Rattle.alloc_bits.specs.Count.{IsCount};
ghost use Rattle.sched_jobs.specs.Inner.Numbers.{HasKeyFrom, HasNumbers};
ghost use Rattle.sched_jobs.specs.Inner.Search.{IsChosen};

use crate::counts::{total, total_of_classes};
use crate::lines::{
    CLASSES, DIMS, LINES, join_line, key_at, leave_line, put_key, put_rank, rank_at,
};
use crate::nodes::{MAX_SLOTS, QueueNode};
use crate::queues::Queue;
use crate::search::{Wanted, first_of_all};
use cube_shape::MAX_BITMAP_DIM;
use fixed_vec::{FixedVec, Store};
use sched_law::{NEVER, SchedJob};
use std::alloc::AllocError;

/// A queue for each class and dimension, over one node for each slot.
#[derive(Drop)]
pub struct LineTable {
    pub(crate) nodes: FixedVec<QueueNode>,
    pub(crate) queues: FixedVec<Queue>,
    /// How many slots of each class wait.
    pub(crate) counts: FixedVec<u64>,
}

// Returns the rank of an estimate: the largest number if it is not known.
fn rank(estimate: u64) -> u64
    ensures { result ≡ rank_of estimate }
{
    if estimate == 0 {
        return NEVER;
    }
    estimate - 1
}

// Returns the line of a job.
fn line_number(job: &SchedJob) -> usize
    requires class { job.now.class < CLASSES }
    requires dim { job.now.dim ≤ MAX_BITMAP_DIM }
    ensures { result ≡ line_at job.now.class job.now.dim }
{
    job.class as usize * DIMS + job.dim as usize
}

// Counts one more slot of a class.
fn count_one(counts: &mut [u64], class: usize)
    requires class { class < length counts.old }
    requires few { count_in counts.old class < LAST }
    ensures here { count_in counts.new class ≡ count_in counts.old class + 1 }
    ensures others { (c : ℕ) → c ≢ class → count_in counts.new c ≡ count_in counts.old c }
{
    counts[class] += 1;
}

// Counts one slot less of a class.
fn discount_one(counts: &mut [u64], class: usize)
    requires class { class < length counts.old }
    requires some { 0 < count_in counts.old class }
    ensures here { count_in counts.old class ≡ count_in counts.new class + 1 }
    ensures others { (c : ℕ) → c ≢ class → count_in counts.new c ≡ count_in counts.old c }
{
    counts[class] -= 1;
}

impl LineTable {
    /// Creates empty queues for this many slots, in memory of a store.
    pub(crate) fn new(store: &mut Store, capacity: usize) -> Result<Self, AllocError>
        requires { capacity ≤ MAX_SLOTS }
        ensures slots { IfOk result (λ made. slots_of made ≡ capacity) }
        ensures keys { IfOk result (λ made. (u : ℕ) → key_in made u ≡ 0) }
        ensures ranks { IfOk result (λ made. (u : ℕ) → rank_in made u ≡ 0) }
        ensures lines { IfOk result (λ made. HasLines made (λ u. None)) }
        ensures spends { OnOk result (Spends (table_words capacity) store.old store.new) }
        ensures enough { HasWords (table_words capacity) store.old → IsOk result }
    {
        let nodes = store.filled(QueueNode::UNUSED, capacity, 5 * capacity)?;
        let queues = store.filled(Queue::new(), LINES, LINES)?;
        let counts = store.filled(0, CLASSES as usize, CLASSES as usize)?;
        Ok(LineTable {
            nodes,
            queues,
            counts,
        })
    }

    /// Returns the key of a slot.
    pub(crate) fn key(&self, slot: u32) -> u64
        requires { slot < slots_of self.now }
        ensures { result ≡ key_in self.now slot }
    {
        key_at(&self.nodes, slot)
    }

    /// Returns the free slot after a free one, or the number of slots.
    pub(crate) fn free_after(&self, slot: u32) -> u32
        requires slot { slot < slots_of self.now }
        requires slots { slots_of self.now ≤ MAX_SLOTS }
        requires after { next_after slot (key_in self.now slot) ≤ MAX_SLOTS }
        ensures { result ≡ next_after slot (key_in self.now slot) }
    {
        let link = self.key(slot);
        if link == 0 {
            return slot + 1;
        }
        (link - 1) as u32
    }

    /// Returns the free slot before a free one that is not the first.
    pub(crate) fn free_before(&self, slot: u32) -> u32
        requires slot { slot < slots_of self.now }
        requires before { before_of slot (rank_in self.now slot) ≤ MAX_SLOTS }
        ensures { result ≡ before_of slot (rank_in self.now slot) }
    {
        let back = rank_at(&self.nodes, slot);
        if back == 0 {
            return slot.saturating_sub(1);
        }
        (back - 1) as u32
    }

    /// Returns the slot that is wanted, of the first class, with the least key there.
    #[inline(always)]
    pub(crate) fn first(&self, wanted: &Wanted) -> Option<u32>
        requires { (line : ℕ → Option ℕ) × HasLines self.now line }
        ensures { (line : ℕ → Option ℕ) → HasLines self.now line
            → IsChosen self.now.nodes.items line wanted.now result }
    {
        first_of_all(&self.nodes, &self.queues, &self.counts, wanted)
    }

    /// Returns the number of slots with a key below the bound in the lines from `first` on, up to
    /// `end`, which is left out.
    pub(crate) fn count(&self, first: usize, end: usize, bound: u64) -> u64
        requires first { first ≤ end }
        requires end { end ≤ LINES }
        requires lines { (line : ℕ → Option ℕ) × HasLines self.now line }
        ensures few { result ≤ LINES * 2 ^ 32 }
        ensures count { (line : ℕ → Option ℕ) (next : ℕ) → HasLines self.now line
            → HasNumbers self.now.nodes.items line next
            → IsCount (HasKeyFrom self.now.nodes.items line first end (Some bound)) next result }
    {
        total(&self.nodes, &self.queues, first, end, bound)
    }

    /// Returns the number of slots in the lines of the classes below `end`.
    pub(crate) fn count_classes(&self, end: usize) -> u64
        requires end { end ≤ CLASSES }
        requires lines { (line : ℕ → Option ℕ) × HasLines self.now line }
        ensures few { result ≤ CLASSES * 2 ^ 32 }
        ensures count { (line : ℕ → Option ℕ) (next : ℕ) → HasLines self.now line
            → HasNumbers self.now.nodes.items line next
            → IsCount (HasKeyFrom self.now.nodes.items line 0 (end * (MAX_BITMAP_DIM + 1)) None)
            next result }
    {
        total_of_classes(&self.counts, end)
    }

    /// Appends a slot to the line of its job, with a key above all keys there.
    pub(crate) fn join(&mut self, job: &SchedJob, slot: u32, key: u64)
        requires class { job.now.class < CLASSES }
        requires dim { job.now.dim ≤ MAX_BITMAP_DIM }
        requires slot { slot < slots_of self.old }
        requires lines { (line : ℕ → Option ℕ)
            × MayJoin self.old line (line_at job.now.class job.now.dim) slot key }
        ensures lines { (line : ℕ → Option ℕ)
            → MayJoin self.old line (line_at job.now.class job.now.dim) slot key
            → HasLines self.new (set line slot (Some (line_at job.now.class job.now.dim))) }
        ensures slots { slots_of self.new ≡ slots_of self.old }
        ensures key { key_in self.new slot ≡ key }
        ensures rank { rank_in self.new slot ≡ rank_of job.now.estimate }
        ensures keys { (u : ℕ) → u ≢ slot → key_in self.new u ≡ key_in self.old u }
        ensures ranks { (u : ℕ) → u ≢ slot → rank_in self.new u ≡ rank_in self.old u }
    {
        let at = line_number(job);
        let estimate = rank(job.estimate);
        join_line(&mut self.nodes, &mut self.queues, at, slot, key, estimate);
        count_one(&mut self.counts, job.class as usize);
    }

    /// Removes a slot from the line of its job.
    pub(crate) fn leave(&mut self, job: &SchedJob, slot: u32)
        requires class { job.now.class < CLASSES }
        requires dim { job.now.dim ≤ MAX_BITMAP_DIM }
        requires lines { (line : ℕ → Option ℕ) × (HasLines self.old line
            × (line slot ≡ Some (line_at job.now.class job.now.dim))) }
        ensures lines { (line : ℕ → Option ℕ) → HasLines self.old line
            → line slot ≡ Some (line_at job.now.class job.now.dim)
            → HasLines self.new (set line slot None) }
        ensures slots { slots_of self.new ≡ slots_of self.old }
        ensures keys { (u : ℕ) → key_in self.new u ≡ key_in self.old u }
        ensures ranks { (u : ℕ) → rank_in self.new u ≡ rank_in self.old u }
    {
        let at = line_number(job);
        leave_line(&mut self.nodes, &mut self.queues, at, slot);
        discount_one(&mut self.counts, job.class as usize);
    }

    /// Writes the key of a slot that is in no line.
    pub(crate) fn set_key(&mut self, slot: u32, key: u64)
        requires { slot < slots_of self.old }
        ensures lines { (line : ℕ → Option ℕ) → HasLines self.old line → line slot ≡ None
            → HasLines self.new line }
        ensures slots { slots_of self.new ≡ slots_of self.old }
        ensures key { key_in self.new slot ≡ key }
        ensures keys { (u : ℕ) → u ≢ slot → key_in self.new u ≡ key_in self.old u }
        ensures ranks { (u : ℕ) → rank_in self.new u ≡ rank_in self.old u }
    {
        put_key(&mut self.nodes, slot, key);
    }

    /// Writes the rank of a slot that is in no line.
    pub(crate) fn set_rank(&mut self, slot: u32, rank: u64)
        requires { slot < slots_of self.old }
        ensures lines { (line : ℕ → Option ℕ) → HasLines self.old line → line slot ≡ None
            → HasLines self.new line }
        ensures slots { slots_of self.new ≡ slots_of self.old }
        ensures rank { rank_in self.new slot ≡ rank }
        ensures ranks { (u : ℕ) → u ≢ slot → rank_in self.new u ≡ rank_in self.old u }
        ensures keys { (u : ℕ) → key_in self.new u ≡ key_in self.old u }
    {
        put_rank(&mut self.nodes, slot, rank);
    }

    /// Links a free slot to the next one, and this one, if it is one of the table, back to it.
    pub(crate) fn link(&mut self, slot: u32, next: u32)
        requires { slot < slots_of self.old }
        ensures lines { (line : ℕ → Option ℕ) → HasLines self.old line → line slot ≡ None
            → (next < slots_of self.old → line next ≡ None) → HasLines self.new line }
        ensures link { HasLink self.old.nodes.items self.new.nodes.items slot next }
    {
        self.set_key(slot, next as u64 + 1);
        if next as usize >= self.nodes.len() {
            return;
        }
        self.set_rank(next, slot as u64 + 1);
    }
}
