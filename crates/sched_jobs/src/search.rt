//! The first of the waiting jobs, by their queues.
//!
//! A search is a part of its callers, since each of them leaves out some of its cases.

ghost use Rattle.std.specs.Prelude.{◌≡◌, ℕ, ◌+◌, ◌*◌, ◌<◌, ◌≤◌, List, Option, Some, None, IfSome, IfNone, IsFalse, IsTrue, length};
ghost use Rattle.sched_law.specs.declared.job.SchedJob.{SchedJob as JobData};
ghost use Rattle.sched_jobs.specs.Select.{IsWanted, IsWithin};
ghost use Rattle.sched_jobs.specs.Slots.{line_at, rank_of};
ghost use Rattle.sched_jobs.specs.Lines.{AreLines, ShowsLines};
ghost use Rattle.sched_jobs.specs.Inner.Search.{IsChosen, IsFit, IsFitIn, IsLeast, IsOlder, IsWantedAt};

use crate::lines::{CLASSES, DIMS, first_in_line, first_within, key_at};
use crate::nodes::QueueNode;
use crate::queues::Queue;
use cube_shape::MAX_BITMAP_DIM;

/// The jobs that a search looks for.
#[derive(Clone, Copy)]
pub(crate) struct Wanted {
    /// The dimensions below it are wanted.
    pub(crate) any: usize,
    /// The dimensions below it are wanted with a rank below the limit.
    pub(crate) most: usize,
    /// The limit of ranks.
    pub(crate) limit: u64,
}

// Returns the bound of the dimensions up to one, if there is one.
fn end_of(dim: Option<u32>) -> usize
    ensures yes { (job : JobData) → job.dim ≤ MAX_BITMAP_DIM → IsWithin dim job → job.dim < result }
    ensures no { (job : JobData) → job.dim < result → IsWithin dim job }
{
    let Some(largest) = dim else {
        return 0;
    };
    largest.min(MAX_BITMAP_DIM) as usize + 1
}

impl Wanted {
    /// Returns the jobs that need at most dimension `any`, or at most `most` and have a known
    /// estimate of at most `limit`.
    pub(crate) fn new(any: Option<u32>, most: Option<u32>, limit: u64) -> Wanted
        ensures yes { (job : JobData) → job.dim ≤ MAX_BITMAP_DIM → IsWanted any most limit job
            → IsWantedAt result job.dim (rank_of job.estimate) }
        ensures no { (job : JobData) → IsWantedAt result job.dim (rank_of job.estimate)
            → IsWanted any most limit job }
    {
        Wanted {
            any: end_of(any),
            most: end_of(most),
            limit,
        }
    }
}

// Returns the slot of a line that is wanted and has the least key.
fn first_fit(
    nodes: &[QueueNode],
    queues: &[Queue],
    class: usize,
    dim: usize,
    wanted: &Wanted,
) -> Option<u32>
    requires class { class < CLASSES }
    requires dim { dim ≤ MAX_BITMAP_DIM }
    requires queues { length queues.now ≡ CLASSES * (MAX_BITMAP_DIM + 1) }
    requires lines { (line : ℕ → Option ℕ) × AreLines nodes.now queues.now line }
    ensures { (line : ℕ → Option ℕ) → AreLines nodes.now queues.now line
        → IsLeast nodes.now (IsFit nodes.now line wanted.now class dim) result }
{
    let at = class * DIMS + dim;
    if dim < wanted.any {
        return first_in_line(nodes, queues, at);
    }
    if dim >= wanted.most {
        return None;
    }
    if wanted.limit == 0 {
        return None;
    }
    first_within(nodes, queues, at, wanted.limit - 1)
}

// Returns the slot with the lesser key of at most two.
fn older(nodes: &[QueueNode], one: Option<u32>, other: Option<u32>) -> Option<u32>
    requires one { IfSome one (λ u. u < length nodes.now) }
    requires other { IfSome other (λ u. u < length nodes.now) }
    ensures { IsOlder nodes.now one other result }
{
    let Some(second) = other else {
        return one;
    };
    let Some(first) = one else {
        return other;
    };
    if key_at(nodes, second) < key_at(nodes, first) {
        return other;
    }
    one
}

// Returns the slot of a class that is wanted and has the least key.
fn first_of_class(
    nodes: &[QueueNode],
    queues: &[Queue],
    class: usize,
    wanted: &Wanted,
) -> Option<u32>
    requires class { class < CLASSES }
    requires queues { length queues.now ≡ CLASSES * (MAX_BITMAP_DIM + 1) }
    requires lines { (line : ℕ → Option ℕ) × AreLines nodes.now queues.now line }
    ensures { (line : ℕ → Option ℕ) → AreLines nodes.now queues.now line
        → IsLeast nodes.now (IsFitIn nodes.now line wanted.now class) result }
{
    let mut best: Option<u32> = None;
    let past = wanted.any.max(wanted.most).min(DIMS);
    for dim in 0..past {
        let one = first_fit(nodes, queues, class, dim, wanted);
        best = older(nodes, best, one);
    }
    best
}

// Returns the same. It skips a class without waiting jobs.
fn first_if_used(
    nodes: &[QueueNode],
    queues: &[Queue],
    counts: &[u64],
    class: usize,
    wanted: &Wanted,
) -> Option<u32>
    requires class { class < CLASSES }
    requires lines { (line : ℕ → Option ℕ) × ShowsLines nodes.now queues.now counts.now line }
    ensures { (line : ℕ → Option ℕ) → ShowsLines nodes.now queues.now counts.now line
        → IsLeast nodes.now (IsFitIn nodes.now line wanted.now class) result }
{
    let count = counts[class];
    if count == 0 {
        return None;
    }
    first_of_class(nodes, queues, class, wanted)
}

/// Returns the slot that is wanted, of the first class, with the least key there.
#[inline(always)]
pub(crate) fn first_of_all(
    nodes: &[QueueNode],
    queues: &[Queue],
    counts: &[u64],
    wanted: &Wanted,
) -> Option<u32>
    requires { (line : ℕ → Option ℕ) × ShowsLines nodes.now queues.now counts.now line }
    ensures { (line : ℕ → Option ℕ) → ShowsLines nodes.now queues.now counts.now line
        → IsChosen nodes.now line wanted.now result }
{
    for class in 0..CLASSES as usize {
        if let Some(slot) = first_if_used(nodes, queues, counts, class, wanted) {
            return Some(slot);
        }
    }
    None
}
