//! How many slots are in lines.

ghost use Rattle.std.specs.Prelude.{◌≡◌, ℕ, ◌*◌, ◌+◌, ◌^◌, ◌<◌, ◌≤◌, List, Option, Some, None, length};
ghost use Rattle.cube_shape.specs.declared.limits.TheConstants.{MAX_BITMAP_DIM};
ghost use Rattle.alloc_bits.specs.Count.{IsCount};
ghost use Rattle.sched_jobs.specs.declared.nodes.QueueNode.{QueueNode as NodeData};
ghost use Rattle.sched_jobs.specs.declared.queues.Queue.{Queue as QueueData};
ghost use Rattle.sched_jobs.specs.Lines.{AreLines, ShowsLines};
ghost use Rattle.sched_jobs.specs.Inner.Numbers.{HasKeyFrom, HasNumbers};

use crate::lines::{CLASSES, LINES};
use crate::nodes::QueueNode;
use crate::queues::{Queue, count_before};

/// Returns the number of slots with a key below the bound in the lines from `first` on, up to
/// `end`, which is left out.
pub(crate) fn total(
    nodes: &[QueueNode],
    queues: &[Queue],
    first: usize,
    end: usize,
    bound: u64,
) -> u64
    requires first { first ≤ end }
    requires end { end ≤ length queues.now }
    requires queues { length queues.now ≤ LINES }
    requires lines { (line : ℕ → Option ℕ) × AreLines nodes.now queues.now line }
    ensures few { result ≤ LINES * 2 ^ 32 }
    ensures count { (line : ℕ → Option ℕ) (next : ℕ) → AreLines nodes.now queues.now line
        → HasNumbers nodes.now line next
        → IsCount (HasKeyFrom nodes.now line first end (Some bound)) next result }
{
    let mut count = 0;
    for at in first..end {
        count += count_before(nodes, &queues[at], bound) as u64;
    }
    count
}

/// Returns the number of slots in the lines of the classes below `end`.
pub(crate) fn total_of_classes(counts: &[u64], end: usize) -> u64
    requires end { end ≤ CLASSES }
    requires lines { (nodes : List NodeData) × (queues : List QueueData)
        × (line : ℕ → Option ℕ) × ShowsLines nodes queues counts.now line }
    ensures few { result ≤ CLASSES * 2 ^ 32 }
    ensures count { (nodes : List NodeData) (queues : List QueueData) (line : ℕ → Option ℕ)
        (next : ℕ) → ShowsLines nodes queues counts.now line → HasNumbers nodes line next
        → IsCount (HasKeyFrom nodes line 0 (end * (MAX_BITMAP_DIM + 1)) None) next result }
{
    let mut count = 0;
    for class in 0..end {
        count += counts[class];
    }
    count
}
