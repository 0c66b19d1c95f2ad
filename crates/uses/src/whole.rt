//! A caller of the whole dispatcher.

ghost use Rattle.std.specs.Prelude.{ℕ, ◌^◌, ◌<◌, [], IfSome, map, length, slice_index_or};
ghost use Rattle.std.specs.List.{All};
ghost use Rattle.dispatcher.specs.Order.{AreInOrder};
ghost use Rattle.job_queue.specs.Line.{IsFor};

use crate::batch::answer_all;
use dispatcher::{Plain, ShopSizes, sorted_replies};
use dispatcher_threads::RunEnd;
use job_types::{Job, Reply};
use std::alloc::Global;
use std::collections::VecDeque;
use std::sync::Wait;
use std::thread::Threads;

/// Returns the replies to the jobs of all lanes, one for each, lane by lane. Four workers run the
/// jobs on a machine of dimension `n`. Returns `None` if memory was refused.
pub fn answer_in_order<R: Threads + Wait + Sync>(
    rt: &R,
    alloc: Global,
    n: u32,
    jobs: Vec<VecDeque<Job>>,
) -> Option<Vec<Reply>>
    requires lanes { length jobs.items < 2 ^ 32 }
    requires made_for { (k : ℕ) → k < length jobs.items →
        All (IsFor n k) (slice_index_or (map (λ js. js.items) jobs.items) k []) }
    ensures in_order { IfSome result (λ replies.
        AreInOrder n (map (λ js. js.items) jobs.items) replies.items) }
{
    let sizes = ShopSizes {
        dim: n,
        dispatchers: 4,
        capacity: 16,
    };
    let Ok(end) = answer_all(rt, alloc, sizes, &Plain, jobs) else {
        return None;
    };
    let RunEnd { finished, .. } = end;
    let Ok(replies) = sorted_replies(alloc, finished) else {
        return None;
    };
    Some(replies)
}
