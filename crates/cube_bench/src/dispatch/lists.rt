//! The jobs of all lanes.
ghost use Rattle.std.specs.Prelude.{◌≡◌, ℕ, ◌<◌, ◌≤◌, [], IfSome, map, length, slice_index_or};
ghost use Rattle.std.specs.List.{All};
ghost use Rattle.job_queue.specs.Line.{IsFor};

use crate::dispatch::words::Invocation;
use crate::jobs::jobs_of;
use cube_shape::{MAX_DIM, MAX_LANES};
use job_types::Job;
use std::alloc::Global;
use std::collections::VecDeque;

/// Makes the jobs of all lanes, each list at its lane's number.
pub(crate) fn jobs_of_all(alloc: Global, invocation: Invocation) -> Option<Vec<VecDeque<Job>>>
    requires lanes { invocation.lanes ≤ MAX_LANES }
    requires dim { invocation.sizes.dim ≤ MAX_DIM }
    ensures count { IfSome result (λ lists. length lists.items ≡ invocation.lanes) }
    ensures made_for { IfSome result (λ lists. (k : ℕ) → k < length lists.items →
        All (IsFor invocation.sizes.dim k) (slice_index_or (map (λ js. js.items) lists.items) k [])) }
{
    let mut lists = Vec::new(alloc);
    for lane in 0..invocation.lanes {
        let list = jobs_of(
            alloc,
            invocation.sizes.dim,
            lane,
            invocation.items,
            invocation.jobs,
        )?;
        let Ok(()) = lists.push(list) else {
            return None;
        };
    }
    Some(lists)
}
