//! The arguments of a run.
ghost use Rattle.std.specs.Prelude.{◌<◌, ◌≤◌, IfSome};
ghost use Rattle.lanes.specs.declared.sizes.TheConstants.{MAX_CAPACITY as MOST_IN_A_LANE, MAX_LANES as MOST_LANES, MAX_WORKERS as MOST_WORKERS};

use lanes::{MAX_CAPACITY, MAX_LANES, MAX_WORKERS, Sizes};

/// The largest number of jobs of a producer.
pub(crate) const MAX_SUBMITS: u64 = 1 << 24;

/// The run that the arguments ask for.
#[derive(Clone, Copy)]
pub(crate) struct Run {
    pub sizes: Sizes,
    /// The number of jobs of each producer.
    pub jobs: u64,
    /// The number of jobs that each worker takes.
    pub share: u64,
}

// Returns the run of these numbers, if they are within the limits. The workers share the jobs
// evenly.
fn run_of(sizes: Sizes, jobs: u64) -> Option<Run>
    ensures lanes { IfSome result (λ it. (0 < it.sizes.lanes)
        × (it.sizes.lanes ≤ MOST_LANES)) }
    ensures workers { IfSome result (λ it. it.sizes.workers ≤ MOST_WORKERS) }
    ensures some_room { IfSome result (λ it. 0 < it.sizes.capacity) }
    ensures capacity { IfSome result (λ it. it.sizes.capacity ≤ MOST_IN_A_LANE) }
    ensures jobs { IfSome result (λ it. it.jobs ≤ MAX_SUBMITS) }
{
    if sizes.lanes > MAX_LANES || sizes.workers > MAX_WORKERS || sizes.capacity > MAX_CAPACITY {
        return None;
    }
    if sizes.lanes == 0 || sizes.workers == 0 || sizes.capacity == 0 || jobs > MAX_SUBMITS {
        return None;
    }
    let all = sizes.lanes as u64 * jobs;
    if all % sizes.workers as u64 != 0 {
        return None;
    }
    Some(Run {
        sizes,
        jobs,
        share: all / sizes.workers as u64,
    })
}

/// Returns the run that the arguments ask for, if they are well formed.
pub(crate) fn parse(words: &[String]) -> Option<Run>
    ensures lanes { IfSome result (λ it. (0 < it.sizes.lanes)
        × (it.sizes.lanes ≤ MOST_LANES)) }
    ensures workers { IfSome result (λ it. it.sizes.workers ≤ MOST_WORKERS) }
    ensures some_room { IfSome result (λ it. 0 < it.sizes.capacity) }
    ensures capacity { IfSome result (λ it. it.sizes.capacity ≤ MOST_IN_A_LANE) }
    ensures jobs { IfSome result (λ it. it.jobs ≤ MAX_SUBMITS) }
{
    let [lanes, workers, capacity, jobs] = words else {
        return None;
    };
    let members = (lanes.parse::<u32>(), workers.parse::<u32>());
    let (Ok(lanes), Ok(workers)) = members else {
        return None;
    };
    let numbers = (capacity.parse::<u64>(), jobs.parse::<u64>());
    let (Ok(capacity), Ok(jobs)) = numbers else {
        return None;
    };
    let sizes = Sizes {
        lanes,
        workers,
        capacity,
    };
    run_of(sizes, jobs)
}
