//! The arguments of a measurement of a queue.
ghost use Rattle.std.specs.Prelude.{◌≡◌, ◌<◌, ◌≤◌, IfSome};

use cube_shape::{MAX_CAPACITY, MAX_LANES, MAX_PASSES};
use job_queue::Sizes;

/// The dimension of the machine that the jobs are for.
pub(crate) const MACHINE: u32 = 2;

/// The largest number of jobs of a lane.
pub(crate) const MAX_JOBS: usize = 1_000_000;

/// The run that the arguments ask for.
#[derive(Clone, Copy)]
pub(crate) struct Invocation {
    pub is_ruled: bool,
    pub sizes: Sizes,
    /// The number of jobs of each lane.
    pub jobs: usize,
    pub times_calls: bool,
}

// The queue and the numbers of a run, as the arguments have them.
struct Numbers {
    is_ruled: bool,
    lanes: u32,
    passes: u32,
    capacity: usize,
    jobs: usize,
}

// Returns the queue and the numbers of these arguments.
fn numbers_of(words: &[String]) -> Option<Numbers> {
    let [line, lanes, passes, capacity, jobs, ..] = words else {
        return None;
    };
    let counts = (is_ruled(line), lanes.parse::<u32>(), passes.parse::<u32>());
    let (Some(is_ruled), Ok(lanes), Ok(passes)) = counts else {
        return None;
    };
    let sizes = (capacity.parse::<usize>(), jobs.parse::<usize>());
    let (Ok(capacity), Ok(jobs)) = sizes else {
        return None;
    };
    Some(Numbers {
        is_ruled,
        lanes,
        passes,
        capacity,
        jobs,
    })
}

// Returns whether this is the lock-free queue, if it is one.
fn is_ruled(name: &str) -> Option<bool> {
    match name {
        "ruled" => Some(true),
        "locked" => Some(false),
        _ => None,
    }
}

// Returns the run of these numbers, if they are within the limits. The passes share the jobs
// evenly.
fn run_of(numbers: Numbers, times_calls: bool) -> Option<Invocation>
    ensures lanes { IfSome result (λ it. it.sizes.lanes ≤ MAX_LANES) }
    ensures passes { IfSome result (λ it.
        (0 < it.sizes.passes) × (it.sizes.passes ≤ MAX_PASSES)) }
    ensures capacity { IfSome result (λ it.
        (0 < it.sizes.capacity) × (it.sizes.capacity ≤ MAX_CAPACITY)) }
    ensures machine { IfSome result (λ it. it.sizes.machine ≡ MACHINE) }
    ensures jobs { IfSome result (λ it. it.jobs ≤ MAX_JOBS) }
{
    let Numbers {
        is_ruled,
        lanes,
        passes,
        capacity,
        jobs,
    } = numbers;
    if lanes > MAX_LANES || passes > MAX_PASSES || capacity > MAX_CAPACITY || jobs > MAX_JOBS {
        return None;
    }
    if passes == 0 || capacity == 0 || lanes as usize * jobs % passes as usize != 0 {
        return None;
    }
    let sizes = Sizes {
        machine: MACHINE,
        lanes,
        passes,
        capacity,
    };
    Some(Invocation {
        is_ruled,
        sizes,
        jobs,
        times_calls,
    })
}

/// Returns the run that the arguments ask for, if they are well formed.
pub(crate) fn parse_words(words: &[String]) -> Option<Invocation>
    ensures lanes { IfSome result (λ it. it.sizes.lanes ≤ MAX_LANES) }
    ensures passes { IfSome result (λ it.
        (0 < it.sizes.passes) × (it.sizes.passes ≤ MAX_PASSES)) }
    ensures capacity { IfSome result (λ it.
        (0 < it.sizes.capacity) × (it.sizes.capacity ≤ MAX_CAPACITY)) }
    ensures machine { IfSome result (λ it. it.sizes.machine ≡ MACHINE) }
    ensures jobs { IfSome result (λ it. it.jobs ≤ MAX_JOBS) }
{
    if words.len() != 5 && words.len() != 6 {
        return None;
    }
    run_of(numbers_of(words)?, words.len() == 6)
}
