//! The jobs that lanes submit.
ghost use Rattle.std.specs.Prelude.{◌<◌, ◌≤◌, IfSome};
ghost use Rattle.std.specs.List.{All};
ghost use Rattle.job_queue.specs.Line.{IsFor};

use cube_shape::{MAX_DIM, MAX_LANES};
use job_types::{Job, Kind, Op};
use std::alloc::Global;
use std::collections::VecDeque;

// Makes an all-reduce of `items` ones.
fn job(alloc: Global, machine: u32, lane: u32, items: usize) -> Option<Job>
    requires machine { machine ≤ MAX_DIM }
    requires lane { lane < MAX_LANES }
    ensures { IfSome result (IsFor machine lane) }
{
    let items = vec![in alloc; 1; items].ok()?;
    Job::new(alloc, machine, lane, Kind::AllReduce { op: Op::Add }, items).ok()
}

/// Makes the jobs of one lane. Each is an all-reduce of `items` ones.
pub(crate) fn jobs_of(
    alloc: Global,
    machine: u32,
    lane: u32,
    items: usize,
    count: usize,
) -> Option<VecDeque<Job>>
    requires machine { machine ≤ MAX_DIM }
    requires lane { lane < MAX_LANES }
    ensures { IfSome result (λ js. All (IsFor machine lane) js.items) }
{
    let mut jobs = VecDeque::with_capacity(alloc, count).ok()?;
    for _ in 0..count {
        let made = job(alloc, machine, lane, items)?;
        let Ok(()) = jobs.push_back(made) else {
            return None;
        };
    }
    Some(jobs)
}
