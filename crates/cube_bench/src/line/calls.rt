//! The calls of a queue, and the times of the successful ones, if calls are timed.
ghost use Rattle.std.specs.Prelude.{◌≡◌};

use crate::outcome::nanos_since;
use job_queue::{JobLine, QueuedJob, Receipt, Refused, Taken};
use job_types::Job;
use std::alloc::Global;
use std::collections::VecDeque;
use std::io;
use std::rt::Clock;
use std::sync::{Mutex, Wait};
use std::time::Instant;

/// The jobs of a producer or of a consumer, and the nanoseconds of its successful calls, if they
/// are timed.
#[derive(Drop)]
pub(crate) struct Timed<T> {
    pub jobs: T,
    /// The number of calls that are to succeed.
    pub wanted: usize,
    pub times: Option<Vec<u64>>,
}

/// The jobs that a producer submits.
pub(crate) type Feeding = Timed<VecDeque<Job>>;

/// The jobs that a consumer has taken.
pub(crate) type Taking = Timed<Vec<QueuedJob>>;

/// Reserves room for the times of `count` calls, if they are timed.
pub(crate) fn room_for_times(
    alloc: Global,
    is_timed: bool,
    count: usize,
) -> Option<Option<Vec<u64>>> {
    if is_timed {
        Some(Some(Vec::with_capacity(alloc, count).ok()?))
    } else {
        Some(None)
    }
}

// Returns the nanoseconds of a call that began at this reading of the clock.
fn call_nanos<R: Clock>(rt: &R, start: io::Result<Instant>) -> u64 {
    match nanos_since(rt, start) {
        Some(nanos) => u64::try_from(nanos).unwrap_or(u64::MAX),
        None => 0,
    }
}

// Keeps a time, if there is room.
fn keep(times: &mut Vec<u64>, nanos: u64) {
    if times.reserve(1).is_ok() {
        times.push_reserved(nanos);
    }
}

/// Submits one job, and keeps its time if it was accepted.
pub(crate) fn submit<R: Wait + Clock, L: JobLine>(
    rt: &R,
    line: &L,
    lane: &mut L::Lane,
    job: Job,
    times: &mut Option<Vec<u64>>,
) -> Result<Receipt, (Job, Refused)>
    requires lane { L.is_lane (L.id line.now) lane.old }
    requires machine { job.machine ≡ (L.id line.now).sizes.machine }
    requires made_for_lane { job.lane ≡ (L.lane_record lane.old).number }
    ensures { L.is_lane (L.id line.now) lane.new }
{
    let Some(times) = times else {
        return line.submit(rt, lane, job);
    };
    let start = Instant::now(rt);
    let answer = line.submit(rt, lane, job);
    let nanos = call_nanos(rt, start);
    if answer.is_ok() {
        keep(times, nanos);
    }
    answer
}

/// Takes one job, and keeps its time if there was one.
pub(crate) fn take<R: Wait + Clock, L: JobLine>(
    rt: &R,
    line: &L,
    pass: &mut L::Pass,
    times: &mut Option<Vec<u64>>,
) -> Taken<L::End>
    requires { L.is_pass (L.id line.now) pass.old }
    ensures { L.is_pass (L.id line.now) pass.new }
{
    let Some(times) = times else {
        return line.take(rt, pass);
    };
    let start = Instant::now(rt);
    let answer = line.take(rt, pass);
    let nanos = call_nanos(rt, start);
    if matches!(answer, Taken::Job(..)) {
        keep(times, nanos);
    }
    answer
}

/// Returns the times of all producers, or of all consumers, in order.
pub(crate) fn times_of_all<R: Wait, T>(
    rt: &R,
    alloc: Global,
    all: &[Mutex<Timed<T>>],
) -> Option<Vec<u64>> {
    let mut times = Vec::new(alloc);
    for timed in all {
        if let Some(own) = &timed.lock(rt).times {
            times.extend_from_slice(own).ok()?;
        }
    }
    times.sort_unstable();
    Some(times)
}
