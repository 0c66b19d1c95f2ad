//! Passes jobs through a queue so that it can be timed. The arguments are
//! `LINE LANES PASSES CAPACITY JOBS [calls]`.
ghost use Rattle.std.specs.Prelude.{◌≡◌, ◌<◌, ◌≤◌};
ghost use Rattle.std.specs.List.{All};

mod calls;
mod words;

use crate::jobs::jobs_of;
use crate::outcome::{MeasureError, Measured, nanos_since};
use calls::{Feeding, Taking, Timed, room_for_times, submit, take, times_of_all};
use cube_shape::{MAX_CAPACITY, MAX_LANES, MAX_PASSES};
use dispatcher_threads::SharedLine;
use job_queue::{JobLine, Opened, QueuedJob, Refused, Rest, Sizes, Taken};
use line_ruled::RuledLine;
use locked_peers::LockedLine;
use std::alloc::Global;
use std::rt::Clock;
use std::sync::{Mutex, Wait};
use std::thread::{Threads, for_each_mut, join_mut, yield_now};
use std::time::Instant;
use words::{Invocation, MACHINE, MAX_JOBS, parse_words};

// Makes the jobs of each lane, at the lane's number.
fn jobs_of_all(alloc: Global, invocation: Invocation) -> Option<Vec<Mutex<Feeding>>>
    requires { invocation.sizes.lanes ≤ MAX_LANES }
{
    let mut all = Vec::new(alloc);
    for lane in 0..invocation.sizes.lanes {
        let feeding = Timed {
            jobs: jobs_of(alloc, MACHINE, lane, 1, invocation.jobs)?,
            wanted: invocation.jobs,
            times: room_for_times(alloc, invocation.times_calls, invocation.jobs)?,
        };
        all.push(Mutex::new(feeding)).ok()?;
    }
    Some(all)
}

// Makes an empty list with room for `count` jobs.
fn room(alloc: Global, times_calls: bool, count: usize) -> Option<Taking> {
    let Ok(jobs) = Vec::with_capacity(alloc, count) else {
        return None;
    };
    let times = room_for_times(alloc, times_calls, count)?;
    Some(Timed {
        jobs,
        wanted: count,
        times,
    })
}

// Makes a list with room for `count` jobs for each pass.
fn room_of_all(alloc: Global, invocation: Invocation, count: usize) -> Option<Vec<Mutex<Taking>>> {
    let mut all = Vec::new(alloc);
    for _ in 0..invocation.sizes.passes {
        let taking = room(alloc, invocation.times_calls, count)?;
        all.push(Mutex::new(taking)).ok()?;
    }
    Some(all)
}

// Submits the next job, which stays the next one if the queue is full. Returns whether there may be
// more to do.
fn feed_next<R: Wait + Clock, L: JobLine>(
    rt: &R,
    line: &L,
    lane: &mut L::Lane,
    feeding: &mut Feeding,
) -> bool
    requires lane { L.is_lane (L.id line.now) lane.old }
    requires machine { (L.id line.now).sizes.machine ≡ MACHINE }
    ensures { L.is_lane (L.id line.now) lane.new }
{
    let Some(job) = feeding.jobs.pop_front() else {
        return false;
    };
    if job.machine() != MACHINE || job.lane() != L::lane_number(lane) {
        return false;
    }
    let Err((job, refused)) = submit(rt, line, lane, job, &mut feeding.times) else {
        return true;
    };
    feeding.jobs.push_front_reserved(job);
    yield_now();
    matches!(refused, Refused::Full)
}

// Submits the jobs, and tries again if the queue is full.
fn feed<R: Wait + Clock, L: JobLine>(rt: &R, line: &L, lane: &mut L::Lane, feeding: &mut Feeding)
    requires lane { L.is_lane (L.id line.now) lane.old }
    requires machine { (L.id line.now).sizes.machine ≡ MACHINE }
    ensures { L.is_lane (L.id line.now) lane.new }
{
    for _ in rt.forever() {
        if !feed_next(rt, line, lane, feeding) {
            return;
        }
    }
    unreachable!()
}

// Takes the next job, if there is one and more are wanted. Returns whether there may be more to do.
fn drain_next<R: Wait + Clock, L: JobLine>(
    rt: &R,
    line: &L,
    pass: &mut L::Pass,
    taking: &mut Taking,
) -> bool
    requires { L.is_pass (L.id line.now) pass.old }
    ensures { L.is_pass (L.id line.now) pass.new }
{
    if taking.jobs.len() >= taking.wanted || taking.jobs.reserve(1).is_err() {
        return false;
    }
    match take(rt, line, pass, &mut taking.times) {
        Taken::Job(id, job) => {
            taking.jobs.push_reserved(QueuedJob { id, job });
            true
        }
        Taken::EmptyNow => {
            yield_now();
            true
        }
        Taken::Ended(_) => false,
    }
}

// Takes as many jobs as are wanted, for which the list has room.
fn drain<R: Wait + Clock, L: JobLine>(rt: &R, line: &L, pass: &mut L::Pass, taking: &mut Taking)
    requires { L.is_pass (L.id line.now) pass.old }
    ensures { L.is_pass (L.id line.now) pass.new }
{
    for _ in rt.forever() {
        if !drain_next(rt, line, pass, taking) {
            return;
        }
    }
    unreachable!()
}

// Feeds all lanes at once.
fn feed_all<R: Threads + Wait + Clock + Sync, L: JobLine + SharedLine>(
    rt: &R,
    line: &L,
    lanes: &mut [L::Lane],
    jobs: &[Mutex<Feeding>],
)
    requires lanes { All (L.is_lane (L.id line.now)) lanes.old }
    requires machine { (L.id line.now).sizes.machine ≡ MACHINE }
    ensures { All (L.is_lane (L.id line.now)) lanes.new }
{
    let feed_one = |number: usize, lane: &mut L::Lane|
        requires lane { L.is_lane (L.id line.now) lane.now }
        requires machine { (L.id line.now).sizes.machine ≡ MACHINE }
        ensures { L.is_lane (L.id line.entry.now) lane.exit.now }
    {
        if let Some(jobs) = jobs.get(number) {
            feed(rt, line, lane, &mut jobs.lock(rt));
        }
    };
    for_each_mut(rt, lanes, MAX_LANES as usize, &feed_one);
}

// Drains by all passes at once.
fn drain_all<R: Threads + Wait + Clock + Sync, L: JobLine + SharedLine>(
    rt: &R,
    line: &L,
    passes: &mut [L::Pass],
    taken: &[Mutex<Taking>],
)
    requires { All (L.is_pass (L.id line.now)) passes.old }
    ensures { All (L.is_pass (L.id line.now)) passes.new }
{
    let drain_one = |number: usize, pass: &mut L::Pass|
        requires { L.is_pass (L.id line.now) pass.now }
        ensures { L.is_pass (L.id line.entry.now) pass.exit.now }
    {
        if let Some(taken) = taken.get(number) {
            drain(rt, line, pass, &mut taken.lock(rt));
        }
    };
    for_each_mut(rt, passes, MAX_PASSES as usize, &drain_one);
}

// Feeds all lanes and drains by all passes at once. If no thread can be made, it feeds first.
fn run_threads<'a, R: Threads + Wait + Clock + Sync, L: JobLine + SharedLine>(
    rt: &'a R,
    line: &'a L,
    lanes: &'a mut [L::Lane],
    passes: &'a mut [L::Pass],
    jobs: &'a [Mutex<Feeding>],
    taken: &'a [Mutex<Taking>],
)
    requires lanes { All (L.is_lane (L.id line.now)) lanes.old }
    requires passes { All (L.is_pass (L.id line.now)) passes.old }
    requires machine { (L.id line.now).sizes.machine ≡ MACHINE }
    ensures lanes { All (L.is_lane (L.id line.now)) lanes.new }
    ensures passes { All (L.is_pass (L.id line.now)) passes.new }
{
    let mut feeding = ||
        requires lanes { All (L.is_lane (L.id line.now)) lanes.now }
        requires machine { (L.id line.now).sizes.machine ≡ MACHINE }
        ensures { All (L.is_lane (L.id line.entry.now)) lanes.exit.now }
    { feed_all(rt, line, lanes, jobs) };
    let mut draining = ||
        requires { All (L.is_pass (L.id line.now)) passes.now }
        ensures { All (L.is_pass (L.id line.entry.now)) passes.exit.now }
    { drain_all(rt, line, passes, taken) };
    join_mut(rt, &mut draining, &mut feeding);
}

// Returns the number of jobs that were accepted and are not left.
fn taken_of_all(rest: &Rest) -> u64 {
    let mut taken: u64 = 0;
    for accepted in &rest.accepted {
        taken = taken.wrapping_add(*accepted);
    }
    taken.wrapping_sub(rest.jobs.len() as u64)
}

// Returns how many jobs each pass takes.
fn share(invocation: Invocation) -> usize
    requires lanes { invocation.sizes.lanes ≤ MAX_LANES }
    requires passes { 0 < invocation.sizes.passes }
    requires jobs { invocation.jobs ≤ MAX_JOBS }
{
    invocation.jobs * invocation.sizes.lanes as usize / invocation.sizes.passes as usize
}

// Runs the threads on a new queue. Returns the number of jobs that were taken, and the nanoseconds.
fn run_line<R: Threads + Wait + Sync + Clock, L: JobLine + SharedLine>(
    rt: &R,
    alloc: Global,
    sizes: Sizes,
    jobs: &[Mutex<Feeding>],
    taken: &[Mutex<Taking>],
) -> Option<(u64, u128)>
    requires lanes { sizes.lanes ≤ MAX_LANES }
    requires passes { (0 < sizes.passes) × (sizes.passes ≤ MAX_PASSES) }
    requires capacity { (0 < sizes.capacity) × (sizes.capacity ≤ MAX_CAPACITY) }
    requires machine { sizes.machine ≡ MACHINE }
{
    let Ok(opened) = L::open(alloc, sizes) else {
        return None;
    };
    let Opened {
        line,
        mut lanes,
        mut passes,
        closer,
    } = opened;
    let start = Instant::now(rt);
    run_threads(rt, &line, &mut lanes, &mut passes, jobs, taken);
    let nanos = nanos_since(rt, start);
    let note = line.close(rt, closer);
    let rest = line.into_rest(rt, lanes, passes, note);
    Some((taken_of_all(&rest), nanos?))
}

// Returns what was measured of a run, with the times of its calls in order.
fn measured_of<R: Wait>(
    rt: &R,
    alloc: Global,
    ran: Option<(u64, u128)>,
    jobs: &[Mutex<Feeding>],
    taken: &[Mutex<Taking>],
) -> Option<Measured> {
    let (count, nanos) = ran?;
    let submits = times_of_all(rt, alloc, jobs)?;
    let takes = times_of_all(rt, alloc, taken)?;
    Some(Measured {
        count,
        nanos: Some(nanos),
        submits,
        takes,
    })
}

// Runs the threads on a new queue. Returns the number of jobs that were taken, and the nanoseconds.
// If calls were timed, it also returns those of each call in order.
fn measure_line<R: Threads + Wait + Sync + Clock, L: JobLine + SharedLine>(
    rt: &R,
    alloc: Global,
    invocation: Invocation,
) -> Option<Measured>
    requires lanes { invocation.sizes.lanes ≤ MAX_LANES }
    requires passes { (0 < invocation.sizes.passes) × (invocation.sizes.passes ≤ MAX_PASSES) }
    requires capacity { (0 < invocation.sizes.capacity)
        × (invocation.sizes.capacity ≤ MAX_CAPACITY) }
    requires machine { invocation.sizes.machine ≡ MACHINE }
    requires jobs { invocation.jobs ≤ MAX_JOBS }
{
    let count = share(invocation);
    let jobs = jobs_of_all(alloc, invocation)?;
    let taken = room_of_all(alloc, invocation, count)?;
    let ran = run_line::<R, L>(rt, alloc, invocation.sizes, &jobs, &taken);
    measured_of(rt, alloc, ran, &jobs, &taken)
}

/// Runs the queue that the arguments ask for. Counts the jobs that were taken, and times the run.
pub(crate) fn measure<R: Threads + Wait + Sync + Clock>(
    rt: &R,
    alloc: Global,
    words: &[String],
) -> Result<Measured, MeasureError> {
    let Some(invocation) = parse_words(words) else {
        return Err(MeasureError::BadWords);
    };
    let measured = if invocation.is_ruled {
        measure_line::<R, RuledLine>(rt, alloc, invocation)
    } else {
        measure_line::<R, LockedLine>(rt, alloc, invocation)
    };
    let Some(measured) = measured else {
        return Err(MeasureError::Failed);
    };
    Ok(measured)
}
