//! The threads of a run.
ghost use Rattle.std.specs.Prelude.{◌≡◌, ◌+◌, ◌<◌, ◌≤◌, [], length, vec_len, IfSome};
ghost use Rattle.std.specs.List.{All};
ghost use Rattle.lanes.specs.declared.sizes.TheConstants.{MAX_CAPACITY as MOST_IN_A_LANE, MAX_LANES as MOST_LANES, MAX_WORKERS as MOST_WORKERS};

use crate::check::{Seen, dim_of, payload_of};
use crate::words::Run;
use lanes::{
    Lane, LaneJob, Lanes, LanesEnd, MAX_LANES, MAX_WORKERS, Members, Submitted, TakenAny, Worker,
};
use std::alloc::Global;
use std::rt::Clock;
use std::sync::Wait;
use std::thread::{Threads, for_each_mut, join_mut, yield_now};
use std::time::Instant;

/// The outcome of a run.
#[derive(Clone, Copy)]
pub(crate) struct Outcome {
    /// The number of jobs that the workers took as they must.
    pub right: u64,
    /// The number of jobs that the lanes accepted until they were closed.
    pub accepted: u64,
    /// The number of jobs that were left.
    pub left: u64,
    /// The nanoseconds from the first submit to the last take.
    pub nanos: u128,
}

// A producer, and the number of jobs that it is to submit.
struct Producer {
    lane: Lane,
    jobs: u64,
}

// A worker, the lane at which it begins to look, and the jobs that it took. The list has room for
// all that it is to take.
struct Consumer {
    worker: Worker,
    from: u32,
    wanted: usize,
    taken: Vec<(u32, LaneJob)>,
}

// Submits one job, and tries again if the lane is full.
fn submit<R: Wait>(rt: &R, lanes: &Lanes, lane: &mut Lane, seq: u64)
    requires { lane.old.id ≡ lanes.now }
    ensures { lane.new.id ≡ lanes.now }
{
    let payload = payload_of(lane.number(), seq);
    for _ in rt.forever() {
        match lanes.submit(lane, payload, dim_of(seq)) {
            Submitted::Full => yield_now(),
            _ => return,
        }
    }
    unreachable!()
}

// Submits all jobs of a producer.
fn feed<R: Wait>(rt: &R, lanes: &Lanes, producer: &mut Producer)
    requires { producer.old.lane.id ≡ lanes.now }
    ensures { producer.new.lane.id ≡ lanes.now }
{
    for seq in 0..producer.jobs {
        submit(rt, lanes, &mut producer.lane, seq);
    }
}

// Takes all jobs that a worker is to take, and lets other threads run if there is none.
fn drain<R: Wait>(rt: &R, lanes: &Lanes, count: u32, consumer: &mut Consumer)
    requires worker { consumer.old.worker.id ≡ lanes.now }
    requires count { count ≡ lanes.now.plan.sizes.lanes }
    requires from { consumer.old.from < count }
    ensures worker { consumer.new.worker.id ≡ lanes.now }
    ensures from { consumer.new.from < count }
{
    for _ in rt.forever() {
        if consumer.taken.len() >= consumer.wanted || consumer.taken.reserve(1).is_err() {
            return;
        }
        match lanes.take_any(&mut consumer.worker, consumer.from) {
            TakenAny::AnyJob(lane, job, _) => {
                consumer.from = lane;
                consumer.taken.push_reserved((lane, job));
            }
            _ => yield_now(),
        }
    }
    unreachable!()
}

// Has all producers feed at once.
fn feed_all<R: Threads + Wait + Sync>(rt: &R, lanes: &Lanes, producers: &mut [Producer])
    requires { All (λ it. it.lane.id ≡ lanes.now) producers.old }
    ensures { All (λ it. it.lane.id ≡ lanes.now) producers.new }
{
    let feed_one = |_: usize, producer: &mut Producer|
        requires { producer.now.lane.id ≡ lanes.now }
        ensures { producer.exit.now.lane.id ≡ lanes.entry.now }
    { feed(rt, lanes, producer) };
    for_each_mut(rt, producers, MAX_LANES as usize, &feed_one);
}

// Has all workers drain at once.
fn drain_all<R: Threads + Wait + Sync>(
    rt: &R,
    lanes: &Lanes,
    count: u32,
    consumers: &mut [Consumer],
)
    requires workers { All (λ it. (it.worker.id ≡ lanes.now) × (it.from < count)) consumers.old }
    requires count { count ≡ lanes.now.plan.sizes.lanes }
    ensures { All (λ it. (it.worker.id ≡ lanes.now) × (it.from < count)) consumers.new }
{
    let drain_one = |_: usize, consumer: &mut Consumer|
        requires worker { (consumer.now.worker.id ≡ lanes.now) × (consumer.now.from < count) }
        requires count { count ≡ lanes.now.plan.sizes.lanes }
        ensures { (consumer.exit.now.worker.id ≡ lanes.entry.now)
            × (consumer.exit.now.from < count) }
    { drain(rt, lanes, count, consumer) };
    for_each_mut(rt, consumers, MAX_WORKERS as usize, &drain_one);
}

// Has all producers feed and all workers drain. Returns the nanoseconds that it took.
fn run_threads<R: Threads + Wait + Clock + Sync>(
    rt: &R,
    lanes: &Lanes,
    count: u32,
    producers: &mut [Producer],
    consumers: &mut [Consumer],
) -> Option<u128>
    requires lanes { All (λ it. it.lane.id ≡ lanes.now) producers.old }
    requires workers { All (λ it. (it.worker.id ≡ lanes.now) × (it.from < count)) consumers.old }
    requires count { count ≡ lanes.now.plan.sizes.lanes }
    ensures lanes { All (λ it. it.lane.id ≡ lanes.now) producers.new }
    ensures workers { All (λ it. (it.worker.id ≡ lanes.now) × (it.from < count)) consumers.new }
{
    let start = Instant::now(rt);
    let mut feeding = ||
        requires { All (λ it. it.lane.id ≡ lanes.now) producers.now }
        ensures { All (λ it. it.lane.id ≡ lanes.entry.now) producers.exit.now }
    { feed_all(rt, lanes, producers) };
    let mut draining = ||
        requires workers { All (λ it. (it.worker.id ≡ lanes.now)
            × (it.from < count)) consumers.now }
        requires count { count ≡ lanes.now.plan.sizes.lanes }
        ensures { All (λ it. (it.worker.id ≡ lanes.entry.now)
            × (it.from < count)) consumers.exit.now }
    { drain_all(rt, lanes, count, consumers) };
    join_mut(rt, &mut draining, &mut feeding);
    let elapsed = start.ok()?.elapsed(rt).ok()?;
    Some(elapsed.as_nanos())
}

// Returns how many of the jobs that the workers took are right.
fn count_right(alloc: Global, run: Run, consumers: &[Consumer]) -> Option<u64> {
    let mut seen = Seen::new(alloc, run.sizes.lanes, run.jobs).ok()?;
    let mut right = 0u64;
    for consumer in consumers {
        let mut nexts = vec![in alloc; 0u64; run.sizes.lanes as usize].ok()?;
        right = right.wrapping_add(seen.count_right(&consumer.taken, &mut nexts));
    }
    Some(right)
}

// Drops all handles.
fn abandon(mut producers: Vec<Producer>, mut consumers: Vec<Consumer>) {
    while let Some(producer) = producers.pop() {
        let Producer { lane, jobs: _ } = producer;
        lane.abandon();
    }
    producers.destroy_empty();
    while let Some(consumer) = consumers.pop() {
        let Consumer {
            worker,
            from: _,
            wanted: _,
            taken: _,
        } = consumer;
        worker.abandon();
    }
    consumers.destroy_empty();
}

// Deals out all lanes, in the order of their numbers.
fn producers_of(
    alloc: Global,
    run: Run,
    lanes: &Lanes,
    members: &mut Members,
) -> Option<Vec<Producer>>
    requires members { members.old.id ≡ lanes.now }
    requires none_dealt { members.old.dealt_lanes ≡ 0 }
    requires lanes { run.sizes ≡ lanes.now.plan.sizes }
    ensures members { members.new.id ≡ lanes.now }
    ensures workers { members.new.dealt_workers ≡ members.old.dealt_workers }
    ensures dealt { IfSome result (λ _. members.new.dealt_lanes ≡ run.sizes.lanes) }
    ensures lanes { IfSome result (λ all. (vec_len all ≡ run.sizes.lanes)
        × All (λ it. it.lane.id ≡ lanes.now) all.items) }
{
    let mut all = Vec::with_capacity(alloc, run.sizes.lanes as usize).ok()?;
    for _ in 0..run.sizes.lanes {
        let lane = lanes.deal_lane(members);
        all.push_reserved(Producer {
            lane,
            jobs: run.jobs,
        });
    }
    Some(all)
}

// Deals out one worker, with room for the jobs that it is to take.
fn consumer_of(
    alloc: Global,
    run: Run,
    lanes: &Lanes,
    members: &mut Members,
    number: u32,
) -> Option<Consumer>
    requires members { members.old.id ≡ lanes.now }
    requires number { members.old.dealt_workers ≡ number }
    requires more { number < lanes.now.plan.sizes.workers }
    requires lanes { run.sizes ≡ lanes.now.plan.sizes }
    requires some { 0 < run.sizes.lanes }
    ensures members { members.new.id ≡ lanes.now }
    ensures lanes { members.new.dealt_lanes ≡ members.old.dealt_lanes }
    ensures dealt { IfSome result (λ _. members.new.dealt_workers ≡ number + 1) }
    ensures worker { IfSome result (λ it. (it.worker.id ≡ lanes.now)
        × (it.from < run.sizes.lanes)) }
{
    let taken = Vec::with_capacity(alloc, run.share as usize).ok()?;
    let worker = lanes.deal_worker(alloc, members).ok()?;
    let from = (number as u64 * run.sizes.lanes as u64 / run.sizes.workers as u64) as u32;
    Some(Consumer {
        worker,
        from: from % run.sizes.lanes,
        wanted: run.share as usize,
        taken,
    })
}

// Deals out all workers, in the order of their numbers. Without memory it drops those that it has.
fn consumers_of(
    alloc: Global,
    run: Run,
    lanes: &Lanes,
    members: &mut Members,
) -> Option<Vec<Consumer>>
    requires members { members.old.id ≡ lanes.now }
    requires none_dealt { members.old.dealt_workers ≡ 0 }
    requires lanes { run.sizes ≡ lanes.now.plan.sizes }
    requires some { 0 < run.sizes.lanes }
    ensures members { members.new.id ≡ lanes.now }
    ensures lanes { members.new.dealt_lanes ≡ members.old.dealt_lanes }
    ensures dealt { IfSome result (λ _. members.new.dealt_workers ≡ run.sizes.workers) }
    ensures workers { IfSome result (λ all. (vec_len all ≡ run.sizes.workers)
        × All (λ it. (it.worker.id ≡ lanes.now) × (it.from < run.sizes.lanes)) all.items) }
{
    let mut all = Vec::with_capacity(alloc, run.sizes.workers as usize).ok()?;
    for number in 0..run.sizes.workers {
        match consumer_of(alloc, run, lanes, members, number) {
            Some(consumer) => all.push_reserved(consumer),
            None => {
                abandon(Vec::new(alloc), all);
                return None;
            }
        }
    }
    Some(all)
}

// Takes all lanes and all workers back.
fn gather(
    lanes: &Lanes,
    end: &mut LanesEnd,
    mut producers: Vec<Producer>,
    mut consumers: Vec<Consumer>,
)
    requires end { end.old.id ≡ lanes.now }
    requires none { (end.old.lanes ≡ []) × (end.old.workers ≡ []) }
    requires lanes { All (λ it. it.lane.id ≡ lanes.now) producers.items }
    requires workers { All (λ it. it.worker.id ≡ lanes.now) consumers.items }
    ensures end { end.new.id ≡ lanes.now }
    ensures lanes { length end.new.lanes ≡ vec_len producers }
    ensures workers { length end.new.workers ≡ vec_len consumers }
{
    while let Some(producer) = producers.pop() {
        let Producer { lane, jobs: _ } = producer;
        lanes.gather_lane(end, lane);
    }
    producers.destroy_empty();
    while let Some(consumer) = consumers.pop() {
        let Consumer {
            worker,
            from: _,
            wanted: _,
            taken: _,
        } = consumer;
        lanes.gather_worker(end, worker);
    }
    consumers.destroy_empty();
}

// Closes the lanes, and ends them. Returns how many jobs they accepted, and how many are left.
fn close(
    lanes: Lanes,
    members: Members,
    producers: Vec<Producer>,
    consumers: Vec<Consumer>,
) -> (u64, u64)
    requires members { members.id ≡ lanes }
    requires lanes { members.dealt_lanes ≡ lanes.plan.sizes.lanes }
    requires workers { members.dealt_workers ≡ lanes.plan.sizes.workers }
    requires all_lanes { (vec_len producers ≡ lanes.plan.sizes.lanes)
        × All (λ it. it.lane.id ≡ lanes) producers.items }
    requires all_workers { (vec_len consumers ≡ lanes.plan.sizes.workers)
        × All (λ it. it.worker.id ≡ lanes) consumers.items }
{
    let note = lanes.close(members.into_closer());
    let accepted = note.number();
    let mut end = note.into_end();
    gather(&lanes, &mut end, producers, consumers);
    let rest = lanes.into_rest(end);
    (accepted, rest.len() as u64)
}

// Runs all threads of these lanes, closes the lanes, and compares what came out.
fn run_lanes<R: Threads + Wait + Clock + Sync>(
    rt: &R,
    alloc: Global,
    run: Run,
    lanes: Lanes,
    mut members: Members,
) -> Option<Outcome>
    requires members { members.id ≡ lanes }
    requires none_dealt { (members.dealt_lanes ≡ 0) × (members.dealt_workers ≡ 0) }
    requires lanes { run.sizes ≡ lanes.plan.sizes }
    requires some { 0 < run.sizes.lanes }
{
    let mut producers = producers_of(alloc, run, &lanes, &mut members)?;
    let Some(mut consumers) = consumers_of(alloc, run, &lanes, &mut members) else {
        abandon(producers, Vec::new(alloc));
        return None;
    };
    let count = run.sizes.lanes;
    let nanos = run_threads(rt, &lanes, count, &mut producers, &mut consumers);
    let right = count_right(alloc, run, &consumers);
    let (accepted, left) = close(lanes, members, producers, consumers);
    Some(Outcome {
        right: right?,
        accepted,
        left,
        nanos: nanos?,
    })
}

/// Makes the run that the arguments ask for.
pub(crate) fn run<R: Threads + Wait + Clock + Sync>(
    rt: &R,
    alloc: Global,
    run: Run,
) -> Option<Outcome>
    requires lanes { (0 < run.sizes.lanes) × (run.sizes.lanes ≤ MOST_LANES) }
    requires workers { run.sizes.workers ≤ MOST_WORKERS }
    requires some_room { 0 < run.sizes.capacity }
    requires capacity { run.sizes.capacity ≤ MOST_IN_A_LANE }
{
    let (lanes, members) = Lanes::open(alloc, run.sizes).ok()?;
    run_lanes(rt, alloc, run, lanes, members)
}
