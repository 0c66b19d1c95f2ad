//! Calls to which memory can be refused, and calls that take none.
ghost use Rattle.std.specs.Prelude.{◌≡◌};

use crate::BenchError;
use lanes::{Lane, Lanes, Members, Sizes, Worker};
use std::alloc::Global;
use std::io;

// The sizes of the lanes.
const LANES: u32 = 2;

const WORKERS: u32 = 1;

// Returns the sizes of the lanes.
fn sizes() -> Sizes
    ensures lanes { result.lanes ≡ LANES }
    ensures workers { result.workers ≡ WORKERS }
    ensures capacity { result.capacity ≡ 2 }
{
    Sizes {
        lanes: LANES,
        workers: WORKERS,
        capacity: 2,
    }
}

// Prints a call, and the number that came back.
fn tell<R: Print>(rt: &R, call: &str, back: u64) -> io::Result<u64> {
    println!(rt; "{call} {back}")?;
    Ok(1)
}

// Prints that a call was refused memory. It counts as none that had it.
fn refuse<R: Print>(rt: &R, call: &str) -> io::Result<u64> {
    println!(rt; "{call} OutOfMemory")?;
    Ok(0)
}

// Adds the counts of two calls.
fn sum(first: io::Result<u64>, second: io::Result<u64>) -> io::Result<u64> {
    Ok(first?.wrapping_add(second?))
}

// Closes lanes and ends them. It prints how many jobs are left.
fn end<R: Print>(
    rt: &R,
    lanes: Lanes,
    members: Members,
    first: Lane,
    second: Lane,
    worker: Worker,
) -> io::Result<u64>
    requires members { members.id ≡ lanes }
    requires dealt { (members.dealt_lanes ≡ lanes.plan.sizes.lanes)
        × (members.dealt_workers ≡ lanes.plan.sizes.workers) }
    requires sizes { (lanes.plan.sizes.lanes ≡ LANES) × (lanes.plan.sizes.workers ≡ WORKERS) }
    requires handles { (first.id ≡ lanes) × (second.id ≡ lanes) × (worker.id ≡ lanes) }
{
    let mut end = lanes.close(members.into_closer()).into_end();
    lanes.gather_lane(&mut end, first);
    lanes.gather_lane(&mut end, second);
    lanes.gather_worker(&mut end, worker);
    let rest = lanes.into_rest(end);
    tell(rt, "into_rest", rest.len() as u64)?;
    Ok(0)
}

// Deals out all handles of lanes, uses and ends them.
fn use_lanes<R: Print>(rt: &R, alloc: Global, lanes: Lanes, mut members: Members) -> io::Result<u64>
    requires members { members.id ≡ lanes }
    requires none_dealt { (members.dealt_lanes ≡ 0) × (members.dealt_workers ≡ 0) }
    requires sizes { (lanes.plan.sizes.lanes ≡ LANES) × (lanes.plan.sizes.workers ≡ WORKERS) }
{
    let mut first = lanes.deal_lane(&mut members);
    let second = lanes.deal_lane(&mut members);
    let Ok(worker) = lanes.deal_worker(alloc, &mut members) else {
        first.abandon();
        second.abandon();
        return refuse(rt, "deal_worker");
    };
    let dealt = tell(rt, "deal_worker", worker.number() as u64);
    let _accepted = lanes.submit(&mut first, 5, 1);
    let ended = end(rt, lanes, members, first, second, worker);
    sum(dealt, ended)
}

// Opens lanes and uses them. Returns how many calls had memory.
fn open_lanes<R: Print>(rt: &R, alloc: Global) -> io::Result<u64> {
    let Ok((lanes, members)) = Lanes::open(alloc, sizes()) else {
        return refuse(rt, "Lanes::open");
    };
    let opened = tell(rt, "Lanes::open", LANES as u64);
    sum(opened, use_lanes(rt, alloc, lanes, members))
}

/// Makes the calls, and prints how many had memory.
pub(crate) fn run<R: Print>(rt: &R, alloc: Global) -> Result<(), BenchError> {
    if rt.println("begin").is_err() {
        return Err(BenchError::Failed);
    }
    let Ok(count) = open_lanes(rt, alloc) else {
        return Err(BenchError::Failed);
    };
    match rt.println(count) {
        Ok(()) => Ok(()),
        Err(_) => Err(BenchError::Failed),
    }
}
