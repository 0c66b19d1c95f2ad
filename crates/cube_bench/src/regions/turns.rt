//! The turns of one thread.
ghost use Rattle.std.specs.Prelude.{◌≡◌};
ghost use Rattle.cube_bench.specs.RegionLanes.{IsLaneOf};

use crate::outcome::nanos_since;
use crate::regions::lanes::{Lane, Plan, swap_remove};
use bitmap_tree::BitmapTree;
use std::rt::Clock;
use std::time::Instant;

// Takes a block of a random dimension, and releases it.
fn take_and_release(tree: &BitmapTree, lane: &mut Lane)
    requires { IsLaneOf tree.now lane.old }
    ensures { IsLaneOf tree.now lane.new }
{
    let Plan {
        start,
        low,
        high,
        ..
    } = lane.plan;
    match tree.take(lane.random.dim(low, high), start) {
        Ok(held) => {
            tree.release(held);
        }
        Err(_) => lane.refused = lane.refused.wrapping_add(1),
    }
}

// Does the same by the call that looks at each word before it refuses.
fn take_exactly_and_release(tree: &BitmapTree, lane: &mut Lane)
    requires { IsLaneOf tree.now lane.old }
    ensures { IsLaneOf tree.now lane.new }
{
    let Plan {
        start,
        low,
        high,
        ..
    } = lane.plan;
    match tree.take_exact(lane.random.dim(low, high), start) {
        Ok(held) => {
            tree.release(held);
        }
        Err(_) => lane.refused = lane.refused.wrapping_add(1),
    }
}

// Releases one of the blocks of the lane, at random.
fn release_random(tree: &BitmapTree, lane: &mut Lane)
    requires lane { IsLaneOf tree.now lane.old }
    ensures lane { IsLaneOf tree.now lane.new }
    ensures plan { lane.new.plan ≡ lane.old.plan }
{
    let count = lane.held.len();
    if count == 0 {
        return;
    }
    let index = (lane.random.next() >> 20) as usize % count;
    let held = swap_remove(tree, &mut lane.held, index);
    lane.in_use = lane.in_use.wrapping_sub(1 << held.region().dim.min(63));
    tree.release(held);
}

// Releases blocks of the lane at random, until it has room for one with `size` processors.
fn make_room(tree: &BitmapTree, lane: &mut Lane, budget: u64, size: u64)
    requires lane { IsLaneOf tree.now lane.old }
    ensures lane { IsLaneOf tree.now lane.new }
    ensures plan { lane.new.plan ≡ lane.old.plan }
{
    for _ in 0..lane.held.len() {
        if lane.in_use.saturating_add(size) <= budget {
            return;
        }
        release_random(tree, lane);
    }
}

// Takes a block of a random dimension and keeps it. Before, it releases others until it has room.
fn take_and_keep(tree: &BitmapTree, lane: &mut Lane, budget: u64)
    requires { IsLaneOf tree.now lane.old }
    ensures { IsLaneOf tree.now lane.new }
{
    let plan = lane.plan;
    let k = lane.random.dim(plan.low, plan.high);
    make_room(tree, lane, budget, 1 << k);
    if lane.held.reserve(1).is_err() {
        return;
    }
    match tree.take(k, plan.start) {
        Ok(held) => {
            lane.in_use = lane.in_use.wrapping_add(1 << k);
            lane.held.push_reserved(held);
        }
        Err(_) => {
            lane.refused = lane.refused.wrapping_add(1);
            release_random(tree, lane);
        }
    }
}

// Makes turns that keep nothing.
fn pair_turns(tree: &BitmapTree, lane: &mut Lane, turns: u64)
    requires { IsLaneOf tree.now lane.old }
    ensures { IsLaneOf tree.now lane.new }
{
    for _ in 0..turns {
        take_and_release(tree, lane);
    }
}

// Makes turns that keep nothing, by the call that looks at each word before it refuses.
fn exact_turns(tree: &BitmapTree, lane: &mut Lane, turns: u64)
    requires { IsLaneOf tree.now lane.old }
    ensures { IsLaneOf tree.now lane.new }
{
    for _ in 0..turns {
        take_exactly_and_release(tree, lane);
    }
}

// Makes turns that keep the blocks.
fn churn_turns(tree: &BitmapTree, lane: &mut Lane, turns: u64, budget: u64)
    requires { IsLaneOf tree.now lane.old }
    ensures { IsLaneOf tree.now lane.new }
{
    for _ in 0..turns {
        take_and_keep(tree, lane, budget);
    }
}

// Keeps a time, if there is room.
fn keep(times: &mut Vec<u64>, nanos: u64) {
    if times.reserve(1).is_ok() {
        times.push_reserved(nanos);
    }
}

// Makes a turn that keeps nothing. Returns its nanoseconds.
fn timed_turn<R: Clock>(rt: &R, tree: &BitmapTree, lane: &mut Lane) -> u64
    requires { IsLaneOf tree.now lane.old }
    ensures { IsLaneOf tree.now lane.new }
{
    let start = Instant::now(rt);
    take_and_release(tree, lane);
    match nanos_since(rt, start) {
        Some(nanos) => u64::try_from(nanos).unwrap_or(u64::MAX),
        None => 0,
    }
}

// Makes turns that keep nothing. Returns the nanoseconds of each.
fn timed_turns<R: Clock>(
    rt: &R,
    tree: &BitmapTree,
    lane: &mut Lane,
    turns: u64,
    times: &mut Vec<u64>,
)
    requires { IsLaneOf tree.now lane.old }
    ensures { IsLaneOf tree.now lane.new }
{
    for _ in 0..turns {
        let nanos = timed_turn(rt, tree, lane);
        keep(times, nanos);
    }
}

/// Makes the turns of a lane. Returns the nanoseconds of each, if turns are timed.
pub(crate) fn make_turns<R: Clock>(rt: &R, tree: &BitmapTree, lane: &mut Lane, turns: u64)
    requires { IsLaneOf tree.now lane.old }
    ensures { IsLaneOf tree.now lane.new }
{
    lane.refused = 0;
    if let Some(mut times) = lane.times.take() {
        times.clear();
        timed_turns(rt, tree, lane, turns, &mut times);
        lane.times = Some(times);
        return;
    }
    match lane.plan.budget {
        Some(budget) => churn_turns(tree, lane, turns, budget),
        None if lane.plan.is_exact => exact_turns(tree, lane, turns),
        None => pair_turns(tree, lane, turns),
    }
}
