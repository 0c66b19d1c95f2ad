//! The lanes of all threads: how they are opened, run and ended.
ghost use Rattle.std.specs.Prelude.{◌≡◌, ◌<◌, ◌≤◌};
ghost use Rattle.std.specs.List.{All};
ghost use Rattle.bitmap_tree.specs.Handles.{dim_of, permits_of, IsHeldOf};
ghost use Rattle.cube_bench.specs.RegionLanes.{FitsIn, IsLaneOf};
ghost use Rattle.cube_bench.specs.RegionWords.{IsPossible};
ghost use Rattle.cube_bench.specs.declared.regions.words.TheConstants.{MAX_THREADS};

use crate::regions::lanes::{Lane, Plan, swap_remove};
use crate::regions::random::Random;
use crate::regions::turns::make_turns;
use crate::regions::words::{Invocation, Scenario};
use bitmap_tree::{BitmapTree, HeldBlock};
use std::alloc::Global;
use std::rt::Clock;
use std::thread::{Threads, for_each_mut};

// Returns the largest dimension of a block that fits into a budget, at least `low`.
fn fitting(low: u32, high: u32, budget: u64) -> u32
    requires { low ≤ high }
    ensures { (low ≤ result) × (result ≤ high) }
{
    budget.max(1).ilog2().clamp(low, high)
}

// Returns the plan of a lane.
fn plan_of(tree: &BitmapTree, invocation: Invocation, number: u32) -> Plan
    requires possible { IsPossible invocation }
    requires anyone { permits_of tree.now ≡ 0 }
    requires dim { invocation.dim ≡ dim_of tree.now }
    requires number { number < MAX_THREADS }
    ensures { FitsIn tree.now result }
{
    let Invocation {
        dim,
        low,
        high,
        load,
        threads,
        ..
    } = invocation;
    let processors = 1u64 << dim;
    let budget = if invocation.scenario == Scenario::Churn {
        Some(processors * load / 1000 / threads as u64)
    } else {
        None
    };
    let high = match budget {
        Some(budget) => fitting(low, high, budget),
        None => high,
    };
    Plan {
        start: tree.start_of(number),
        low,
        high,
        is_exact: invocation.is_exact,
        times_turns: invocation.times_turns,
        budget,
    }
}

// Moves this many of the blocks, at random, to a list of their own. Returns how many processors
// they have.
fn deal(
    tree: &BitmapTree,
    random: &mut Random,
    blocks: &mut Vec<HeldBlock>,
    count: usize,
    dealt: &mut Vec<HeldBlock>,
) -> u64
    requires blocks { All (IsHeldOf tree.now) blocks.old.items }
    requires dealt { All (IsHeldOf tree.now) dealt.old.items }
    ensures blocks { All (IsHeldOf tree.now) blocks.new.items }
    ensures dealt { All (IsHeldOf tree.now) dealt.new.items }
{
    let mut processors = 0u64;
    for _ in 0..count {
        if blocks.is_empty() || dealt.reserve(1).is_err() {
            return processors;
        }
        let index = (random.next() >> 20) as usize % blocks.len();
        let block = swap_remove(tree, blocks, index);
        processors = processors.wrapping_add(1 << block.region().dim.min(63));
        dealt.push_reserved(block);
    }
    processors
}

// Opens a lane, with this many of the blocks where it keeps them.
fn open_lane(
    tree: &BitmapTree,
    alloc: Global,
    plan: Plan,
    number: u32,
    blocks: &mut Vec<HeldBlock>,
    count: usize,
) -> Lane
    requires plan { FitsIn tree.now plan }
    requires blocks { All (IsHeldOf tree.now) blocks.old.items }
    ensures blocks { All (IsHeldOf tree.now) blocks.new.items }
    ensures lane { IsLaneOf tree.now result }
{
    let mut random = Random::of_lane(number as u64);
    let mut held = Vec::new(alloc);
    let mut in_use = 0;
    if plan.budget.is_some() {
        in_use = deal(tree, &mut random, blocks, count, &mut held);
    }
    Lane {
        plan,
        random,
        held,
        in_use,
        refused: 0,
        times: if plan.times_turns {
            Some(Vec::new(alloc))
        } else {
            None
        },
        padding: [0; 16],
    }
}

/// Opens the lanes of all threads. Where the threads keep blocks, it deals out those that are held.
pub(crate) fn open_lanes(
    tree: &BitmapTree,
    alloc: Global,
    invocation: Invocation,
    blocks: &mut Vec<HeldBlock>,
    lanes: &mut Vec<Lane>,
)
    requires possible { IsPossible invocation }
    requires anyone { permits_of tree.now ≡ 0 }
    requires dim { invocation.dim ≡ dim_of tree.now }
    requires blocks { All (IsHeldOf tree.now) blocks.old.items }
    requires lanes { All (IsLaneOf tree.now) lanes.old.items }
    ensures blocks { All (IsHeldOf tree.now) blocks.new.items }
    ensures lanes { All (IsLaneOf tree.now) lanes.new.items }
{
    let count = blocks.len() / invocation.threads as usize;
    for number in 0..invocation.threads {
        if lanes.reserve(1).is_err() {
            return;
        }
        let plan = plan_of(tree, invocation, number);
        lanes.push_reserved(open_lane(tree, alloc, plan, number, blocks, count));
    }
}

/// Makes this many turns of each lane, each on a thread of its own.
pub(crate) fn run_all<R: Threads + Clock + Sync>(
    rt: &R,
    tree: &BitmapTree,
    turns: u64,
    lanes: &mut [Lane],
)
    requires { All (IsLaneOf tree.now) lanes.old }
    ensures { All (IsLaneOf tree.now) lanes.new }
{
    let count = lanes.len().max(1);
    for_each_mut(
        rt,
        lanes,
        count,
        &|_, lane|
            requires { IsLaneOf tree.now lane.now }
            ensures { IsLaneOf tree.entry.now lane.exit.now }
        { make_turns(rt, tree, lane, turns) },
    );
}

/// Returns how many takes of the lanes were refused.
pub(crate) fn refused_of_all(lanes: &[Lane]) -> u64 {
    let mut refused = 0u64;
    for lane in lanes {
        refused = refused.wrapping_add(lane.refused);
    }
    refused
}

/// Returns the times of the turns of all lanes, in order.
pub(crate) fn times_of_all(alloc: Global, lanes: &[Lane]) -> Option<Vec<u64>> {
    let mut all = Vec::new(alloc);
    for lane in lanes {
        if let Some(times) = &lane.times {
            all.extend_from_slice(times).ok()?;
        }
    }
    all.sort_unstable();
    Some(all)
}
