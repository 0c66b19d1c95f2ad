//! Threads take blocks of all sizes and release them, over a table of the processors in use.
ghost use Rattle.std.specs.Prelude.{◌≡◌, ◌≤◌};
ghost use Rattle.bitmap_tree.specs.Handles.{dim_of, permits_of};

use super::held::{expect_fresh, opened, taken};
use bitmap_tree::{BitmapTree, Region};
use std::process::Abort;
use std::sync::atomic::AtomicU64;
use std::sync::atomic::Ordering::SeqCst;
use std::thread::{Threads, for_each_mut};

// What a thread does, and what it counts.
#[derive(Drop)]
struct Lane {
    processor: u64,
    turns: u64,
    given: u64,
    faults: u64,
}

// Marks the first 64 processors of a block as in use, or as free. Returns how many were not as they
// should be.
fn count(owners: &[AtomicU64], block: Region, before: u64, after: u64) -> u64 {
    let mut faults = 0u64;
    for i in 0..1u64 << block.dim.min(6) {
        if let Some(owner) = owners.get(block.base.wrapping_add(i) as usize) {
            if owner.swap(after, SeqCst) != before {
                faults = faults.wrapping_add(1);
            }
        }
    }
    faults
}

// Takes and releases blocks of all dimensions in turn.
fn work(tree: &BitmapTree, owners: &[AtomicU64], lane: &mut Lane)
    requires anyone { permits_of tree.now ≡ 0 }
    requires dim { dim_of tree.now ≡ 13 }
{
    let mut k = 0;
    for _ in 0..lane.turns {
        if let Ok(held) = tree.take(k, lane.processor % 8192) {
            let region = held.region();
            let first = count(owners, region, 0, 1);
            let second = count(owners, region, 1, 0);
            lane.faults = lane.faults.wrapping_add(first.wrapping_add(second));
            lane.given = lane.given.wrapping_add(1);
            tree.release(held);
        }
        k = if k >= 13 { 0 } else { k + 1 };
    }
}

// All lanes at once, each on a thread of its own.
fn run<R: Threads + Sync>(rt: &R, tree: &BitmapTree, owners: &[AtomicU64], lanes: &mut [Lane])
    requires anyone { permits_of tree.now ≡ 0 }
    requires dim { dim_of tree.now ≡ 13 }
{
    for_each_mut(
        rt,
        lanes,
        4,
        &|_, lane|
            requires { (permits_of tree.now ≡ 0) × (dim_of tree.now ≡ 13) }
        { work(tree, owners, lane) },
    );
}

// A lane that begins at a processor.
fn lane_at(processor: u64) -> Lane {
    Lane {
        processor,
        turns: 5000,
        given: 0,
        faults: 0,
    }
}

#[test]
fn no_processor_is_held_twice(rt: HostRuntime) {
    let tree = opened(&rt, rt.alloc(), 13);
    let mut owners = Vec::new(rt.alloc());
    for _ in 0..8192 {
        let Ok(()) = owners.push(AtomicU64::new(0)) else {
            panic!(rt; "no memory")
        };
    }
    let mut lanes = [lane_at(0), lane_at(64), lane_at(128), lane_at(192)];
    run(&rt, &tree, &owners, &mut lanes);
    let mut given = 0u64;
    for lane in lanes.iter() {
        assert!(rt; lane.faults == 0);
        given = given.wrapping_add(lane.given);
    }
    // A thread may find the machine full in each of its turns, while another holds all of it.
    assert!(rt; given > 0);
    let whole = taken(&rt, &tree, 13, 0);
    tree.release(whole);
    let words = tree.close(Vec::new(rt.alloc()));
    expect_fresh(&rt, &words);
}
