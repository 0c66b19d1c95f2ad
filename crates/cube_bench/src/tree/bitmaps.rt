//! A tree of bitmaps, which threads share.
ghost use Rattle.std.specs.Prelude.{◌≡◌};
ghost use Rattle.bitmap_tree.specs.Handles.{dim_of as dim_of_tree, permits_of};

use crate::tree::lanes::DIM;
use crate::tree::turns::dim_of;
use crate::tree::words::Workload;
use bitmap_tree::BitmapTree;
use std::alloc::{AllocError, Global};
use std::thread;
use std::thread::Threads;

// The number of processors between the places at which two threads begin their searches.
const STRIDE: u64 = 64;

// The work of one thread, and its result.
#[derive(Drop)]
struct Lane {
    number: u32,
    // The number of takes that succeeded.
    given: u64,
}

// Makes the turns of a lane.
fn work(tree: &BitmapTree, workload: Workload, lane: &mut Lane)
    requires anyone { permits_of tree.now ≡ 0 }
    requires dim { dim_of_tree tree.now ≡ DIM }
{
    let near = STRIDE * lane.number as u64 % (1 << DIM);
    for index in 0..workload.turns {
        let k = dim_of(workload.sizes, lane.number, index);
        if let Ok(held) = tree.take(k, near) {
            tree.release(held);
            lane.given = lane.given.wrapping_add(1);
        }
    }
}

// Makes the turns of all lanes, each on a thread of its own.
fn work_all<R: Threads + Sync>(rt: &R, tree: &BitmapTree, workload: Workload, lanes: &mut [Lane])
    requires anyone { permits_of tree.now ≡ 0 }
    requires dim { dim_of_tree tree.now ≡ DIM }
{
    let count = lanes.len().max(1);
    thread::for_each_mut(
        rt,
        lanes,
        count,
        &|_, lane|
            requires { (permits_of tree.now ≡ 0) × (dim_of_tree tree.now ≡ DIM) }
        { work(tree, workload, lane) },
    );
}

/// Returns how many takes succeed on a tree of bitmaps with this many threads.
pub(crate) fn given_by_bitmaps<R: Threads + Sync>(
    rt: &R,
    alloc: Global,
    threads: u32,
    workload: Workload,
) -> Result<u64, AllocError> {
    let tree = BitmapTree::open(alloc, DIM)?;
    let mut lanes = Vec::new(alloc);
    for number in 0..threads {
        lanes.push(Lane { number, given: 0 })?;
    }
    work_all(rt, &tree, workload, &mut lanes);
    let mut sum = 0u64;
    for lane in lanes.iter() {
        sum = sum.wrapping_add(lane.given);
    }
    Ok(sum)
}
