//! A trial: a crowd at a machine, and what it leaves.
ghost use Rattle.std.specs.Prelude.{◌≡◌};
ghost use Rattle.bitmap_tree.specs.Handles.{dim_of, permits_of};

use crate::crowd_lane::{CROWD_DIM, CrowdLane, run_lanes};
use crate::owners::Owners;
use bitmap_tree::BitmapTree;
use std::alloc::{AllocError, Global};
use std::thread::Threads;

/// The outcome of a trial.
#[derive(Clone, Copy, Debug, PartialEq, Eq)]
pub struct Outcome {
    /// The takes that succeeded.
    pub given: u64,
    /// The words of blocks in which two threads used one processor.
    pub faults: u64,
    /// Whether a take of the whole machine succeeded after all releases, and the words were then
    /// those of a new machine.
    pub is_whole: bool,
}

/// Returns whether these are the words of a machine in which nothing was ever taken. No bit of the
/// first word is set, and each other word is shut.
pub fn is_fresh(words: &[u64]) -> bool {
    let Some((top, others)) = words.split_first() else {
        return false;
    };
    let mut open = 0u64;
    for word in others.iter() {
        open |= !*word;
    }
    *top == 0 && open == 0
}

// Takes the whole machine, and releases it.
fn takes_all(tree: &BitmapTree) -> bool
    requires anyone { permits_of tree.now ≡ 0 }
    requires dim { dim_of tree.now ≡ 12 }
{
    match tree.take(12, 0) {
        Ok(held) => {
            tree.release(held);
            true
        }
        Err(_) => false,
    }
}

// Makes the lanes of a crowd, each of which is to make `takes` takes.
fn lanes_of(alloc: Global, threads: u64, takes: u64) -> Result<Vec<CrowdLane>, AllocError> {
    let mut lanes = Vec::new(alloc);
    for number in 0..threads {
        lanes.push(CrowdLane::new(number, takes))?;
    }
    Ok(lanes)
}

// Adds up what the lanes counted.
fn sums_of(lanes: &[CrowdLane], is_whole: bool) -> Outcome {
    let mut given = 0u64;
    let mut faults = 0u64;
    for lane in lanes.iter() {
        given = given.wrapping_add(lane.given);
        faults = faults.wrapping_add(lane.faults);
    }
    Outcome {
        given,
        faults,
        is_whole,
    }
}

/// Runs a crowd of this number of threads, each of which makes `takes` takes and their releases.
pub fn run_trial<R: Threads + Sync>(
    rt: &R,
    alloc: Global,
    threads: u64,
    takes: u64,
) -> Result<Outcome, AllocError> {
    let mut lanes = lanes_of(alloc, threads, takes)?;
    let owners = Owners::new(alloc, 64)?;
    let tree = BitmapTree::open(alloc, CROWD_DIM)?;
    run_lanes(rt, alloc, &tree, &owners, lanes.as_mut_slice());
    let is_whole = takes_all(&tree);
    let words = tree.close(Vec::new(alloc));
    Ok(sums_of(&lanes, is_whole && is_fresh(&words)))
}
