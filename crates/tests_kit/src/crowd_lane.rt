//! What each thread of a crowd does: it takes blocks of mixed sizes, keeps several, and releases
//! them in any order.
ghost use Rattle.std.specs.Prelude.{◌≡◌, ◌<◌, ◌≤◌, vec_capacity, vec_len};
ghost use Rattle.std.specs.List.{All};
ghost use Rattle.bitmap_tree.specs.Handles.{dim_of, permits_of, IsHeldOf};
ghost use Rattle.tests_kit.specs.declared.crowd_lane.TheConstants.{KEPT};

use crate::kept::take_out;
use crate::owners::Owners;
use bitmap_tree::{BitmapTree, HeldBlock};
use rand_core::{Rng, SeedableRng};
use rand_xoshiro::Xoshiro256PlusPlus;
use std::alloc::Global;
use std::thread::{Threads, for_each_mut, yield_now};

/// The dimension of the machine of a crowd.
pub const CROWD_DIM: u32 = 12;

// The most blocks that a thread keeps.
const KEPT: usize = 8;

/// A thread of a crowd, and what it counted.
#[derive(Drop)]
pub struct CrowdLane {
    random: Xoshiro256PlusPlus,
    // The takes that it is to make.
    wanted: u64,
    /// The takes that succeeded.
    pub given: u64,
    /// The words of blocks that another thread used too.
    pub faults: u64,
}

impl CrowdLane {
    /// Creates the lane of this number, which is to make `takes` takes.
    pub fn new(number: u64, takes: u64) -> CrowdLane {
        CrowdLane {
            random: Xoshiro256PlusPlus::seed_from_u64(number),
            wanted: takes,
            given: 0,
            faults: 0,
        }
    }

    // A number below a limit.
    fn below(&mut self, limit: u64) -> u64
        requires { 0 < limit }
        ensures { result < limit }
    {
        self.random.next_u64() % limit
    }

    // A dimension. Small ones are more frequent.
    fn dimension(&mut self) -> u32
        ensures { result ≤ 12 }
    {
        let one = self.below(13);
        let other = self.below(13);
        one.min(other) as u32
    }

    // Releases one of the blocks.
    fn release_one(&mut self, tree: &BitmapTree, owners: &Owners, kept: &mut Vec<HeldBlock>)
        requires held { All (IsHeldOf tree.now) kept.old.items }
        requires some { 0 < vec_len kept.old }
        ensures held { All (IsHeldOf tree.now) kept.new.items }
        ensures fewer { vec_len kept.new < vec_len kept.old }
        ensures room { vec_capacity kept.new ≡ vec_capacity kept.old }
    {
        let at = self.below(kept.len() as u64) as usize;
        let held = take_out(tree, kept, at);
        let faults = owners.leave(held.region());
        self.faults = self.faults.wrapping_add(faults);
        tree.release(held);
    }

    // Takes a block near some processor. It releases one instead if it keeps the most, or if the
    // take is refused. If it keeps none then, it lets other threads run.
    fn turn(&mut self, tree: &BitmapTree, owners: &Owners, kept: &mut Vec<HeldBlock>)
        requires anyone { permits_of tree.now ≡ 0 }
        requires dim { dim_of tree.now ≡ 12 }
        requires held { All (IsHeldOf tree.now) kept.old.items }
        requires room { KEPT ≤ vec_capacity kept.old }
        ensures held { All (IsHeldOf tree.now) kept.new.items }
        ensures room { KEPT ≤ vec_capacity kept.new }
    {
        if kept.len() >= KEPT {
            self.release_one(tree, owners, kept);
            return;
        }
        let k = self.dimension();
        match tree.take(k, self.below(4096)) {
            Ok(held) => {
                let faults = owners.enter(held.region());
                self.faults = self.faults.wrapping_add(faults);
                self.given = self.given.wrapping_add(1);
                kept.push_reserved(held);
            }
            Err(_) => {
                if kept.is_empty() {
                    yield_now();
                } else {
                    self.release_one(tree, owners, kept);
                }
            }
        }
    }

    // Releases all blocks.
    fn release_all(&mut self, tree: &BitmapTree, owners: &Owners, mut kept: Vec<HeldBlock>)
        requires { All (IsHeldOf tree.now) kept.items }
    {
        while !kept.is_empty() {
            self.release_one(tree, owners, &mut kept);
        }
        kept.destroy_empty();
    }

    // Makes turns until all its takes have succeeded, and releases all blocks. It gives up after
    // 10,000 turns for each take.
    fn run(&mut self, tree: &BitmapTree, owners: &Owners, alloc: Global)
        requires anyone { permits_of tree.now ≡ 0 }
        requires dim { dim_of tree.now ≡ 12 }
    {
        let Ok(mut kept) = Vec::with_capacity(alloc, KEPT) else {
            return;
        };
        for _ in 0..self.wanted.saturating_mul(10_000) {
            if self.given >= self.wanted {
                break;
            }
            self.turn(tree, owners, &mut kept);
        }
        self.release_all(tree, owners, kept);
    }
}

/// Runs all lanes at once, each on a thread of its own.
pub fn run_lanes<R: Threads + Sync>(
    rt: &R,
    alloc: Global,
    tree: &BitmapTree,
    owners: &Owners,
    lanes: &mut [CrowdLane],
)
    requires anyone { permits_of tree.now ≡ 0 }
    requires dim { dim_of tree.now ≡ 12 }
{
    let threads = lanes.len().max(1);
    for_each_mut(
        rt,
        lanes,
        threads,
        &|_, lane|
            requires { (permits_of tree.now ≡ 0) × (dim_of tree.now ≡ 12) }
        { lane.run(tree, owners, alloc) },
    );
}
