//! What each thread works with.
ghost use Rattle.std.specs.Prelude.{◌<◌, length};
ghost use Rattle.std.specs.List.{All};
ghost use Rattle.bitmap_tree.specs.Handles.{IsHeldOf};

use crate::regions::random::Random;
use bitmap_tree::{BitmapTree, HeldBlock};

/// The dimensions that a thread asks for, and how it takes blocks.
#[derive(Clone, Copy)]
pub(crate) struct Plan {
    /// The processor near which its searches begin.
    pub start: u64,
    pub low: u32,
    pub high: u32,
    /// Whether a take looks at each word before it refuses, where its block is not kept.
    pub is_exact: bool,
    pub times_turns: bool,
    /// The number of processors that its blocks may have, where it keeps them.
    pub budget: Option<u64>,
}

/// What a thread works with.
pub(crate) struct Lane {
    pub plan: Plan,
    pub random: Random,
    /// The blocks that it keeps, and how many processors they have.
    pub held: Vec<HeldBlock>,
    pub in_use: u64,
    /// The number of refused takes since the lane began its turns.
    pub refused: u64,
    /// The nanoseconds of each turn, if turns are timed.
    pub times: Option<Vec<u64>>,
    /// Two cache lines, so that no two threads write to one.
    pub padding: [u64; 16],
}

/// Removes a block from a list. The last one takes its place.
pub(crate) fn swap_remove(tree: &BitmapTree, blocks: &mut Vec<HeldBlock>, index: usize) -> HeldBlock
    requires index { index < length blocks.old.items }
    requires blocks { All (IsHeldOf tree.now) blocks.old.items }
    ensures block { IsHeldOf tree.now result }
    ensures blocks { All (IsHeldOf tree.now) blocks.new.items }
{
    blocks.swap_remove(index)
}
