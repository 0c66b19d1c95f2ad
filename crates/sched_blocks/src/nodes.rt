//! The nodes of blocks, and what both trees note of them.

ghost use Rattle.std.specs.Prelude.{◌≡◌, ℕ, ◌+◌, ◌^◌, ◌<◌, ◌≤◌, Bool, true, false, length};
ghost use Rattle.cube_shape.specs.Region.{IsAligned};
ghost use Rattle.cube_shape.specs.Node.{IsNodeOf};
ghost use Rattle.fit_tree.specs.Rooms.{IsNode};
ghost use Rattle.sched_law.specs.State.{set};
ghost use Rattle.sched_blocks.specs.Ends.{AreEnds, HasNoEndBeside};
ghost use Rattle.sched_blocks.specs.Busy.{AreBusy, HasNoneBeside};

use crate::busy::{add_busy, drop_busy};
use crate::ends::set_end;
use cube_shape::{MAX_BITMAP_DIM, Region};
use fixed_vec::FixedVec;

/// Returns the node that names a block.
pub(crate) fn node_of(n: u32, region: Region) -> usize
    requires machine { n ≤ MAX_BITMAP_DIM }
    requires region { IsAligned n region }
    ensures named { IsNodeOf n result region }
    ensures node { IsNode n region.dim result }
    ensures inside { result < 2 ^ (n + 1) }
{
    (1 << (n - region.dim)) + (region.base >> region.dim) as usize
}

/// Returns the block of a node of dimension `k`.
pub(crate) fn block_of(n: u32, k: u32, node: usize) -> Region
    requires machine { n ≤ MAX_BITMAP_DIM }
    requires node { IsNode n k node }
    ensures named { IsNodeOf n node result }
    ensures dim { result.dim ≡ k }
{
    Region {
        base: ((node - (1 << (n - k))) << k) as u64,
        dim: k,
    }
}

/// Notes in both trees that a block is in use until an end.
pub(crate) fn note_use(
    ends: &mut FixedVec<u64>,
    busy: &mut FixedVec<u32>,
    n: u32,
    region: Region,
    end: u64,
)
    requires machine { n ≤ MAX_BITMAP_DIM }
    requires ends { length ends.old.items ≡ 2 ^ (n + 1) }
    requires busy { length busy.old.items ≡ 2 ^ (n + 1) }
    requires region { IsAligned n region }
    ensures ends_len { length ends.new.items ≡ length ends.old.items }
    ensures busy_len { length busy.new.items ≡ length busy.old.items }
    ensures ends { (own : ℕ → ℕ) (v : ℕ) → IsNodeOf n v region → AreEnds n own ends.old.items
        → HasNoEndBeside n own v → AreEnds n (set own v end) ends.new.items }
    ensures busy { (used : ℕ → Bool) (v : ℕ) → IsNodeOf n v region → AreBusy n used busy.old.items
        → HasNoneBeside n used v → AreBusy n (set used v true) busy.new.items }
{
    let node = node_of(n, region);
    set_end(ends, n, region.dim, node, end);
    add_busy(busy, n, region.dim, node);
}

/// Notes in both trees that a block is not in use any more.
pub(crate) fn note_idle(ends: &mut FixedVec<u64>, busy: &mut FixedVec<u32>, n: u32, region: Region)
    requires machine { n ≤ MAX_BITMAP_DIM }
    requires ends { length ends.old.items ≡ 2 ^ (n + 1) }
    requires busy { length busy.old.items ≡ 2 ^ (n + 1) }
    requires region { IsAligned n region }
    ensures ends_len { length ends.new.items ≡ length ends.old.items }
    ensures busy_len { length busy.new.items ≡ length busy.old.items }
    ensures ends { (own : ℕ → ℕ) (v : ℕ) → IsNodeOf n v region → AreEnds n own ends.old.items
        → HasNoEndBeside n own v → AreEnds n (set own v 0) ends.new.items }
    ensures busy { (used : ℕ → Bool) (v : ℕ) → IsNodeOf n v region → AreBusy n used busy.old.items
        → HasNoneBeside n used v → AreBusy n (set used v false) busy.new.items }
{
    let node = node_of(n, region);
    set_end(ends, n, region.dim, node, 0);
    drop_busy(busy, n, region.dim, node);
}
