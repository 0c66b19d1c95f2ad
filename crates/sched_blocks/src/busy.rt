//! The tree of busy processors.

ghost use Rattle.std.specs.Prelude.{◌≡◌, ℕ, ◌+◌, ◌^◌, ◌<◌, ◌≤◌, length, Bool, true, false, if◌then◌else◌};
ghost use Rattle.sched_law.specs.State.{set};
ghost use Rattle.fit_tree.specs.Rooms.{IsNode};
ghost use Rattle.sched_blocks.specs.Ends.{entry_of};
ghost use Rattle.sched_blocks.specs.Busy.{AreBusy, HasNoneBeside};

use cube_shape::MAX_BITMAP_DIM;

/// Returns how many processors have the blocks in use at a node or below it.
pub fn busy_at(busy: &[u32], node: usize) -> u32
    requires { node < length busy.now }
    ensures { result ≡ entry_of busy.now node }
{
    busy[node]
}

/// Notes that the block of a node of dimension `dim` is in use.
pub fn add_busy(busy: &mut [u32], n: u32, dim: u32, node: usize)
    requires machine { n ≤ MAX_BITMAP_DIM }
    requires busy { length busy.old ≡ 2 ^ (n + 1) }
    requires node { IsNode n dim node }
    ensures len { length busy.new ≡ length busy.old }
    ensures busy { (used : ℕ → Bool) → AreBusy n used busy.old → HasNoneBeside n used node
        → AreBusy n (set used node true) busy.new }
{
    set_busy(busy, n, dim, node, 1 << dim);
}

/// Notes that the block of a node of dimension `dim` is not in use any more.
pub fn drop_busy(busy: &mut [u32], n: u32, dim: u32, node: usize)
    requires machine { n ≤ MAX_BITMAP_DIM }
    requires busy { length busy.old ≡ 2 ^ (n + 1) }
    requires node { IsNode n dim node }
    ensures len { length busy.new ≡ length busy.old }
    ensures busy { (used : ℕ → Bool) → AreBusy n used busy.old → HasNoneBeside n used node
        → AreBusy n (set used node false) busy.new }
{
    set_busy(busy, n, dim, node, 0);
}

// Sets how many processors are busy in the block of a node, and mends the entries above it.
fn set_busy(busy: &mut [u32], n: u32, dim: u32, node: usize, count: u32)
    requires machine { n ≤ MAX_BITMAP_DIM }
    requires busy { length busy.old ≡ 2 ^ (n + 1) }
    requires node { IsNode n dim node }
    ensures len { length busy.new ≡ length busy.old }
    ensures busy { (used : ℕ → Bool) (is_used : Bool) → AreBusy n used busy.old
        → HasNoneBeside n used node → count ≡ (if is_used then 2 ^ dim else 0)
        → AreBusy n (set used node is_used) busy.new }
{
    busy[node] = count;
    let mut place = node;
    let mut own = count;
    for _ in dim..n {
        let sum = sum(own, busy[place ^ 1]);
        place /= 2;
        busy[place] = sum;
        own = sum;
    }
}

// Returns the sum of two counts. In counts that are right it does not wrap.
fn sum(left: u32, right: u32) -> u32
    ensures { left + right < 2 ^ 32 → result ≡ left + right }
{
    left.wrapping_add(right)
}
