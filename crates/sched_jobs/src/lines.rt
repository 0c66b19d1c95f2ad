//! Waiting slots in queues, one for each class and dimension.

ghost use Rattle.std.specs.Prelude.{◌≡◌, ◌≢◌, ℕ, ◌+◌, ◌<◌, ◌≤◌, List, Option, Some, None, IfSome, IfNone, length};
ghost use Rattle.sched_jobs.specs.declared.queues.Queue.{Queue as QueueData};
ghost use Rattle.sched_jobs.specs.Nodes.{estimate_of, key_of};
ghost use Rattle.sched_law.specs.State.{set};
ghost use Rattle.sched_jobs.specs.Lines.{AreLines};
ghost use Rattle.sched_jobs.specs.Inner.Joins.{CanJoin, IsFirstIn, IsFirstWithin};

use crate::nodes::QueueNode;
use crate::queues::{Queue, oldest, oldest_within, push, queues_rest_on_their_slots, remove};
use cube_shape::MAX_BITMAP_DIM;

/// The number of classes. The class of a job is below it.
pub const CLASSES: u8 = 8;

/// The number of dimensions of blocks.
pub(crate) const DIMS: usize = MAX_BITMAP_DIM as usize + 1;

/// The number of lines: one for each class and dimension.
pub(crate) const LINES: usize = CLASSES as usize * DIMS;

/// Returns the key of a slot.
pub(crate) fn key_at(nodes: &[QueueNode], slot: u32) -> u64
    requires { slot < length nodes.now }
    ensures { result ≡ key_of nodes.now slot }
{
    nodes[slot as usize].key
}

/// Writes the key of a slot that is in no line.
pub(crate) fn put_key(nodes: &mut [QueueNode], slot: u32, key: u64)
    requires { slot < length nodes.old }
    ensures lines { (queues : List QueueData) (line : ℕ → Option ℕ)
        → AreLines nodes.old queues line → line slot ≡ None → AreLines nodes.new queues line }
    ensures key { key_of nodes.new slot ≡ key }
    ensures keys { (u : ℕ) → u ≢ slot → key_of nodes.new u ≡ key_of nodes.old u }
    ensures estimates { (u : ℕ) → estimate_of nodes.new u ≡ estimate_of nodes.old u }
{
    nodes[slot as usize].key = key;
    queues_rest_on_their_slots();
}

/// Returns the rank of a slot.
pub(crate) fn rank_at(nodes: &[QueueNode], slot: u32) -> u64
    requires { slot < length nodes.now }
    ensures { result ≡ estimate_of nodes.now slot }
{
    nodes[slot as usize].estimate
}

/// Writes the rank of a slot that is in no line.
pub(crate) fn put_rank(nodes: &mut [QueueNode], slot: u32, rank: u64)
    requires { slot < length nodes.old }
    ensures lines { (queues : List QueueData) (line : ℕ → Option ℕ)
        → AreLines nodes.old queues line → line slot ≡ None → AreLines nodes.new queues line }
    ensures rank { estimate_of nodes.new slot ≡ rank }
    ensures ranks { (u : ℕ) → u ≢ slot → estimate_of nodes.new u ≡ estimate_of nodes.old u }
    ensures keys { (u : ℕ) → key_of nodes.new u ≡ key_of nodes.old u }
{
    nodes[slot as usize].estimate = rank;
    queues_rest_on_their_slots();
}

/// Appends a slot to a queue, with a key above all keys of this queue.
pub(crate) fn join_line(
    nodes: &mut [QueueNode],
    queues: &mut [Queue],
    at: usize,
    slot: u32,
    key: u64,
    estimate: u64,
)
    requires at { at < length queues.old }
    requires slot { slot < length nodes.old }
    requires lines { (line : ℕ → Option ℕ) × CanJoin nodes.old queues.old line at slot key }
    ensures lines { (line : ℕ → Option ℕ) → CanJoin nodes.old queues.old line at slot key
        → AreLines nodes.new queues.new (set line slot (Some at)) }
    ensures key { key_of nodes.new slot ≡ key }
    ensures estimate { estimate_of nodes.new slot ≡ estimate }
    ensures keys { (u : ℕ) → u ≢ slot → key_of nodes.new u ≡ key_of nodes.old u }
    ensures estimates { (u : ℕ) → u ≢ slot → estimate_of nodes.new u ≡ estimate_of nodes.old u }
{
    push(nodes, &mut queues[at], slot, key, estimate);
}

/// Removes a slot from its queue.
pub(crate) fn leave_line(nodes: &mut [QueueNode], queues: &mut [Queue], at: usize, slot: u32)
    requires at { at < length queues.old }
    requires lines { (line : ℕ → Option ℕ) × (AreLines nodes.old queues.old line
        × (line slot ≡ Some at)) }
    ensures lines { (line : ℕ → Option ℕ) → AreLines nodes.old queues.old line
        → line slot ≡ Some at → AreLines nodes.new queues.new (set line slot None) }
    ensures keys { (u : ℕ) → key_of nodes.new u ≡ key_of nodes.old u }
    ensures estimates { (u : ℕ) → estimate_of nodes.new u ≡ estimate_of nodes.old u }
{
    remove(nodes, &mut queues[at], slot);
}

/// Returns the slot with the least key in a line.
pub(crate) fn first_in_line(nodes: &[QueueNode], queues: &[Queue], at: usize) -> Option<u32>
    requires at { at < length queues.now }
    requires lines { (line : ℕ → Option ℕ) × AreLines nodes.now queues.now line }
    ensures first { (line : ℕ → Option ℕ) → AreLines nodes.now queues.now line
        → IfSome result (IsFirstIn nodes.now line at) }
    ensures none { (line : ℕ → Option ℕ) → AreLines nodes.now queues.now line
        → IfNone result ((u : ℕ) → line u ≡ Some at → ⊥) }
{
    oldest(nodes, &queues[at])
}

/// Returns the slot with the least key among those of a line with an estimate of at most `limit`.
pub(crate) fn first_within(
    nodes: &[QueueNode],
    queues: &[Queue],
    at: usize,
    limit: u64,
) -> Option<u32>
    requires at { at < length queues.now }
    requires lines { (line : ℕ → Option ℕ) × AreLines nodes.now queues.now line }
    ensures first { (line : ℕ → Option ℕ) → AreLines nodes.now queues.now line
        → IfSome result (IsFirstWithin nodes.now line at limit) }
    ensures none { (line : ℕ → Option ℕ) → AreLines nodes.now queues.now line
        → IfNone result ((u : ℕ) → line u ≡ Some at → limit < estimate_of nodes.now u) }
{
    oldest_within(nodes, &queues[at], limit)
}
