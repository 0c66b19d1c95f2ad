//! The height of a queue's tree, which no contract says.

ghost use Rattle.std.specs.Prelude.{◌≡◌, ℕ, ◌<◌, ◌≤◌, List, length};
ghost use Rattle.sched_jobs.specs.Queues.{IsQueue};
ghost use Rattle.sched_jobs.specs.InnerQueue.Tree.{IsAt, Tree, size_of};

use super::{Queue, is_empty, oldest, push, remove};
use crate::nodes::{MAX_SLOTS, QueueNode, fork_at};

// Returns a queue of the first slots, each with its number as key.
fn filled(nodes: &mut [QueueNode], count: u32) -> Queue
    requires limit { length nodes.old ≤ MAX_SLOTS }
    requires count { count ≤ length nodes.old }
    ensures { (slots : List ℕ) × IsQueue nodes.new result slots }
{
    let mut queue = Queue::new();
    for slot in 0..count {
        push(nodes, &mut queue, slot, slot as u64, 0);
    }
    queue
}

// Removes the oldest item, if there is one.
fn remove_first(nodes: &mut [QueueNode], queue: &mut Queue)
    requires { (slots : List ℕ) × IsQueue nodes.old queue.old slots }
    ensures { (slots : List ℕ) × IsQueue nodes.new queue.new slots }
{
    let Some(slot) = oldest(nodes, queue) else {
        return;
    };
    remove(nodes, queue, slot);
}

// Removes the oldest items.
fn remove_oldest(nodes: &mut [QueueNode], queue: &mut Queue, count: u32)
    requires { (slots : List ℕ) × IsQueue nodes.old queue.old slots }
    ensures { (slots : List ℕ) × IsQueue nodes.new queue.new slots }
{
    for _ in 0..count {
        remove_first(nodes, queue);
    }
}

// Returns the number of forks on the longest way down.
fn height_in(nodes: &[QueueNode], link: u32) -> u32
    requires { (tree : Tree) × IsAt nodes.now link tree }
    ensures { (tree : Tree) → IsAt nodes.now link tree → result < size_of tree }
{
    if link % 2 == 0 {
        return 0;
    }
    let fork = fork_at(nodes, link / 2);
    let left = height_in(nodes, fork.left);
    let right = height_in(nodes, fork.right);
    left.max(right) + 1
}

// Returns the height of a queue's tree, or 0 if it is empty.
fn height(nodes: &[QueueNode], queue: &Queue) -> u32
    requires { (slots : List ℕ) × IsQueue nodes.now queue.now slots }
{
    if is_empty(queue) {
        return 0;
    }
    height_in(nodes, queue.root)
}

#[test]
fn height_is_the_number_of_bits(rt: HostRuntime) {
    let mut nodes = [QueueNode::UNUSED; 256];
    let mut queue = filled(&mut nodes, 256);
    assert_eq!(rt; height(&nodes, &queue), 8);
    remove_oldest(&mut nodes, &mut queue, 64);
    assert_eq!(rt; height(&nodes, &queue), 8);
    remove_oldest(&mut nodes, &mut queue, 64);
    assert_eq!(rt; height(&nodes, &queue), 7);
    remove_oldest(&mut nodes, &mut queue, 126);
    assert_eq!(rt; height(&nodes, &queue), 1);
    remove_oldest(&mut nodes, &mut queue, 1);
    assert_eq!(rt; height(&nodes, &queue), 0);
    remove_oldest(&mut nodes, &mut queue, 1);
    assert!(rt; is_empty(&queue));
}
