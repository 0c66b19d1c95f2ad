//! The content of a handle.

use sched_core::Scheduler;

/// A planner: a scheduler in its place on the heap.
#[derive(Drop)]
pub(crate) struct Planner {
    pub(crate) scheduler: Scheduler,
}
