// The state of a `LockedLine`, and the work on it: sequential code.
ghost use Rattle.std.specs.Prelude.{◌≡◌, ◌+◌, ◌<◌, ◌≤◌, ◌^◌, IfOk, length, slice_index, MatchOption, true, false};
ghost use Rattle.std.specs.VecDeque.{deque_capacity};

use job_queue::{QueuedJob, Receipt, Sizes};
use job_types::{Job, JobId};
use std::alloc::{AllocError, Global};
use std::collections::VecDeque;

// The state of the queue: its jobs, the count of its entries, its closed mark, and the number of
// accepted jobs of each lane.
#[derive(Drop)]
pub(crate) struct Store {
    pub(crate) jobs: VecDeque<QueuedJob>,
    pub(crate) accepted: Vec<u64>,
    pub(crate) entries: u64,
    pub(crate) closed: bool,
    pub(crate) capacity: usize,
    ghost room: { capacity ≤ deque_capacity jobs },
}

// A token of a push that found the queue full. Only `Store::push` makes it, and it cannot be
// dropped.
pub(crate) struct SawFull(());

// A token of a pop that found the queue empty. Only `Store::pop` makes it, and it cannot be
// dropped.
pub(crate) struct SawEmpty(());

/// A token that shows that a `LockedLine` has ended: it was closed when a pop found it empty.
#[derive(Debug, Drop)]
pub struct LockedEnd(());

impl SawFull {
    pub(crate) fn spend(self) {
        let SawFull(()) = self;
    }
}

impl SawEmpty {
    pub(crate) fn spend(self) {
        let SawEmpty(()) = self;
    }
}

impl Store {
    ghost use Rattle.locked_peers.specs.InnerLine.View.{IsEmptyStore, Pushes, Pops, Shuts};

    pub(crate) fn new(alloc: Global, sizes: Sizes) -> Result<Store, AllocError>
        ensures { IfOk result (IsEmptyStore sizes) }
    {
        Ok(Store {
            jobs: VecDeque::with_capacity(alloc, sizes.capacity)?,
            accepted: vec![in alloc; 0; sizes.lanes as usize]?,
            entries: 0,
            closed: false,
            capacity: sizes.capacity,
        })
    }

    // Makes an entry. Its job comes in unless the queue is full.
    pub(crate) fn push(&mut self, lane: u32, job: Job) -> Result<Receipt, (Job, SawFull)>
        requires lane { lane < length self.old.accepted.items }
        requires entries { self.old.entries + 1 < 2 ^ 64 }
        requires accepted { slice_index self.old.accepted.items lane + 1 < 2 ^ 64 }
        ensures { Pushes self.old lane job result self.new }
    {
        let number = self.entries;
        self.entries += 1;
        if self.jobs.len() >= self.capacity {
            return Err((job, SawFull(())));
        }
        let seq = self.accepted[lane as usize];
        self.accepted[lane as usize] = seq + 1;
        let id = JobId { lane, seq };
        self.jobs.push_back_reserved(QueuedJob { id, job });
        Ok(Receipt { id, number })
    }

    // Takes the job at the front.
    pub(crate) fn pop(&mut self) -> Result<QueuedJob, SawEmpty>
        ensures { Pops self.old result self.new }
    {
        match self.jobs.pop_front() {
            Some(job) => Ok(job),
            None => Err(SawEmpty(())),
        }
    }

    // Sets the closed mark. Returns the count of entries.
    pub(crate) fn shut(&mut self) -> u64
        ensures { Shuts self.old result self.new }
    {
        self.closed = true;
        self.entries
    }

    // Returns the count of entries if the queue is closed.
    pub(crate) fn closed_at(&self) -> Option<u64>
        ensures { MatchOption result (self.now.closed ≡ false) (λ n.
            (self.now.closed ≡ true) × (n ≡ self.now.entries)) }
    {
        if self.closed {
            Some(self.entries)
        } else {
            None
        }
    }
    // Returns the end if a pop has found the queue empty and it is closed.
    pub(crate) fn find_end(&self, _saw: &SawEmpty) -> Option<LockedEnd>
        ensures { MatchOption result (self.now.closed ≡ false) (λ _. self.now.closed ≡ true) }
    {
        if !self.closed {
            return None;
        }
        Some(LockedEnd(()))
    }
}
