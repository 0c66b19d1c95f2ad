// What a seat of the table knows. No value of it is made.
use crate::record::{LaneRecord, WorkerRecord};
use crate::sizes::Plan;
use std::collections::LinkedList;
use wake_calls::{ThreadRecord, WakeDeed};

// Where the closer has closed each lane: the number of accepted jobs.
pub struct CloserRecord {
    pub plan: Plan,
    pub closed: LinkedList<Option<u64>>,
}

// The records that the seat carries.
pub struct View {
    pub lanes: LinkedList<LaneRecord>,
    pub workers: LinkedList<WorkerRecord>,
    pub closers: LinkedList<CloserRecord>,
}

// The same, and the threads whose steps the seat makes: workers, and other threads. It has their
// deeds, the newest first.
pub struct Both {
    pub known: View,
    pub sleepers: LinkedList<ThreadRecord>,
    pub others: LinkedList<ThreadRecord>,
    pub deeds: LinkedList<WakeDeed>,
}
