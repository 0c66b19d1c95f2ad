// The records of lanes and passes: plain data that only contracts see.
use job_types::{Job, JobId};
use std::collections::LinkedList;

/// A job that a queue has accepted, with its id.
#[derive(Debug, Drop)]
pub struct QueuedJob {
    /// Its lane, and the number of that lane's jobs that were accepted before it.
    pub id: JobId,
    /// The job.
    pub job: Job,
}

/// An entry (ticket) of a lane: one attempt to bring a job into the queue. No program makes a value
/// of it.
pub struct Entry {
    /// The number of entries that all lanes made before it.
    pub number: u64,
    /// The job that was accepted, or `None` if the queue was full.
    pub job: Option<QueuedJob>,
}

/// The record of a lane: what it is known to have done. No program makes a value of it.
pub struct LaneRecord {
    /// The lane's number.
    pub number: u32,
    /// Its settled entries, in order.
    pub entries: LinkedList<Entry>,
    /// The number of an entry that is not settled yet.
    pub pending: Option<u64>,
    /// Whether it made an entry after the close and has not undone it.
    pub late: bool,
    /// Each count of entries that it read together with the closed mark, in order.
    pub seen: LinkedList<u64>,
}

/// What a pass read when it found the queue empty. No program makes a value of it.
pub struct Reading {
    /// The number of settled entries.
    pub settled: u64,
    /// The number of counted entries, read after `settled`.
    pub counted: u64,
    /// Whether the queue was closed, read with `counted`.
    pub closed: bool,
}

/// The record of a pass: what it is known to have done. No program makes a value of it.
pub struct PassRecord {
    /// The pass's number.
    pub number: u32,
    /// The jobs that it took, in order.
    pub taken: LinkedList<QueuedJob>,
    /// Its readings, in order.
    pub readings: LinkedList<Reading>,
}
