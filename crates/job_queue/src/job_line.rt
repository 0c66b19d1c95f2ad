// The contract of a queue of jobs, and the values that its calls take and return.
ghost use Rattle.std.specs.Prelude.{◌≡◌, ◌≢◌, ℕ, ◌<◌, ◌≤◌, List, Ok, Err, Some, None, IfOk, IfErr, OnErr, map, length, slice_index, ◌++◌};
ghost use Rattle.std.specs.List.{All};
ghost use Rattle.ghost_history.specs.Sums.{times};
ghost use Rattle.job_queue.specs.Record.{queued, fresh_lanes, fresh_passes, accepted, IsSettled};
ghost use Rattle.job_queue.specs.Line.{LineId, next_id, GainsEntry, GainsRefusal, GainsReading, taken_by, IsMadeFor, TakesMadeFor};
ghost use Rattle.job_queue.specs.Run.{WholeRun};

use crate::record::QueuedJob;
use cube_shape::{MAX_CAPACITY, MAX_DIM, MAX_ENTRIES, MAX_LANES, MAX_PASSES};
use job_types::{Job, JobId};
use std::alloc::{AllocError, Global};
use std::collections::VecDeque;
use std::sync::Wait;
use thiserror::Error;

/// The sizes of a queue.
#[derive(Clone, Copy, Debug, PartialEq, Eq)]
pub struct Sizes {
    /// The dimension of the machine that its jobs are for.
    pub machine: u32,
    /// The number of its lanes, which are numbered from 0.
    pub lanes: u32,
    /// The number of its passes, which are numbered from 0.
    pub passes: u32,
    /// The largest number of jobs that it holds at once.
    pub capacity: usize,
}

/// A new queue, with the handles that belong to it.
pub struct Opened<L, N, P, C> {
    /// The queue.
    pub line: L,
    /// Its lanes, in the order of their numbers.
    pub lanes: Vec<N>,
    /// Its passes, in the order of their numbers.
    pub passes: Vec<P>,
    /// The handle that closes it.
    pub closer: C,
}

/// The receipt for an accepted job.
#[derive(Clone, Copy, Debug, PartialEq, Eq)]
pub struct Receipt {
    /// The id that the job got.
    pub id: JobId,
    /// The number of the entry that brought it in.
    pub number: u64,
}

/// The reason for which a queue refused a job.
#[derive(Clone, Copy, Debug, PartialEq, Eq, Error)]
pub enum Refused {
    /// The queue is closed.
    #[error("the line is closed")]
    Closed {
        /// The count of entries that was read together with the closed mark.
        seen: u64,
    },
    /// The queue was full when the job arrived. The try cost the lane an entry.
    #[error("the line is full")]
    Full,
    /// The lane has made `MAX_ENTRIES` entries.
    #[error("the lane has made as many entries as it may")]
    LaneSpent,
}

/// The result of a take. A value of type `E` shows that the queue has ended.
#[derive(Debug, Drop)]
pub enum Taken<E> {
    /// A job, with its id.
    Job(JobId, Job),
    /// The queue was empty, and jobs may still come.
    EmptyNow,
    /// The queue was empty, and no job can come any more.
    Ended(E),
}

/// The jobs left in a queue at its end.
#[derive(Debug, Drop)]
pub struct Rest {
    /// The jobs that no pass took, front first.
    pub jobs: VecDeque<QueuedJob>,
    /// The number of accepted jobs of each lane, at the lane's number.
    pub accepted: Vec<u64>,
}

/// A queue of jobs. Lanes submit jobs, and passes take them.
///
/// Each lane and each pass has a record of what it is known to have done. Only its own calls change
/// that record. Lanes, passes, closers and notes are passed only to calls of the queue that made
/// them.
pub trait JobLine {
    ghost use Rattle.job_queue.specs.declared.record.LaneRecord.{LaneRecord};
    ghost use Rattle.job_queue.specs.declared.record.PassRecord.{PassRecord};

    /// The right to submit jobs of one lane (producer handle).
    type Lane;
    /// The right to take jobs (consumer handle).
    type Pass;
    /// The right to close the queue.
    type Closer;
    /// A token that shows that the queue is closed.
    type Note;
    /// A token that shows that the queue has ended. Only its own `take` makes one.
    type End: Drop;

    // Which queue it is.
    ghost id: { Self → LineId };

    // The lane belongs to this queue.
    ghost is_lane: { LineId → Self.Lane → Type 0 };

    // The pass belongs to this queue.
    ghost is_pass: { LineId → Self.Pass → Type 0 };

    // The closer belongs to this queue.
    ghost is_closer: { LineId → Self.Closer → Type 0 };

    // The note shows that this queue is closed.
    ghost is_note: { LineId → Self.Note → Type 0 };

    // What the lane is known to have done.
    ghost lane_record: { Self.Lane → LaneRecord };

    // What the pass is known to have done.
    ghost pass_record: { Self.Pass → PassRecord };

    // The close number: how many entries came before the close.
    ghost note_number: { Self.Note → ℕ };

    /// Opens a queue. It reserves all its memory before it makes a handle, and no other call
    /// allocates.
    fn open(
        alloc: Global,
        sizes: Sizes,
    ) -> Result<Opened<Self, Self::Lane, Self::Pass, Self::Closer>, AllocError>
        requires machine { sizes.machine ≤ MAX_DIM }
        requires lanes { sizes.lanes ≤ MAX_LANES }
        requires passes { sizes.passes ≤ MAX_PASSES }
        requires room { 0 < sizes.capacity }
        requires capacity { sizes.capacity ≤ MAX_CAPACITY }
        ensures sizes { IfOk result (λ made. (id made.line).sizes ≡ sizes) }
        ensures lanes { IfOk result (λ made. All (is_lane (id made.line)) made.lanes.items) }
        ensures passes { IfOk result (λ made. All (is_pass (id made.line)) made.passes.items) }
        ensures closer { IfOk result (λ made. is_closer (id made.line) made.closer) }
        ensures fresh_lanes { IfOk result (λ made.
            map lane_record made.lanes.items ≡ fresh_lanes sizes.lanes) }
        ensures fresh_passes { IfOk result (λ made.
            map pass_record made.passes.items ≡ fresh_passes sizes.passes) };

    /// Returns the lane's number.
    fn lane_number(lane: &Self::Lane) -> u32
        ensures { result ≡ (lane_record lane.now).number };

    /// Returns the number of entries that the lane has made, with those that found the queue full.
    fn entry_count(lane: &Self::Lane) -> u64
        ensures { result ≡ length (lane_record lane.now).entries };

    /// Returns the close number: how many entries came before the close.
    fn close_number(note: &Self::Note) -> u64
        ensures { result ≡ note_number note.now };

    /// Submits a job that was made for the queue's machine and for this lane.
    ///
    /// An accepted job costs the lane one entry, and so does `Full`. A refusal returns the job.
    /// `LaneSpent` comes exactly if the lane has made `MAX_ENTRIES` entries.
    fn submit<R: Wait>(
        &self,
        rt: &R,
        lane: &mut Self::Lane,
        job: Job,
    ) -> Result<Receipt, (Job, Refused)>
        requires lane { is_lane (id self.now) lane.old }
        requires machine { job.machine ≡ (id self.now).sizes.machine }
        requires made_for_lane { job.lane ≡ (lane_record lane.old).number }
        ensures lane { is_lane (id self.now) lane.new }
        ensures settled { IsSettled (lane_record lane.new) }
        ensures accepted { IfOk result (λ receipt. GainsEntry (lane_record lane.old)
            receipt.number (Some (queued receipt.id job)) (lane_record lane.new)) }
        ensures id { IfOk result (λ receipt. receipt.id ≡ next_id (lane_record lane.old)) }
        ensures gives_back { IfErr result (λ r. r.0 ≡ job) }
        ensures refused { IfErr result (λ r.
            GainsRefusal (lane_record lane.old) r.1 (lane_record lane.new)) }
        ensures spent_first { MAX_ENTRIES ≤ length (lane_record lane.old).entries →
            result ≡ Err (job, Refused.LaneSpent) }
        ensures spent_only { IfErr result (λ r. r.1 ≡ Refused.LaneSpent →
            MAX_ENTRIES ≤ length (lane_record lane.old).entries) };

    /// Returns whether half of the queue's places look free, as a hint for a producer that waits.
    /// The hint promises nothing about a later call. A queue that cannot know without a try returns
    /// true.
    fn room_hint<R: Wait>(&self, rt: &R, lane: &mut Self::Lane) -> bool
        requires { is_lane (id self.now) lane.old }
        ensures lane { is_lane (id self.now) lane.new }
        ensures unchanged { lane_record lane.new ≡ lane_record lane.old };

    /// Returns whether a job looks waiting, as a hint for a consumer that waits. The hint promises
    /// nothing about a later call. A queue that cannot know without a try returns true.
    fn job_hint<R: Wait>(&self, rt: &R, pass: &mut Self::Pass) -> bool
        requires { is_pass (id self.now) pass.old }
        ensures pass { is_pass (id self.now) pass.new }
        ensures unchanged { pass_record pass.new ≡ pass_record pass.old };

    /// Takes the job at the front of the queue, if there is one.
    fn take<R: Wait>(&self, rt: &R, pass: &mut Self::Pass) -> Taken<Self::End>
        requires { is_pass (id self.now) pass.old }
        ensures pass { is_pass (id self.now) pass.new }
        ensures number { (pass_record pass.new).number ≡ (pass_record pass.old).number }
        ensures taken { (pass_record pass.new).taken
            ≡ (pass_record pass.old).taken ++ taken_by result }
        ensures readings { GainsReading (pass_record pass.old).readings result
            (pass_record pass.new).readings }
        ensures machine { TakesMadeFor (id self.now).sizes.machine result };

    /// Closes the queue.
    fn close<R: Wait>(&self, rt: &R, closer: Self::Closer) -> Self::Note
        requires { is_closer (id self.now) closer }
        ensures { is_note (id self.now) result };

    /// Ends a closed queue. It needs as many lanes and passes of the queue as the queue has, which
    /// are all of them.
    fn into_rest<R: Wait>(
        self,
        rt: &R,
        lanes: Vec<Self::Lane>,
        passes: Vec<Self::Pass>,
        note: Self::Note,
    ) -> Rest
        requires lanes { All (is_lane (id self)) lanes.items }
        requires all_lanes { length lanes.items ≡ (id self).sizes.lanes }
        requires passes { All (is_pass (id self)) passes.items }
        requires all_passes { length passes.items ≡ (id self).sizes.passes }
        requires note { is_note (id self) note }
        ensures run { WholeRun (map lane_record lanes.items) (map pass_record passes.items)
            result.jobs.items (note_number note) }
        ensures numbers { (k : ℕ) → k < (id self).sizes.lanes →
            times k (map (λ l. (lane_record l).number) lanes.items) ≡ 1 }
        ensures lane_count { length result.accepted.items ≡ (id self).sizes.lanes }
        ensures accepted { All (λ l. slice_index result.accepted.items (lane_record l).number
            ≡ length (accepted (lane_record l).entries)) lanes.items }
        ensures fits { length result.jobs.items ≤ (id self).sizes.capacity }
        ensures machine { All (IsMadeFor (id self).sizes.machine) result.jobs.items };
}
