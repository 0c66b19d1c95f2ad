//! Running a whole batch of jobs on threads.
ghost use Rattle.std.specs.Prelude.{◌≡◌, ◌≢◌, ℕ, ◌^◌, ◌<◌, ◌↔◌, [], None, Some, Ok, Err, true, not, ◌&&◌, IfOk, IfErr, IsTrue, ⊤, if◌then◌else◌, map, length, slice_index_or};
ghost use Rattle.std.specs.List.{All, list_any};
ghost use Rattle.job_queue.specs.Line.{IsFor};
ghost use Rattle.dispatcher.specs.declared.feeding.FeedStop.TheVariants.{Done};
ghost use Rattle.dispatcher_threads.specs.Batch.{IsBatchOutcome};
ghost use Rattle.dispatcher_threads.specs.Done.{is_cut_off, is_spent, is_idle, reason_of, IsDone};
ghost use Rattle.dispatcher_threads.specs.RunError.{MatchRunError};

use crate::running::{LaneEnd, RunEnd, run};
use crate::shared::{SharedFloor, SharedLine};
use dispatcher::{FeedStop, Runner, ShopRefused, ShopSizes, Stop};
use floors::Floor;
use job_queue::JobLine;
use job_types::Job;
use std::alloc::Global;
use std::collections::VecDeque;
use std::sync::Wait;
use std::thread::Threads;
use thiserror::Error;

/// The reason why a batch stopped before all of its jobs ran.
#[derive(Clone, Copy, Debug, PartialEq, Eq, Hash, Error)]
pub enum StopReason {
    /// Memory was refused.
    #[error("out of memory")]
    OutOfMemory,
    /// A lane has made as many entries as a lane may.
    #[error("a lane has made as many entries as it may")]
    Spent,
}

/// A batch that was not finished. It has the jobs, or the end of its run.
#[derive(Drop)]
pub enum RunError<M> {
    /// No job ran.
    Refused {
        /// The first size that is not within its limits, or `OutOfMemory`.
        why: ShopRefused,
        /// The jobs, as they were passed in.
        jobs: Vec<VecDeque<Job>>,
    },
    /// Some jobs may not have been submitted.
    Unfinished {
        /// Whether memory was refused, or a lane was spent.
        why: StopReason,
        /// The end of the run: the replies, and what each lane did not submit.
        end: RunEnd<M>,
    },
}

// Returns whether the feed never ran, or found the queue closed.
fn is_cut_off(stop: Option<FeedStop>) -> bool
    ensures { result ≡ is_cut_off stop }
{
    matches!(stop, None | Some(FeedStop::Closed { .. }))
}

// Returns whether the lane of the feed was spent.
fn is_spent(stop: Option<FeedStop>) -> bool
    ensures { result ≡ is_spent stop }
{
    matches!(stop, Some(FeedStop::LaneSpent))
}

// Returns whether the worker never ran.
fn is_idle(stop: Stop) -> bool
    ensures { result ≡ is_idle stop }
{
    stop == Stop::NotRun
}

// Returns whether the lane submitted its whole list.
fn is_fed(lane: &LaneEnd) -> bool
    ensures { IsTrue result ↔ (lane.now.stop ≡ Some FeedStop.Done) }
{
    matches!(lane.stop, Some(FeedStop::Done))
}

// Returns whether some worker never ran.
fn any_idle(stops: &[Stop]) -> bool
    ensures { result ≡ list_any is_idle stops.now }
{
    for stop in stops {
        if is_idle(*stop) {
            return true;
        }
    }
    false
}

// Returns whether all lanes submitted their whole lists.
fn all_fed(lanes: &[LaneEnd]) -> bool
    ensures { IsTrue result ↔ All (λ l. l.stop ≡ Some FeedStop.Done) lanes.now }
{
    for lane in lanes {
        if !is_fed(lane) {
            return false;
        }
    }
    true
}

// Returns whether each lane submitted its whole list and each worker ran.
fn is_done<M>(end: &RunEnd<M>) -> bool
    ensures { IsTrue result ↔ IsDone end.now }
{
    all_fed(&end.lanes) && !any_idle(&end.stops)
}

// Returns why not all jobs were submitted.
fn stop_reason<M>(end: &RunEnd<M>) -> StopReason
    ensures { result ≡ reason_of end.now }
{
    let mut spent = false;
    let mut cut_off = false;
    for lane in &end.lanes {
        spent = spent || is_spent(lane.stop);
        cut_off = cut_off || is_cut_off(lane.stop);
    }
    if spent && !cut_off && !any_idle(&end.stops) {
        StopReason::Spent
    } else {
        StopReason::OutOfMemory
    }
}

// Returns the outcome of a batch from its run. It is `Ok` if all is done.
fn batch_of<M>(
    ran: Result<RunEnd<M>, (ShopRefused, Vec<VecDeque<Job>>)>,
) -> Result<RunEnd<M>, RunError<M>>
    ensures done { IfOk result (λ end. (ran ≡ Ok end) × IsDone end) }
    ensures stopped { IfErr result (λ stopped. MatchRunError stopped
        (λ why back. ran ≡ Err (why, back))
        (λ why end. (ran ≡ Ok end) × (why ≡ reason_of end) × (¬ IsDone end))) }
{
    match ran {
        Ok(end) if is_done(&end) => Ok(end),
        Ok(end) => Err(RunError::Unfinished {
            why: stop_reason(&end),
            end,
        }),
        Err((why, jobs)) => Err(RunError::Refused { why, jobs }),
    }
}

/// Runs all jobs: the lists of the lanes, by number from 0 upwards.
///
/// It opens a dispatcher of these sizes with a lane for each list. Its workers submit all lists and
/// run the jobs, as [`run`] says. Then it finishes the dispatcher. Each job then has one right
/// reply, and the machine is wholly free.
///
/// # Errors
///
/// Nothing is lost. `Refused` has the jobs, and the first size that is not within its limits or
/// `OutOfMemory`. `Unfinished` has the end of a run in which memory was refused, or a lane was
/// spent.
pub fn answer_all<
    R: Threads + Wait + Sync,
    L: JobLine + SharedLine,
    F: Floor + SharedFloor,
    T: Runner + Sync,
>(
    rt: &R,
    alloc: Global,
    sizes: ShopSizes,
    runner: &T,
    jobs: Vec<VecDeque<Job>>,
) -> Result<RunEnd<F::Machine>, RunError<F::Machine>>
    requires lanes { length jobs.items < 2 ^ 32 }
    requires made_for { (k : ℕ) → k < length jobs.items →
        All (IsFor sizes.dim k) (slice_index_or (map (λ js. js.items) jobs.items) k []) }
    ensures { IsBatchOutcome L.JobLine F.Floor sizes jobs.items result }
{
    let ran = run::<R, L, F, T>(rt, alloc, sizes, runner, jobs);
    batch_of(ran)
}
