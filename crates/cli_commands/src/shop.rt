// Running the jobs of lanes.
ghost use Rattle.std.specs.Prelude.{◌≡◌, Ok, All, IfErr, IfOk, List, Result};
ghost use Rattle.job_types.specs.Job.{JobData};
ghost use Rattle.jobs_csv.specs.Lanes.{AreLanes, ReturnsLanes};
ghost use Rattle.jobs_csv.specs.declared.fault.Fault.{Fault as TheFault};
ghost use Rattle.cli_commands.specs.Answer.{IsShopFault};
ghost use Rattle.cli_commands.specs.FileRun.{HasSpentLane, IsShopRun, ReturnsRun};
ghost use Rattle.cli_commands.specs.Inner.Shop.{error_of};

use crate::lanes::open_lanes;
use dispatcher::{Runner, ShopSizes};
use dispatcher_threads::{RunEnd, RunError, SharedFloor, SharedLine, StopReason, answer_all};
use floors::Floor;
use job_queue::JobLine;
use job_types::Job;
use jobs_csv::{Fault, FaultKind};
use std::alloc::Global;
use std::collections::VecDeque;
use std::sync::Wait;
use std::thread::Threads;

/// The error of a file whose jobs have not all run.
#[derive(Drop)]
pub struct AnswerError<M> {
    /// The first fault of the file, or what failed.
    pub fault: Fault,
    /// The run as far as it got, if there was one: the replies, and the jobs that each lane did not
    /// submit.
    pub end: Option<RunEnd<M>>,
}

// Returns the error of a dispatcher that has not run all jobs, with its run if there was one.
fn to_error<M: Drop>(stopped: RunError<M>) -> AnswerError<M>
    ensures { result ≡ error_of stopped }
{
    let (why, end) = match stopped {
        RunError::Unfinished { why, end } => (why, end),
        RunError::Refused { .. } => {
            return AnswerError {
                fault: Fault::no_memory(),
                end: None,
            };
        }
    };
    let what = match why {
        StopReason::OutOfMemory => FaultKind::OutOfMemory,
        StopReason::Spent => FaultKind::Spent,
    };
    AnswerError {
        fault: Fault { row: 0, what },
        end: Some(end),
    }
}

// Runs the jobs of these lanes.
pub(crate) fn answer_lanes<H, L, F, T>(
    rt: &H,
    alloc: Global,
    sizes: ShopSizes,
    runner: &T,
    lanes: Vec<VecDeque<Job>>,
) -> Result<RunEnd<F::Machine>, AnswerError<F::Machine>>
where
    H: Threads + Wait + Sync,
    L: JobLine + SharedLine,
    F: Floor + SharedFloor,
    T: Runner + Sync,
    requires lanes { (jobs : List JobData) × AreLanes lanes.items jobs
        × All (λ job. job.machine ≡ sizes.dim) jobs }
    ensures answered { (parse : Result (List JobData) TheFault) → ReturnsLanes parse (Ok lanes) →
        ReturnsRun F.machine_words sizes.dim parse result }
    ensures run { IfOk result (IsShopRun L.JobLine F.Floor sizes) }
    ensures failed { IfErr result (λ error. IsShopFault error.fault) }
    ensures spent { IfErr result (λ error.
        error.fault.what ≡ FaultKind.Spent → HasSpentLane error.end) }
{
    let lists = open_lanes(lanes);
    match answer_all::<H, L, F, T>(rt, alloc, sizes, runner, lists) {
        Ok(end) => Ok(end),
        Err(stopped) => Err(to_error(stopped)),
    }
}
