//! Running a whole batch of jobs over the lock-free queue and the lock-free allocator.
ghost use Rattle.std.specs.Prelude.{ℕ, ◌^◌, ◌<◌, [], IfOk, IfErr, ⊤, map, length, slice_index_or};
ghost use Rattle.std.specs.List.{All};
ghost use Rattle.job_queue.specs.Line.{IsFor};
ghost use Rattle.cube_tree.specs.Ends.{machine_dim, machine_words};
ghost use Rattle.floor_tree.specs.Roll.{IsRollWhole};
ghost use Rattle.dispatcher_threads.specs.Batch.{IsAnsweredBatch, IsRefusedBatch, IsUnfinishedBatch};
ghost use Rattle.dispatcher_threads.specs.RunError.{MatchRunError};

use dispatcher::{Runner, ShopSizes};
use dispatcher_threads::{RunEnd, RunError};
use floor_tree::{FreeMachine, TreeFloor};
use job_types::Job;
use line_ruled::RuledLine;
use std::alloc::Global;
use std::collections::VecDeque;
use std::sync::Wait;
use std::thread::Threads;

/// Runs all jobs: the lists of the lanes, by number from 0 upwards. It opens a dispatcher of these
/// sizes with a lane for each list. Threads submit all lists at once, while all workers run jobs by
/// the runner. Then it finishes the dispatcher.
///
/// Each job then has one right reply, under its id, and the machine is wholly free. Each job must
/// be made for a machine of dimension `sizes.dim` and for its lane.
///
/// # Errors
///
/// Nothing is lost. `Refused` has the jobs, and the first size that is not within its limits or
/// `OutOfMemory`. `Unfinished` has the outcome of a run in which a thread or memory was refused, or
/// a lane was spent.
pub fn answer_all<R: Threads + Wait + Sync, T: Runner + Sync>(
    rt: &R,
    alloc: Global,
    sizes: ShopSizes,
    runner: &T,
    jobs: Vec<VecDeque<Job>>,
) -> Result<RunEnd<FreeMachine>, RunError<FreeMachine>>
    requires lanes { length jobs.items < 2 ^ 32 }
    requires made_for { (k : ℕ) → k < length jobs.items →
        All (IsFor sizes.dim k) (slice_index_or (map (λ js. js.items) jobs.items) k []) }
    ensures answered { IfOk result
        (IsAnsweredBatch machine_words machine_dim IsRollWhole sizes jobs.items) }
    ensures refused { IfErr result (λ stopped.
        MatchRunError stopped (IsRefusedBatch sizes jobs.items) (λ why end. ⊤)) }
    ensures unfinished { IfErr result (λ stopped.
        MatchRunError stopped (λ why back. ⊤) (IsUnfinishedBatch machine_words sizes jobs.items)) }
{
    dispatcher_threads::answer_all::<R, RuledLine, TreeFloor, T>(rt, alloc, sizes, runner, jobs)
}
