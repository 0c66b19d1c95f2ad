//! A caller of `dispatcher_threads`, `cube_ledger` and `floor_tree`.

ghost use Rattle.std.specs.Prelude.{◌≡◌, ℕ, ◌^◌, ◌<◌, [], IfSome, map, length, slice_index_or};
ghost use Rattle.std.specs.List.{All};
ghost use Rattle.job_queue.specs.Line.{IsFor};
ghost use Rattle.floors.specs.Floor.{IsWhollyFree};
ghost use Rattle.cube_tree.specs.Ends.{machine_words};
ghost use Rattle.floor_tree.specs.Roll.{IsRollWhole};
ghost use Rattle.dispatcher.specs.Answers.{AnswersAll};
ghost use Rattle.uses.specs.Processors.{processors_in};

use cube_ledger::Ledger;
use dispatcher::{Finished, Runner, ShopSizes};
use dispatcher_threads::{RunEnd, answer_all};
use floor_tree::{FreeMachine, TreeFloor};
use job_types::Job;
use line_ruled::RuledLine;
use std::alloc::Global;
use std::collections::VecDeque;
use std::sync::Wait;
use std::thread::Threads;

/// Runs the jobs of all lanes on a machine of dimension `n` by the runner and four workers. Counts
/// the processors that the jobs had together. Returns `None` if memory was refused.
pub fn answer_and_count<R: Threads + Wait + Sync, T: Runner + Sync>(
    rt: &R,
    alloc: Global,
    n: u32,
    runner: &T,
    jobs: Vec<VecDeque<Job>>,
) -> Option<(Finished<FreeMachine>, u128)>
    requires lanes { length jobs.items < 2 ^ 32 }
    requires made_for { (k : ℕ) → k < length jobs.items →
        All (IsFor n k) (slice_index_or (map (λ js. js.items) jobs.items) k []) }
    ensures answers { IfSome result (λ answered. AnswersAll n (map (λ js. js.items) jobs.items)
        (map (λ replies. replies.items) answered.0.by_worker.items) answered.0.rest.items) }
    ensures free { IfSome result (λ answered.
        IsWhollyFree n (machine_words answered.0.machine)) }
    ensures roll { IfSome result (λ answered. IsRollWhole 4 answered.0.machine) }
    ensures processors { IfSome result (λ answered. answered.1
        ≡ processors_in (map (λ replies. replies.items) answered.0.by_worker.items)
        answered.0.rest.items) }
{
    let sizes = ShopSizes {
        dim: n,
        dispatchers: 4,
        capacity: 16,
    };
    let Ok(end) = answer_all::<R, RuledLine, TreeFloor, T>(rt, alloc, sizes, runner, jobs) else {
        return None;
    };
    let RunEnd { finished, .. } = end;
    let Ok(ledger) = Ledger::of(alloc, &finished) else {
        return None;
    };
    let processors = ledger.total().processors;
    Some((finished, processors))
}
