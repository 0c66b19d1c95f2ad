//! How workers end their jobs, and how threads cease to be workers.

ghost use Rattle.std.specs.Prelude.{◌≢◌};
ghost use Rattle.sched_threads.specs.Calls.{IsDoneAnswer, IsLoseAnswer, IsRiseAnswer, Timed};
ghost use Rattle.cubejobs_sched.specs.Answers.{end_answer};
ghost use Rattle.cubejobs_sched.specs.declared.codes.TheConstants.{NOT_OPEN};
ghost use Rattle.cubejobs_sched.specs.Turns.{MayTurn};

use crate::answer::SchedAnswer;
use crate::answers::refused;
use crate::codes::NOT_NOW;
use crate::worker_answers::of_end;
use sched_threads::{NotNow, Threads, TurnReceipt};

// Ends the job of a worker.
pub(crate) fn done(threads: &Threads, worker: u32, now: u64) -> (SchedAnswer, TurnReceipt)
    ensures made { MayTurn threads.now result.1 (λ answer. Timed now (λ time. IsDoneAnswer time
        worker answer)) end_answer result.0 }
    ensures open { result.0.code ≢ NOT_OPEN }
{
    match threads.done(worker, now) {
        Ok((answer, receipt)) => (of_end(answer), receipt),
        Err(NotNow { receipt }) => (refused(NOT_NOW), receipt),
    }
}

// Lets the thread be the worker no longer.
pub(crate) fn rise(threads: &Threads, worker: u32, now: u64) -> (SchedAnswer, TurnReceipt)
    ensures made { MayTurn threads.now result.1 (λ answer. Timed now (λ time. IsRiseAnswer time
        worker answer)) end_answer result.0 }
    ensures open { result.0.code ≢ NOT_OPEN }
{
    match threads.rise(worker, now) {
        Ok((answer, receipt)) => (of_end(answer), receipt),
        Err(NotNow { receipt }) => (refused(NOT_NOW), receipt),
    }
}

// Lets no thread be a worker whose thread is gone.
pub(crate) fn lose(threads: &Threads, worker: u32, now: u64) -> (SchedAnswer, TurnReceipt)
    ensures made { MayTurn threads.now result.1 (λ answer. Timed now (λ time. IsLoseAnswer time
        worker answer)) end_answer result.0 }
    ensures open { result.0.code ≢ NOT_OPEN }
{
    match threads.lose(worker, now) {
        Ok((answer, receipt)) => (of_end(answer), receipt),
        Err(NotNow { receipt }) => (refused(NOT_NOW), receipt),
    }
}
