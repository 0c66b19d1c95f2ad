//! How threads become workers, and what workers ask.

ghost use Rattle.std.specs.Prelude.{◌≢◌};
ghost use Rattle.sched_threads.specs.Calls.{IsGiveUpAnswer, IsNextAnswer, IsSitAnswer, Timed, Untimed};
ghost use Rattle.cubejobs_sched.specs.Answers.{give_up_answer, next_answer, sit_answer};
ghost use Rattle.cubejobs_sched.specs.declared.codes.TheConstants.{NOT_OPEN};
ghost use Rattle.cubejobs_sched.specs.Turns.{MayTurn};

use crate::answer::SchedAnswer;
use crate::answers::refused;
use crate::codes::NOT_NOW;
use crate::worker_answers::{of_give_up, of_next, of_sit};
use sched_threads::{NotNow, Threads, TurnReceipt};

// Makes the thread a worker.
pub(crate) fn sit(threads: &Threads) -> (SchedAnswer, TurnReceipt)
    ensures made { MayTurn threads.now result.1 (λ answer. Untimed (IsSitAnswer answer)) sit_answer
        result.0 }
    ensures open { result.0.code ≢ NOT_OPEN }
{
    match threads.sit() {
        Ok((answer, receipt)) => (of_sit(answer), receipt),
        Err(NotNow { receipt }) => (refused(NOT_NOW), receipt),
    }
}

// Ends the job of a worker, and lets it wait for the next.
pub(crate) fn next(threads: &Threads, worker: u32, now: u64) -> (SchedAnswer, TurnReceipt)
    ensures made { MayTurn threads.now result.1 (λ answer. Timed now (λ time. IsNextAnswer time
        worker answer)) next_answer result.0 }
    ensures open { result.0.code ≢ NOT_OPEN }
{
    match threads.next(worker, now) {
        Ok((answer, receipt)) => (of_next(answer), receipt),
        Err(NotNow { receipt }) => (refused(NOT_NOW), receipt),
    }
}

// Lets a worker wait no longer.
pub(crate) fn give_up(threads: &Threads, worker: u32, now: u64) -> (SchedAnswer, TurnReceipt)
    ensures made { MayTurn threads.now result.1 (λ answer. Timed now (λ time. IsGiveUpAnswer time
        worker answer)) give_up_answer result.0 }
    ensures open { result.0.code ≢ NOT_OPEN }
{
    match threads.give_up(worker, now) {
        Ok((answer, receipt)) => (of_give_up(answer), receipt),
        Err(NotNow { receipt }) => (refused(NOT_NOW), receipt),
    }
}
