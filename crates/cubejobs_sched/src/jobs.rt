//! How jobs are submitted and cancelled.

ghost use Rattle.std.specs.Prelude.{◌≢◌};
ghost use Rattle.sched_threads.specs.Calls.{OnBoards, Timed};
ghost use Rattle.sched_threads.specs.Turns.{IsCancelAnswer, IsSubmitAnswer};
ghost use Rattle.cubejobs_sched.specs.Answers.{cancel_answer, submit_answer};
ghost use Rattle.cubejobs_sched.specs.declared.codes.TheConstants.{NOT_OPEN};
ghost use Rattle.cubejobs_sched.specs.Turns.{MayTurn};

use crate::answer::SchedAnswer;
use crate::answers::{of_cancel, of_submit, refused};
use crate::codes::NOT_NOW;
use sched_threads::{JobRequest, NotNow, Threads, TurnReceipt};

// Submits a job.
pub(crate) fn submit(threads: &Threads, request: JobRequest, now: u64) -> (SchedAnswer, TurnReceipt)
    ensures made { MayTurn threads.now result.1 (λ answer. Timed now (λ time. OnBoards
        (IsSubmitAnswer time request answer))) submit_answer result.0 }
    ensures open { result.0.code ≢ NOT_OPEN }
{
    match threads.submit(request, now) {
        Ok((answer, receipt)) => (of_submit(answer), receipt),
        Err(NotNow { receipt }) => (refused(NOT_NOW), receipt),
    }
}

// Cancels a job that waits.
pub(crate) fn cancel(threads: &Threads, ticket: u64, now: u64) -> (SchedAnswer, TurnReceipt)
    ensures made { MayTurn threads.now result.1 (λ answer. Timed now (λ time. OnBoards
        (IsCancelAnswer time ticket answer))) (cancel_answer ticket) result.0 }
    ensures open { result.0.code ≢ NOT_OPEN }
{
    match threads.cancel(ticket, now) {
        Ok((answer, receipt)) => (of_cancel(ticket, answer), receipt),
        Err(NotNow { receipt }) => (refused(NOT_NOW), receipt),
    }
}
