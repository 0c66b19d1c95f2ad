//! How a scheduler closes.

ghost use Rattle.std.specs.Prelude.{◌≢◌};
ghost use Rattle.sched_threads.specs.Calls.{OnBoards, Timed, Untimed};
ghost use Rattle.sched_threads.specs.EndCalls.{IsGivenBack};
ghost use Rattle.sched_threads.specs.Turns.{IsCloseAnswer, IsSettled};
ghost use Rattle.cubejobs_sched.specs.Answers.{close_answer, rest_answer, settle_answer};
ghost use Rattle.cubejobs_sched.specs.declared.codes.TheConstants.{NOT_OPEN};
ghost use Rattle.cubejobs_sched.specs.Turns.{MayTurn};

use crate::answer::SchedAnswer;
use crate::answers::{of_close, of_effect, of_rest, refused};
use crate::codes::NOT_NOW;
use sched_threads::{NotNow, Threads, TurnReceipt};

// Lets no job come any more.
pub(crate) fn close(threads: &Threads, do_start: bool, now: u64) -> (SchedAnswer, TurnReceipt)
    ensures made { MayTurn threads.now result.1 (λ answer. Timed now (λ time. OnBoards
        (IsCloseAnswer time do_start answer))) close_answer result.0 }
    ensures open { result.0.code ≢ NOT_OPEN }
{
    match threads.close(do_start, now) {
        Ok((answer, receipt)) => (of_close(answer), receipt),
        Err(NotNow { receipt }) => (refused(NOT_NOW), receipt),
    }
}

// Gives back the first waiting job in slots from one on.
pub(crate) fn rest(threads: &Threads, from: u32) -> (SchedAnswer, TurnReceipt)
    ensures made { MayTurn threads.now result.1 (λ answer. Untimed (OnBoards (IsGivenBack from
        answer))) rest_answer result.0 }
    ensures open { result.0.code ≢ NOT_OPEN }
{
    match threads.give_back(from) {
        Ok((answer, receipt)) => (of_rest(answer), receipt),
        Err(NotNow { receipt }) => (refused(NOT_NOW), receipt),
    }
}

// Starts jobs for workers that wait.
pub(crate) fn settle(threads: &Threads, now: u64) -> (SchedAnswer, TurnReceipt)
    ensures made { MayTurn threads.now result.1 (λ answer. Timed now (λ time. OnBoards (IsSettled
        time answer))) settle_answer result.0 }
    ensures open { result.0.code ≢ NOT_OPEN }
{
    match threads.settle(now) {
        Ok((answer, receipt)) => (of_effect(answer, 0, 0), receipt),
        Err(NotNow { receipt }) => (refused(NOT_NOW), receipt),
    }
}
