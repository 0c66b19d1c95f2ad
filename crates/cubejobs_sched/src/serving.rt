//! How blocks go out of service, and come back.

ghost use Rattle.std.specs.Prelude.{◌≢◌};
ghost use Rattle.sched_threads.specs.Calls.{OnBoards, Timed};
ghost use Rattle.sched_threads.specs.Turns.{IsPutBackAnswer, IsTakeOutAnswer};
ghost use Rattle.cubejobs_sched.specs.Answers.{block_answer};
ghost use Rattle.cubejobs_sched.specs.declared.codes.TheConstants.{NOT_OPEN};
ghost use Rattle.cubejobs_sched.specs.Turns.{MayTurn};

use crate::answer::SchedAnswer;
use crate::answers::{of_block, refused};
use crate::codes::NOT_NOW;
use sched_threads::{NotNow, Threads, TurnReceipt};

// Takes a block out of service.
pub(crate) fn occupy(threads: &Threads, base: u64, dim: u32, now: u64) -> (SchedAnswer, TurnReceipt)
    ensures made { MayTurn threads.now result.1 (λ answer. Timed now (λ time. OnBoards
        (IsTakeOutAnswer time base dim answer))) block_answer result.0 }
    ensures open { result.0.code ≢ NOT_OPEN }
{
    match threads.take_out(base, dim, now) {
        Ok((answer, receipt)) => (of_block(answer), receipt),
        Err(NotNow { receipt }) => (refused(NOT_NOW), receipt),
    }
}

// Puts a block back into service.
pub(crate) fn vacate(threads: &Threads, base: u64, dim: u32, now: u64) -> (SchedAnswer, TurnReceipt)
    ensures made { MayTurn threads.now result.1 (λ answer. Timed now (λ time. OnBoards
        (IsPutBackAnswer time base dim answer))) block_answer result.0 }
    ensures open { result.0.code ≢ NOT_OPEN }
{
    match threads.put_back(base, dim, now) {
        Ok((answer, receipt)) => (of_block(answer), receipt),
        Err(NotNow { receipt }) => (refused(NOT_NOW), receipt),
    }
}
