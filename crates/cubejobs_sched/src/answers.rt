//! Answers of a scheduler, as callers in C read them.

ghost use Rattle.std.specs.Prelude.{◌≡◌, ◌≢◌};
ghost use Rattle.cubejobs_sched.specs.Answers.{block_answer, block_code, cancel_answer, cancel_code, close_answer, effect_answer, flag_of, refusal, rest_answer, submit_answer, submit_code};
ghost use Rattle.cubejobs_sched.specs.declared.codes.TheConstants.{NOT_OPEN};

use crate::answer::SchedAnswer;
use crate::codes::{CLOSED, DONE, FULL, NO_JOB, OUT_OF_RANGE, WRONG_STATE};
use sched_threads::{BlockError, CancelError, Effect, RestJob, SubmitError, WrongState};

// Returns an answer with nothing but a code.
pub(crate) fn refused(code: u32) -> SchedAnswer
    ensures { result ≡ refusal code }
{
    SchedAnswer {
        code,
        count: 0,
        first: 0,
        second: 0,
        third: 0,
        fourth: 0,
        more: 0,
        over: 0,
        ticket: 0,
        payload: 0,
        base: 0,
        processors: 0,
        worker: 0,
    }
}

// Returns 1 if it holds, else 0.
pub(crate) fn flag(holds: bool) -> u32
    ensures { result ≡ flag_of holds }
{
    if holds { 1 } else { 0 }
}

// Returns the answer that names what followed for workers.
pub(crate) fn of_effect(effect: Effect, ticket: u64, payload: u64) -> SchedAnswer
    ensures answer { result ≡ effect_answer effect ticket payload }
    ensures open { result.code ≢ NOT_OPEN }
{
    SchedAnswer {
        code: DONE,
        count: effect.woken.count,
        first: effect.woken.first,
        second: effect.woken.second,
        third: effect.woken.third,
        fourth: effect.woken.fourth,
        more: flag(effect.more),
        over: flag(effect.over),
        ticket,
        payload,
        base: 0,
        processors: 0,
        worker: 0,
    }
}

// Returns the code of a job that is not submitted.
fn code_of_submit(why: SubmitError) -> u32
    ensures answer { result ≡ submit_code why }
    ensures open { result ≢ NOT_OPEN }
{
    match why {
        SubmitError::OutOfRange => OUT_OF_RANGE,
        SubmitError::Closed => CLOSED,
        SubmitError::Full => FULL,
    }
}

// Returns the code of a job that is not cancelled.
fn code_of_cancel(why: CancelError) -> u32
    ensures answer { result ≡ cancel_code why }
    ensures open { result ≢ NOT_OPEN }
{
    match why {
        CancelError::NoJob => NO_JOB,
        CancelError::Runs => WRONG_STATE,
    }
}

// Returns the answer to a submit.
pub(crate) fn of_submit(answer: Result<(u64, Effect), SubmitError>) -> SchedAnswer
    ensures answer { result ≡ submit_answer answer }
    ensures open { result.code ≢ NOT_OPEN }
{
    match answer {
        Ok((ticket, effect)) => of_effect(effect, ticket, 0),
        Err(why) => refused(code_of_submit(why)),
    }
}

// Returns the answer to a cancel.
pub(crate) fn of_cancel(ticket: u64, answer: Result<(u64, Effect), CancelError>) -> SchedAnswer
    ensures answer { result ≡ cancel_answer ticket answer }
    ensures open { result.code ≢ NOT_OPEN }
{
    match answer {
        Ok((payload, effect)) => of_effect(effect, ticket, payload),
        Err(why) => refused(code_of_cancel(why)),
    }
}

// Returns the code of a block that stays as it is.
fn code_of_block(why: BlockError) -> u32
    ensures answer { result ≡ block_code why }
    ensures open { result ≢ NOT_OPEN }
{
    match why {
        BlockError::OutOfRange => OUT_OF_RANGE,
        BlockError::WrongState => WRONG_STATE,
    }
}

// Returns the answer to a call on a block.
pub(crate) fn of_block(answer: Result<Effect, BlockError>) -> SchedAnswer
    ensures answer { result ≡ block_answer answer }
    ensures open { result.code ≢ NOT_OPEN }
{
    match answer {
        Ok(effect) => of_effect(effect, 0, 0),
        Err(why) => refused(code_of_block(why)),
    }
}

// Returns the answer to a close.
pub(crate) fn of_close(answer: Option<Effect>) -> SchedAnswer
    ensures answer { result ≡ close_answer answer }
    ensures open { result.code ≢ NOT_OPEN }
{
    match answer {
        Some(effect) => of_effect(effect, 0, 0),
        None => refused(CLOSED),
    }
}

// Returns the answer that gives a job back.
pub(crate) fn of_rest(answer: Result<Option<RestJob>, WrongState>) -> SchedAnswer
    ensures answer { result ≡ rest_answer answer }
    ensures open { result.code ≢ NOT_OPEN }
{
    match answer {
        Ok(Some(rest)) => SchedAnswer {
            ticket: rest.ticket,
            payload: rest.payload,
            worker: rest.slot,
            ..refused(DONE)
        },
        Ok(None) => refused(NO_JOB),
        Err(_) => refused(WRONG_STATE),
    }
}
