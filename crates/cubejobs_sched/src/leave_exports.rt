//! The functions of the library that end the jobs of workers, under the names that C declares.
ghost use Rattle.std.specs.Prelude.{◌≡◌, ◌≢◌, None, IsSome};
ghost use Rattle.sched_law.specs.declared.job.TheConstants.{NEVER as LAST};
ghost use Rattle.sched_threads.specs.Calls.{IsDoneAnswer, IsLoseAnswer, IsRiseAnswer, Timed};
ghost use Rattle.cubejobs_sched.specs.Answers.{end_answer, refusal};
ghost use Rattle.cubejobs_sched.specs.Handle.{owner_of};
ghost use Rattle.cubejobs_sched.specs.Turns.{MayMake};

use crate::answer::SchedAnswer;
use crate::answers::refused;
use crate::codes::{NOT_OPEN, OUT_OF_RANGE};
use crate::handle::Handle;
use crate::leaving::{done, lose, rise};
use crate::places::threads_at;
use sched_board::NEVER;

/// Ends the job of a worker, and starts jobs for workers that wait. `now` is the time, in the
/// caller's unit.
///
/// `WRONG_STATE`: it has no job that its thread has seen.
#[unsafe(no_mangle)]
pub extern "C" fn cubejobs_sched_try_done(sched: &mut Handle, worker: u32, now: u64) -> SchedAnswer
    ensures not_open { owner_of sched.old ≡ None → result ≡ refusal NOT_OPEN }
    ensures only { result.code ≡ NOT_OPEN → owner_of sched.old ≡ None }
    ensures out_of_range { IsSome (owner_of sched.old) → now ≡ LAST → result ≡ refusal
        OUT_OF_RANGE }
    ensures made { IsSome (owner_of sched.old) → now ≢ LAST → MayMake sched.new (λ answer. Timed now
        (λ time. IsDoneAnswer time worker answer)) end_answer result }
    ensures kept { owner_of sched.new ≡ owner_of sched.old }
{
    if !sched.is_open() {
        return refused(NOT_OPEN);
    }
    if now == NEVER {
        return refused(OUT_OF_RANGE);
    }
    let (answer, receipt) = done(threads_at(sched.at.get_mut()), worker, now);
    sched.keep(receipt);
    answer
}

/// Lets the thread be its worker no longer. `now`
/// is the time, in the caller's unit.
///
/// `WRONG_STATE`: no thread is this worker, or it got a job that its thread has not seen.
#[unsafe(no_mangle)]
pub extern "C" fn cubejobs_sched_try_leave(sched: &mut Handle, worker: u32, now: u64) -> SchedAnswer
    ensures not_open { owner_of sched.old ≡ None → result ≡ refusal NOT_OPEN }
    ensures only { result.code ≡ NOT_OPEN → owner_of sched.old ≡ None }
    ensures out_of_range { IsSome (owner_of sched.old) → now ≡ LAST → result ≡ refusal
        OUT_OF_RANGE }
    ensures made { IsSome (owner_of sched.old) → now ≢ LAST → MayMake sched.new (λ answer. Timed now
        (λ time. IsRiseAnswer time worker answer)) end_answer result }
    ensures kept { owner_of sched.new ≡ owner_of sched.old }
{
    if !sched.is_open() {
        return refused(NOT_OPEN);
    }
    if now == NEVER {
        return refused(OUT_OF_RANGE);
    }
    let (answer, receipt) = rise(threads_at(sched.at.get_mut()), worker, now);
    sched.keep(receipt);
    answer
}

/// Lets no thread be a worker whose thread is gone. Its job ends, also one that it has not seen.
/// `now` is the time, in the caller's unit.
///
/// `WRONG_STATE`: no thread is this worker.
#[unsafe(no_mangle)]
pub extern "C" fn cubejobs_sched_try_lost(sched: &mut Handle, worker: u32, now: u64) -> SchedAnswer
    ensures not_open { owner_of sched.old ≡ None → result ≡ refusal NOT_OPEN }
    ensures only { result.code ≡ NOT_OPEN → owner_of sched.old ≡ None }
    ensures out_of_range { IsSome (owner_of sched.old) → now ≡ LAST → result ≡ refusal
        OUT_OF_RANGE }
    ensures made { IsSome (owner_of sched.old) → now ≢ LAST → MayMake sched.new (λ answer. Timed now
        (λ time. IsLoseAnswer time worker answer)) end_answer result }
    ensures kept { owner_of sched.new ≡ owner_of sched.old }
{
    if !sched.is_open() {
        return refused(NOT_OPEN);
    }
    if now == NEVER {
        return refused(OUT_OF_RANGE);
    }
    let (answer, receipt) = lose(threads_at(sched.at.get_mut()), worker, now);
    sched.keep(receipt);
    answer
}
