//! The functions of the library that look at a scheduler, under the names that C declares.
ghost use Rattle.std.specs.Prelude.{◌≡◌, None, IsSome};
ghost use Rattle.sched_threads.specs.Calls.{Untimed};
ghost use Rattle.sched_threads.specs.Looks.{HasCounts, IsLookAnswer, Reads};
ghost use Rattle.cubejobs_sched.specs.Answers.{counts_answer, counts_refusal, forecast_answer, forecast_refusal};
ghost use Rattle.cubejobs_sched.specs.Handle.{owner_of};
ghost use Rattle.cubejobs_sched.specs.Turns.{MadeAt};

use crate::answer::{CountsAnswer, SchedForecast};
use crate::codes::{NOT_NOW, NOT_OPEN};
use crate::handle::Handle;
use crate::look_answers::{no_counts, no_forecast};
use crate::looking::{counts, forecast};
use crate::places::threads_at;

/// Answers what is known of when and where a job runs.
///
/// `NO_JOB`: the ticket is of no job, or of one that is over.
#[unsafe(no_mangle)]
pub extern "C" fn cubejobs_sched_try_forecast(sched: &mut Handle, ticket: u64) -> SchedForecast
    ensures not_open { owner_of sched.old ≡ None → result ≡ forecast_refusal NOT_OPEN }
    ensures only { result.code ≡ NOT_OPEN → owner_of sched.old ≡ None }
    ensures made { IsSome (owner_of sched.old) → MadeAt sched.new (forecast_refusal NOT_NOW) (λ
        answer. Untimed (Reads (IsLookAnswer ticket answer))) forecast_answer result }
    ensures kept { owner_of sched.new ≡ owner_of sched.old }
{
    if !sched.is_open() {
        return no_forecast(NOT_OPEN);
    }
    let (answer, receipt) = forecast(threads_at(sched.at.get_mut()), ticket);
    sched.keep(receipt);
    answer
}

/// Answers how much the scheduler does.
#[unsafe(no_mangle)]
pub extern "C" fn cubejobs_sched_try_counts(sched: &mut Handle) -> CountsAnswer
    ensures not_open { owner_of sched.old ≡ None → result ≡ counts_refusal NOT_OPEN }
    ensures only { result.code ≡ NOT_OPEN → owner_of sched.old ≡ None }
    ensures made { IsSome (owner_of sched.old) → MadeAt sched.new (counts_refusal NOT_NOW) (λ
        answer. Untimed (Reads (HasCounts answer))) counts_answer result }
    ensures kept { owner_of sched.new ≡ owner_of sched.old }
{
    if !sched.is_open() {
        return no_counts(NOT_OPEN);
    }
    let (answer, receipt) = counts(threads_at(sched.at.get_mut()));
    sched.keep(receipt);
    answer
}
