//! How callers look at a scheduler.

ghost use Rattle.std.specs.Prelude.{◌≢◌};
ghost use Rattle.sched_threads.specs.Calls.{Untimed};
ghost use Rattle.sched_threads.specs.Looks.{HasCounts, IsLookAnswer, Reads};
ghost use Rattle.cubejobs_sched.specs.Answers.{counts_answer, counts_refusal, forecast_answer, forecast_refusal};
ghost use Rattle.cubejobs_sched.specs.declared.codes.TheConstants.{NOT_OPEN};
ghost use Rattle.cubejobs_sched.specs.Turns.{MadeOr};

use crate::answer::{CountsAnswer, SchedForecast};
use crate::codes::NOT_NOW;
use crate::look_answers::{no_counts, no_forecast, of_counts, of_forecast};
use sched_threads::{NotNow, Threads, TurnReceipt};

// Returns what is known of a job.
pub(crate) fn forecast(threads: &Threads, ticket: u64) -> (SchedForecast, TurnReceipt)
    ensures made { MadeOr (forecast_refusal NOT_NOW) threads.now result.1 (λ answer. Untimed (Reads
        (IsLookAnswer ticket answer))) forecast_answer result.0 }
    ensures open { result.0.code ≢ NOT_OPEN }
{
    match threads.look(ticket) {
        Ok((answer, receipt)) => (of_forecast(answer), receipt),
        Err(NotNow { receipt }) => (no_forecast(NOT_NOW), receipt),
    }
}

// Returns how much the scheduler does.
pub(crate) fn counts(threads: &Threads) -> (CountsAnswer, TurnReceipt)
    ensures made { MadeOr (counts_refusal NOT_NOW) threads.now result.1 (λ answer. Untimed (Reads
        (HasCounts answer))) counts_answer result.0 }
    ensures open { result.0.code ≢ NOT_OPEN }
{
    match threads.counts() {
        Ok((answer, receipt)) => (of_counts(answer), receipt),
        Err(NotNow { receipt }) => (no_counts(NOT_NOW), receipt),
    }
}
