//! Answers to callers that look at a scheduler, as callers in C read them.

ghost use Rattle.std.specs.Prelude.{◌≡◌, ◌≢◌};
ghost use Rattle.cubejobs_sched.specs.Answers.{counts_answer, counts_refusal, forecast_answer, forecast_refusal};
ghost use Rattle.cubejobs_sched.specs.declared.codes.TheConstants.{NOT_OPEN};

use crate::answer::{CountsAnswer, SchedForecast};
use crate::codes::{DONE, NO_JOB};
use sched_threads::{Forecast, SchedCounts};

// Returns a forecast with nothing but a code.
pub(crate) fn no_forecast(code: u32) -> SchedForecast
    ensures { result ≡ forecast_refusal code }
{
    SchedForecast {
        code,
        state: 0,
        base: 0,
        time: 0,
        dim: 0,
        unused: 0,
    }
}

// Returns counts with nothing but a code.
pub(crate) fn no_counts(code: u32) -> CountsAnswer
    ensures { result ≡ counts_refusal code }
{
    CountsAnswer {
        code,
        held: 0,
        occupied: 0,
        unused: 0,
        waiting: 0,
        running: 0,
        asked: 0,
    }
}

// Returns what is known of a job.
pub(crate) fn of_forecast(answer: Option<Forecast>) -> SchedForecast
    ensures answer { result ≡ forecast_answer answer }
    ensures open { result.code ≢ NOT_OPEN }
{
    match answer {
        None => no_forecast(NO_JOB),
        Some(Forecast::Nothing) => no_forecast(DONE),
        Some(Forecast::Queued) => SchedForecast {
            state: 1,
            ..no_forecast(DONE)
        },
        Some(Forecast::Promised(block, time)) => SchedForecast {
            code: DONE,
            state: 2,
            base: block.base,
            time,
            dim: block.dim,
            unused: 0,
        },
        Some(Forecast::Started(block, time)) => SchedForecast {
            code: DONE,
            state: 3,
            base: block.base,
            time,
            dim: block.dim,
            unused: 0,
        },
    }
}

// Returns how much a scheduler does.
pub(crate) fn of_counts(counts: SchedCounts) -> CountsAnswer
    ensures answer { result ≡ counts_answer counts }
    ensures open { result.code ≢ NOT_OPEN }
{
    CountsAnswer {
        code: DONE,
        held: counts.held,
        occupied: counts.occupied,
        unused: 0,
        waiting: counts.waiting,
        running: counts.running,
        asked: counts.asked,
    }
}
