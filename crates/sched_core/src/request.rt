//! A job as callers ask for it.

ghost use Rattle.std.specs.Prelude.{◌≡◌, ℕ, ◌^◌, ◌<◌, ◌≤◌, ◌↔◌, IsTrue};
ghost use Rattle.sched_law.specs.Law.{IsSound};
ghost use Rattle.sched_core.specs.Request.{IsAskable, IsAsked};

use cube_shape::MAX_BITMAP_DIM;
use sched_jobs::CLASSES;
use sched_law::SchedJob;

/// A job as it is submitted.
#[repr(C)]
#[derive(Clone, Copy, Debug)]
pub struct JobRequest {
    /// A number of the caller's.
    pub payload: u64,
    /// How long it runs at most, or 0 if that is not known.
    pub estimate: u64,
    /// How many processors it uses.
    pub processors: u32,
    /// Its class. Jobs of a lower class come first.
    pub job_class: u32,
}

// Returns the least dimension of a block with as many processors.
fn least_dim(count: u32) -> u32
    requires { 0 < count }
    ensures enough { count ≤ 2 ^ result }
    ensures least { (k : ℕ) → count ≤ 2 ^ k → result ≤ k }
{
    u32::BITS - (count - 1).leading_zeros()
}

/// Returns whether a machine of dimension `n` can have the job.
pub fn is_askable(n: u32, request: JobRequest) -> bool
    requires { n ≤ MAX_BITMAP_DIM }
    ensures { IsTrue result ↔ IsAskable n request }
{
    if request.processors == 0 {
        return false;
    }
    if request.processors > 1 << n {
        return false;
    }
    if request.job_class >= CLASSES as u32 {
        return false;
    }
    true
}

/// Returns the job that is asked for.
pub fn job_of(n: u32, request: JobRequest) -> SchedJob
    requires limit { n ≤ MAX_BITMAP_DIM }
    requires askable { IsAskable n request }
    ensures asked { IsAsked request result }
    ensures sound { IsSound n result }
    ensures class { result.class < CLASSES }
{
    SchedJob {
        payload: request.payload,
        processors: request.processors,
        dim: least_dim(request.processors) as u8,
        class: request.job_class as u8,
        estimate: request.estimate,
    }
}
