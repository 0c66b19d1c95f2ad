//! How a job runs on the block that it got.
ghost use Rattle.std.specs.Prelude.{◌≡◌, length};
ghost use Rattle.cube_shape.specs.Region.{IsAligned};
ghost use Rattle.job_types.specs.Dim.{dim_of};

use job_types::{Job, JobId, Region, Reply};
use std::sync::Wait;

/// A way to run jobs. The threads of a dispatcher share one runner.
pub trait Runner {
    /// Runs the job on an aligned block of its machine with a processor for each item.
    fn run<R: Wait>(&self, rt: &R, id: JobId, region: Region, job: Job) -> Reply
        requires aligned { IsAligned job.machine region }
        requires dimension { region.dim ≡ dim_of (length job.items) }
        ensures { result ≡ record { id = id; job = job; region = region } };
}

/// A runner that runs the rounds of the job's collective, and nothing else.
#[derive(Clone, Copy, Debug)]
pub struct Plain;

impl Runner for Plain {
    fn run<R: Wait>(&self, _rt: &R, id: JobId, region: Region, job: Job) -> Reply {
        job.answer(id, region)
    }
}
