// Jobs, lane by lane.
ghost use Rattle.std.specs.Prelude.{[], IfOk};
ghost use Rattle.jobs_csv.specs.Lanes.{AreLanes};

use crate::format::RowSink;
use cube_shape::MAX_LANES;
use job_types::Job;
use std::alloc::{AllocError, Global};
use std::collections::VecDeque;

/// A queue of jobs for each lane. The jobs of a lane are in the order in which they were pushed.
#[derive(Drop)]
pub(crate) struct Lanes {
    pub jobs: Vec<VecDeque<Job>>,
}

impl Lanes {
    /// Returns an empty queue for each lane.
    pub fn new(alloc: Global) -> Result<Self, AllocError>
        ensures { IfOk result (λ lanes. AreLanes lanes.jobs.items []) }
    {
        let mut jobs = Vec::with_capacity(alloc, MAX_LANES as usize)?;
        for _lane in 0..MAX_LANES {
            jobs.push(VecDeque::new(alloc))?;
        }
        Ok(Lanes { jobs })
    }
}

impl RowSink<Job> for Lanes {
    ghost use Rattle.jobs_csv.specs.Lanes.{AreLanes};

    ghost contents = { λ lanes jobs. AreLanes lanes.jobs.items jobs };

    fn push(&mut self, job: Job) -> Result<(), AllocError> {
        let lane = job.lane() as usize;
        self.jobs[lane].push_back(job)?;
        Ok(())
    }
}
