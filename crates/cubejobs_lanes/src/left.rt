//! The jobs that are left after the end of lanes.
ghost use Rattle.cubejobs_lanes.specs.Lefts.{GivesJob};

use crate::answers::JobAnswer;
use crate::codes::EMPTY;
use lanes::LaneJob;
use std::collections::VecDeque;

/// The jobs that are left, each with its lane.
#[derive(Drop)]
pub(crate) struct Left {
    pub(crate) jobs: VecDeque<(u32, LaneJob)>,
}

impl Left {
    // Removes the first job. Returns it with the number of jobs after it.
    pub(crate) fn give(&mut self) -> JobAnswer
        ensures { GivesJob result self.old self.new }
    {
        match self.jobs.pop_front() {
            None => JobAnswer::none(EMPTY),
            Some((lane, job)) => JobAnswer::job(lane, job, self.jobs.len() as u64),
        }
    }
}
