//! A worker of lanes that lies down while there is no job, with its share of the lanes.
ghost use Rattle.std.specs.Prelude.{◌≡◌, ◌<◌, None, IfSome};
ghost use Rattle.std.specs.Arc.{arc_value};
ghost use Rattle.lanes.proofs.PropLemmas.{free_props};
ghost use Rattle.lanes.specs.declared.finder.At.TheVariants.{Idle as AtIdle};
ghost use Rattle.lanes.specs.Phases.{IsFree};

use crate::common::Common;
use crate::sides::WorkerSide;
use lanes::{Finder, LaneJob};
use std::sync::Arc;

/// A job that a worker took, and that no call has returned yet.
#[derive(Clone, Copy, Debug, PartialEq, Eq)]
pub(crate) struct KeptJob {
    /// The lane of the job.
    pub(crate) lane: u32,
    /// The job.
    pub(crate) job: LaneJob,
    /// The number of jobs that were left in the lane.
    pub(crate) left: u64,
}

/// A worker that is not idle: it lies down, or is about to get up. It keeps a job while it has
/// still to wake another worker.
pub(crate) struct SleeperSide {
    pub(crate) common: Arc<Common>,
    pub(crate) finder: Finder,
    pub(crate) kept: Option<KeptJob>,
    ghost of_lanes: { finder.id ≡ (arc_value common).lanes },
    ghost inside: { finder.known.number < (arc_value common).lanes.plan.sizes.workers },
    ghost wakes: { IfSome kept (λ _. IsFree finder.at) } by { Prim.hlevel free_props },
}

impl WorkerSide {
    // Returns the worker as one that may lie down. It is idle.
    pub(crate) fn into_sleeper(self) -> SleeperSide
        ensures common { arc_value result.common ≡ arc_value self.common }
        ensures known { result.finder.known ≡ self.worker.known }
        ensures deeds { result.finder.deeds ≡ self.worker.deeds }
        ensures idle { result.finder.at ≡ AtIdle }
        ensures none { result.kept ≡ None }
    {
        let (common, worker) = self.into_parts();
        let finder = match worker.into_finder() {
            Ok(finder) => finder,
            Err(_worker) => unreachable!(),
        };
        SleeperSide {
            common,
            finder,
            kept: None,
        }
    }
}

impl SleeperSide {
    // Returns the number of lanes.
    pub(crate) fn lane_count(&self) -> u32
        ensures { result ≡ (arc_value self.now.common).lanes.plan.sizes.lanes }
    {
        self.common.sizes.lanes
    }

    // Returns the worker, which is idle and keeps no job.
    pub(crate) fn into_worker(self) -> WorkerSide
        requires idle { self.finder.at ≡ AtIdle }
        ensures common { arc_value result.common ≡ arc_value self.common }
        ensures known { result.worker.known ≡ self.finder.known }
        ensures deeds { result.worker.deeds ≡ self.finder.deeds }
    {
        let SleeperSide {
            common,
            finder,
            kept: _,
        } = self;
        let worker = match finder.into_worker() {
            Ok(worker) => worker,
            Err(_finder) => unreachable!(),
        };
        WorkerSide { common, worker }
    }

    // Returns the worker's number.
    pub(crate) fn number(&self) -> u32
        ensures { result ≡ self.now.finder.known.number }
    {
        self.finder.number()
    }

    // Returns the finder, and drops the share of the lanes.
    fn into_finder(self) -> Finder
        ensures { result ≡ self.finder }
    {
        let SleeperSide {
            common: _,
            finder,
            kept: _,
        } = self;
        finder
    }
}

impl Drop for SleeperSide {
    fn drop(self) {
        self.into_finder().abandon();
    }
}
