//! What the first handle of some lanes has: the lanes and workers that no other handle has.
ghost use Rattle.std.specs.Prelude.{◌≡◌, length};
ghost use Rattle.std.specs.Arc.{arc_value};
ghost use Rattle.cubejobs_lanes.specs.Kept.{AreLanes, AreWorkers};
ghost use Rattle.cubejobs_lanes.specs.Stages.{IsStageOf};

use crate::common::Common;
use crate::kept::{KeptLane, KeptWorker};
use crate::stage::Stage;
use std::sync::Arc;

/// The lanes, and a place for each of their lanes and workers. A place is empty while a handle has
/// its lane or its worker.
#[derive(Drop)]
pub(crate) struct Owner {
    pub(crate) common: Arc<Common>,
    pub(crate) stage: Stage,
    pub(crate) lanes: Vec<Option<KeptLane>>,
    pub(crate) workers: Vec<Option<KeptWorker>>,
    ghost stage_is: { IsStageOf (arc_value common).lanes stage },
    ghost lanes_are: { AreLanes (arc_value common).lanes lanes.items },
    ghost workers_are: { AreWorkers (arc_value common).lanes workers.items },
    ghost lane_count: { length lanes.items ≡ (arc_value common).lanes.plan.sizes.lanes },
    ghost worker_count: { length workers.items ≡ (arc_value common).lanes.plan.sizes.workers },
}
