//! What the handles of some lanes have in common.
ghost use Rattle.std.specs.Prelude.{◌≡◌, ◌≤◌, length};
ghost use Rattle.lanes.specs.declared.sizes.TheConstants.{MAX_LANES, MAX_WORKERS};
ghost use Rattle.cubejobs_lanes.specs.KeptReturns.{AreNamed};

use crate::kept::{KeptLane, KeptWorker};
use crate::returns::ReturnPlace;
use lanes::{Lanes, Sizes};

/// The lanes, their sizes, and the places by which lanes and workers come back.
#[derive(Drop)]
pub(crate) struct Common {
    pub(crate) lanes: Lanes,
    pub(crate) sizes: Sizes,
    pub(crate) lane_places: Vec<ReturnPlace<KeptLane>>,
    pub(crate) worker_places: Vec<ReturnPlace<KeptWorker>>,
    ghost sizes_are: { sizes ≡ lanes.plan.sizes },
    ghost may_sleep: { lanes.plan.sleepers ≡ lanes.plan.sizes.workers },
    ghost lanes_fit: { lanes.plan.sizes.lanes ≤ MAX_LANES },
    ghost workers_fit: { lanes.plan.sizes.workers ≤ MAX_WORKERS },
    ghost lanes_named: { AreNamed lanes lanes.plan.sizes.lanes lane_places.items },
    ghost lane_count: { length lane_places.items ≡ lanes.plan.sizes.lanes },
    ghost workers_named: { AreNamed lanes lanes.plan.sizes.workers worker_places.items },
    ghost worker_count: { length worker_places.items ≡ lanes.plan.sizes.workers },
}
