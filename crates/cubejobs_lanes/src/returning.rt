//! Lanes and workers come back to the owner, from any thread.
ghost use Rattle.cubejobs_lanes.specs.Returns.{HasCollected};

use crate::owner::Owner;
use crate::returns::collect_all;

impl Owner {
    // Takes the lanes and workers that have come back into their places.
    pub(crate) fn collect(&mut self)
        ensures { HasCollected self.old self.new }
    {
        collect_all(&self.common.lane_places, &mut self.lanes);
        collect_all(&self.common.worker_places, &mut self.workers);
    }
}
