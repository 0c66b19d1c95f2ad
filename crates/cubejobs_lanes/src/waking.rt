//! A producer of lanes wakes a worker that sleeps.
ghost use Rattle.std.specs.Prelude.{◌≡◌};
ghost use Rattle.std.specs.Arc.{arc_value};
ghost use Rattle.lanes.specs.Deeds.{after_wake};
ghost use Rattle.cubejobs_lanes.specs.KeptWakes.{LooksForSleepers};

use crate::sides::LaneSide;
use crate::tries::TRIES;
use wake_calls::Wake;

impl LaneSide {
    // Gives the token to a worker that sleeps, if one is to be woken after the lane's last job.
    pub(crate) fn wake(&mut self) -> Wake
        ensures common { arc_value self.new.common ≡ arc_value self.old.common }
        ensures known { self.new.lane.known ≡ self.old.lane.known }
        ensures looks { LooksForSleepers (arc_value self.old.common).lanes result self.new.lane }
        ensures gives { self.new.lane.deeds ≡ after_wake result self.old.lane.deeds }
    {
        self.common.lanes.wake_one(&mut self.lane, TRIES)
    }
}
