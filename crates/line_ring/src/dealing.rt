// Lanes and passes are given out by the ring's end, and come back to it.
ghost use Rattle.std.specs.Prelude.{◌≡◌, ◌+◌, ◌<◌, [], ◌∷◌, ◌++◌};
ghost use Rattle.line_ring.specs.Record.{fresh_lane, fresh_pass};

use crate::handle::{RingEnd, RingLane, RingPass};
use crate::piece::Piece;
use crate::ring::Ring;
use crate::rule::{DealLane, DealPass, Gather};
use cube_shape::{MAX_LANES, MAX_PASSES};

impl<T: Piece> Ring<T> {
    /// Gives out a lane. Its number is the count of lanes given out before it.
    pub fn deal_lane(&self, end: &mut RingEnd<T>) -> RingLane<T>
        requires end { end.old.ring ≡ self.now.id }
        requires few { end.old.dealt_lanes < MAX_LANES }
        ensures end { end.new.ring ≡ self.now.id }
        ensures lanes { end.new.dealt_lanes ≡ end.old.dealt_lanes + 1 }
        ensures passes { end.new.dealt_passes ≡ end.old.dealt_passes }
        ensures back { (end.new.back_lanes ≡ end.old.back_lanes)
            × (end.new.back_passes ≡ end.old.back_passes) }
        ensures lane { result.ring ≡ self.now.id }
        ensures fresh { result.known ≡ fresh_lane end.old.dealt_lanes }
    {
        let number = end.lanes;
        let seat = self.queue.another::<DealLane>(&mut end.seat);
        end.lanes += 1;
        RingLane {
            seat,
            number,
            accepted: 0,
        }
    }

    /// Gives out a pass. Its number is the count of passes given out before it.
    pub fn deal_pass(&self, end: &mut RingEnd<T>) -> RingPass<T>
        requires end { end.old.ring ≡ self.now.id }
        requires few { end.old.dealt_passes < MAX_PASSES }
        ensures end { end.new.ring ≡ self.now.id }
        ensures lanes { end.new.dealt_lanes ≡ end.old.dealt_lanes }
        ensures passes { end.new.dealt_passes ≡ end.old.dealt_passes + 1 }
        ensures back { (end.new.back_lanes ≡ end.old.back_lanes)
            × (end.new.back_passes ≡ end.old.back_passes) }
        ensures pass { result.ring ≡ self.now.id }
        ensures fresh { result.known ≡ fresh_pass end.old.dealt_passes }
    {
        let seat = self.queue.another::<DealPass>(&mut end.seat);
        end.passes += 1;
        RingPass { seat }
    }

    /// Takes a lane back.
    pub fn gather_lane(&self, end: &mut RingEnd<T>, lane: RingLane<T>)
        requires end { end.old.ring ≡ self.now.id }
        requires lane { lane.ring ≡ self.now.id }
        ensures end { end.new.ring ≡ self.now.id }
        ensures dealt { (end.new.dealt_lanes ≡ end.old.dealt_lanes)
            × (end.new.dealt_passes ≡ end.old.dealt_passes) }
        ensures lanes { end.new.back_lanes
            ≡ end.old.back_lanes ++ lane.known ∷ [] }
        ensures passes { end.new.back_passes ≡ end.old.back_passes }
    {
        let RingLane {
            seat,
            number: _,
            accepted: _,
        } = lane;
        self.queue.absorb::<Gather>(&mut end.seat, seat);
    }

    /// Takes a pass back.
    pub fn gather_pass(&self, end: &mut RingEnd<T>, pass: RingPass<T>)
        requires end { end.old.ring ≡ self.now.id }
        requires pass { pass.ring ≡ self.now.id }
        ensures end { end.new.ring ≡ self.now.id }
        ensures dealt { (end.new.dealt_lanes ≡ end.old.dealt_lanes)
            × (end.new.dealt_passes ≡ end.old.dealt_passes) }
        ensures lanes { end.new.back_lanes ≡ end.old.back_lanes }
        ensures passes { end.new.back_passes
            ≡ end.old.back_passes ++ pass.known ∷ [] }
    {
        let RingPass { seat } = pass;
        self.queue.absorb::<Gather>(&mut end.seat, seat);
    }
}
