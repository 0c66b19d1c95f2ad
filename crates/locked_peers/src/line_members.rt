// The members of a `LockedLine`: making them when it opens, collecting them when it ends.
ghost use Rattle.std.specs.Prelude.{◌≡◌, ℕ, ◌<◌, ◌≤◌, ◌++◌, [], ◌∷◌, None, map, length};
ghost use Rattle.std.specs.List.{All};
ghost use Rattle.std.specs.Vec.{vec_capacity};
ghost use Rattle.job_queue.specs.Record.{fresh_lanes, fresh_passes};
ghost use Rattle.locked_peers.specs.InnerLine.View.{view, first_view, passes_from, closer_view};
ghost use Rattle.locked_peers.specs.InnerLine.Step.{IsIdle};
ghost use Rattle.locked_peers.specs.InnerLine.Handle.{table_of, sizes_of, line_id, is_lane, is_pass, lane_record, pass_record};

use crate::line_handle::{LockedLane, LockedPass};
use crate::store_lock::{Seat, StoreLock};
use std::collections::VecDeque;

// Makes the lanes from the records of the first seat.
pub(crate) fn deal_lanes(
    lock: &StoreLock,
    seat: &mut Seat,
    mut lanes: Vec<LockedLane>,
    count: u32,
) -> Vec<LockedLane>
    requires table { seat.old.table_id ≡ table_of lock.now }
    requires first { seat.old.me ≡ (first_view (sizes_of lock.now), []) }
    requires count { count ≡ (sizes_of lock.now).lanes }
    requires none_yet { lanes.items ≡ [] }
    requires room { count ≤ vec_capacity lanes }
    ensures table { seat.new.table_id ≡ table_of lock.now }
    ensures left { seat.new.me ≡ (
      view (sizes_of lock.now) [] (first_view (sizes_of lock.now)).passes
          (first_view (sizes_of lock.now)).closers None,
      [],
    ) }
    ensures lanes { All (is_lane (line_id lock.now)) result.items }
    ensures fresh { map lane_record result.items ≡ fresh_lanes count }
{
    for number in 0..count {
        let seat = lock.deal_lane(seat);
        lanes.push_reserved(LockedLane {
            seat,
            number,
            entries: 0,
        });
    }
    lanes
}

// Makes the passes, after the lanes. Leaves the closer's record to the seat.
pub(crate) fn deal_passes(
    lock: &StoreLock,
    seat: &mut Seat,
    mut passes: Vec<LockedPass>,
    count: u32,
) -> Vec<LockedPass>
    requires table { seat.old.table_id ≡ table_of lock.now }
    requires left { seat.old.me ≡ (
      view (sizes_of lock.now) [] (first_view (sizes_of lock.now)).passes
          (first_view (sizes_of lock.now)).closers None,
      [],
    ) }
    requires count { count ≡ (sizes_of lock.now).passes }
    requires none_yet { passes.items ≡ [] }
    requires room { count ≤ vec_capacity passes }
    ensures table { seat.new.table_id ≡ table_of lock.now }
    ensures left { seat.new.me ≡ (closer_view (sizes_of lock.now) None, []) }
    ensures passes { All (is_pass (line_id lock.now)) result.items }
    ensures fresh { map pass_record result.items ≡ fresh_passes count }
{
    for _ in 0..count {
        let seat = lock.deal_pass(seat);
        passes.push_reserved(LockedPass { seat });
    }
    passes
}

// Joins the records of the lanes to those of the seat.
pub(crate) fn gather_lanes(lock: &StoreLock, seat: &mut Seat, lanes: Vec<LockedLane>)
    requires table { seat.old.table_id ≡ table_of lock.now }
    requires idle { IsIdle seat.old.me }
    requires lanes { All (is_lane (line_id lock.now)) lanes.items }
    ensures table { seat.new.table_id ≡ table_of lock.now }
    ensures records { seat.new.me ≡ (
      view seat.old.me.0.about
          (seat.old.me.0.lanes ++ map lane_record lanes.items)
          seat.old.me.0.passes seat.old.me.0.closers None,
      [],
    ) }
{
    let mut lanes = VecDeque::from_vec(lanes);
    while let Some(lane) = lanes.pop_front() {
        let LockedLane {
            seat: other,
            number: _,
            entries: _,
        } = lane;
        lock.gather(seat, other);
    }
    lanes.destroy_empty();
}

// Joins the records of the passes to those of the seat.
pub(crate) fn gather_passes(lock: &StoreLock, seat: &mut Seat, passes: Vec<LockedPass>)
    requires table { seat.old.table_id ≡ table_of lock.now }
    requires idle { IsIdle seat.old.me }
    requires passes { All (is_pass (line_id lock.now)) passes.items }
    ensures table { seat.new.table_id ≡ table_of lock.now }
    ensures records { seat.new.me ≡ (
      view seat.old.me.0.about seat.old.me.0.lanes
          (seat.old.me.0.passes ++ map pass_record passes.items)
          seat.old.me.0.closers None,
      [],
    ) }
{
    let mut passes = VecDeque::from_vec(passes);
    while let Some(pass) = passes.pop_front() {
        let LockedPass { seat: other } = pass;
        lock.gather(seat, other);
    }
    passes.destroy_empty();
}
