// The lanes and passes of a `RuledLine`: making them when it opens, collecting them when it ends.
ghost use Rattle.std.specs.Prelude.{◌≡◌, ◌<◌, ◌≤◌, ◌++◌, [], map, length};
ghost use Rattle.std.specs.List.{All};
ghost use Rattle.std.specs.Vec.{vec_capacity};
ghost use Rattle.cube_shape.specs.declared.limits.TheConstants.{MAX_LANES, MAX_PASSES};
ghost use Rattle.line_gate.specs.Record.{lanes_from, passes_from};
ghost use Rattle.job_queue.specs.Record.{fresh_lanes, fresh_passes};
ghost use Rattle.line_ruled.specs.Inner.Handle.{line_of, is_lane, is_pass, lane_record, pass_record, gate_lanes, gate_passes, ring_lanes, ring_passes, counts_after};

use crate::handle::{RuledLane, RuledPass};
use crate::line::{LineGate, LineRing};
use job_queue::QueuedJob;
use line_gate::{GateEnd, GateMembers};
use line_ring::RingEnd;
use std::collections::VecDeque;

// Makes the lanes.
pub(crate) fn deal_lanes(
    gate: &LineGate,
    ring: &LineRing,
    members: &mut GateMembers,
    end: &mut RingEnd<QueuedJob>,
    mut lanes: Vec<RuledLane>,
    count: u32,
) -> Vec<RuledLane>
    requires count { (count ≤ MAX_LANES) × (count ≡ gate.now.counts.lanes) }
    requires members { members.old.gate ≡ gate.now.table }
    requires undealt { members.old.lanes ≡ lanes_from 0 count }
    requires end { (end.old.ring ≡ ring.now.id) × (end.old.dealt_lanes ≡ 0) }
    requires room { (lanes.items ≡ []) × (count ≤ vec_capacity lanes) }
    ensures members { members.new.gate ≡ gate.now.table }
    ensures dealt { (members.new.lanes ≡ []) × (members.new.passes ≡ members.old.passes) }
    ensures end { (end.new.ring ≡ ring.now.id) × (end.new.dealt_lanes ≡ count) }
    ensures passes { end.new.dealt_passes ≡ end.old.dealt_passes }
    ensures back { (end.new.back_lanes ≡ end.old.back_lanes)
        × (end.new.back_passes ≡ end.old.back_passes) }
    ensures lanes { All (is_lane (line_of gate.now ring.now)) result.items }
    ensures fresh { map lane_record result.items ≡ fresh_lanes count }
{
    for _ in 0..count {
        let at_gate = gate.deal_lane(members);
        let in_ring = ring.deal_lane(end);
        lanes.push_reserved(RuledLane {
            gate: at_gate,
            ring: in_ring,
            entries: 0,
        });
    }
    lanes
}

// Makes the passes.
pub(crate) fn deal_passes(
    gate: &LineGate,
    ring: &LineRing,
    members: &mut GateMembers,
    end: &mut RingEnd<QueuedJob>,
    mut passes: Vec<RuledPass>,
    count: u32,
) -> Vec<RuledPass>
    requires count { count ≤ MAX_PASSES }
    requires members { members.old.gate ≡ gate.now.table }
    requires undealt { members.old.passes ≡ passes_from 0 count }
    requires end { (end.old.ring ≡ ring.now.id) × (end.old.dealt_passes ≡ 0) }
    requires room { (passes.items ≡ []) × (count ≤ vec_capacity passes) }
    ensures members { members.new.gate ≡ gate.now.table }
    ensures dealt { (members.new.passes ≡ []) × (members.new.lanes ≡ members.old.lanes) }
    ensures end { (end.new.ring ≡ ring.now.id) × (end.new.dealt_passes ≡ count) }
    ensures lanes { end.new.dealt_lanes ≡ end.old.dealt_lanes }
    ensures back { (end.new.back_lanes ≡ end.old.back_lanes)
        × (end.new.back_passes ≡ end.old.back_passes) }
    ensures passes { All (is_pass (line_of gate.now ring.now)) result.items }
    ensures fresh { map pass_record result.items ≡ fresh_passes count }
{
    for _ in 0..count {
        let at_gate = gate.deal_pass(members);
        let in_ring = ring.deal_pass(end);
        passes.push_reserved(RuledPass {
            gate: at_gate,
            ring: in_ring,
        });
    }
    passes
}

// Takes the lanes back. Stores each lane's number of accepted jobs at the lane's number.
pub(crate) fn gather_lanes(
    gate: &LineGate,
    ring: &LineRing,
    gate_end: &mut GateEnd,
    ring_end: &mut RingEnd<QueuedJob>,
    accepted: &mut Vec<u64>,
    lanes: Vec<RuledLane>,
)
    requires gate_end { gate_end.old.gate ≡ gate.now.table }
    requires ring_end { ring_end.old.ring ≡ ring.now.id }
    requires lanes { All (is_lane (line_of gate.now ring.now)) lanes.items }
    requires slots { length accepted.old.items ≡ gate.now.counts.lanes }
    ensures gate_end { gate_end.new.gate ≡ gate.now.table }
    ensures gate_lanes { gate_end.new.lanes ≡ gate_end.old.lanes ++ gate_lanes lanes.items }
    ensures gate_same { (gate_end.new.passes ≡ gate_end.old.passes)
        × (gate_end.new.number ≡ gate_end.old.number) }
    ensures ring_end { ring_end.new.ring ≡ ring.now.id }
    ensures ring_lanes { ring_end.new.back_lanes
        ≡ ring_end.old.back_lanes ++ ring_lanes lanes.items }
    ensures ring_same { ring_end.new.back_passes ≡ ring_end.old.back_passes }
    ensures dealt { (ring_end.new.dealt_lanes ≡ ring_end.old.dealt_lanes)
        × (ring_end.new.dealt_passes ≡ ring_end.old.dealt_passes) }
    ensures accepted { accepted.new.items ≡ counts_after accepted.old.items lanes.items }
{
    let mut lanes = VecDeque::from_vec(lanes);
    while let Some(lane) = lanes.pop_front() {
        let RuledLane {
            gate: at_gate,
            ring: in_ring,
            entries: _,
        } = lane;
        accepted[in_ring.number() as usize] = in_ring.accepted();
        gate.gather_lane(gate_end, at_gate);
        ring.gather_lane(ring_end, in_ring);
    }
    lanes.destroy_empty();
}

// Takes the passes back.
pub(crate) fn gather_passes(
    gate: &LineGate,
    ring: &LineRing,
    gate_end: &mut GateEnd,
    ring_end: &mut RingEnd<QueuedJob>,
    passes: Vec<RuledPass>,
)
    requires gate_end { gate_end.old.gate ≡ gate.now.table }
    requires ring_end { ring_end.old.ring ≡ ring.now.id }
    requires passes { All (is_pass (line_of gate.now ring.now)) passes.items }
    ensures gate_end { gate_end.new.gate ≡ gate.now.table }
    ensures gate_passes { gate_end.new.passes ≡ gate_end.old.passes ++ gate_passes passes.items }
    ensures gate_same { (gate_end.new.lanes ≡ gate_end.old.lanes)
        × (gate_end.new.number ≡ gate_end.old.number) }
    ensures ring_end { ring_end.new.ring ≡ ring.now.id }
    ensures ring_passes { ring_end.new.back_passes
        ≡ ring_end.old.back_passes ++ ring_passes passes.items }
    ensures ring_same { ring_end.new.back_lanes ≡ ring_end.old.back_lanes }
    ensures dealt { (ring_end.new.dealt_lanes ≡ ring_end.old.dealt_lanes)
        × (ring_end.new.dealt_passes ≡ ring_end.old.dealt_passes) }
{
    let mut passes = VecDeque::from_vec(passes);
    while let Some(pass) = passes.pop_front() {
        let RuledPass {
            gate: at_gate,
            ring: in_ring,
        } = pass;
        gate.gather_pass(gate_end, at_gate);
        ring.gather_pass(ring_end, in_ring);
    }
    passes.destroy_empty();
}
