// The calls of `RuledLine`, which meet the contract `JobLine`.
ghost use Rattle.std.specs.Prelude.{◌≡◌, ◌≢◌, ℕ, ◌+◌, ◌-◌, ◌<◌, ◌≤◌, ◌++◌, [], ◌∷◌, List, Ok, Err, Some, None, IfOk, IfErr, map, length, slice_index};
ghost use Rattle.std.specs.List.{All};
ghost use Rattle.ghost_history.specs.Sums.{times};
ghost use Rattle.job_queue.specs.Record.{queued, fresh_lanes, fresh_passes, accepted, IsSettled};
ghost use Rattle.job_queue.specs.Line.{next_id, GainsEntry, GainsRefusal, GainsReading, taken_by, IsMadeFor, TakesMadeFor};
ghost use Rattle.job_queue.specs.Run.{WholeRun};
ghost use Rattle.line_ruled.specs.Inner.Handle.{line_id};

use crate::handle::{RuledCloser, RuledLane, RuledNote, RuledPass};
use crate::line::{LineGate, LineRing, RuledEnd, RuledLine};
use crate::members::{deal_lanes, deal_passes, gather_lanes, gather_passes};
use cube_shape::{MAX_CAPACITY, MAX_DIM, MAX_ENTRIES, MAX_LANES, MAX_PASSES};
use job_queue::{JobLine, Opened, QueuedJob, Receipt, Refused, Rest, Sizes, Taken};
use job_types::Job;
use line_gate::Counts;
use std::alloc::{AllocError, Global};
use std::sync::Wait;

impl RuledLine {
    ghost use Rattle.line_ruled.specs.Inner.Handle.{is_closer as IsCloser, is_note as IsNote};

    /// Closes the queue. Never waits.
    pub fn close(&self, closer: RuledCloser) -> RuledNote
        requires { IsCloser (line_id self.now) closer }
        ensures { IsNote (line_id self.now) result }
    {
        let RuledCloser { gate, ring } = closer;
        RuledNote {
            gate: self.gate.close(gate),
            ring,
        }
    }
}

impl JobLine for RuledLine {
    type Lane = RuledLane;

    type Pass = RuledPass;

    type Closer = RuledCloser;

    type Note = RuledNote;

    type End = RuledEnd;

    ghost use Rattle.line_ruled.specs.Inner.Handle.{line_id, is_lane as IsLane, is_pass as IsPass, is_closer as IsCloser, is_note as IsNote, lane_record as record_of_lane, pass_record as record_of_pass, note_number as number_of_note};

    ghost id = { line_id };

    ghost is_lane = { IsLane };

    ghost is_pass = { IsPass };

    ghost is_closer = { IsCloser };

    ghost is_note = { IsNote };

    ghost lane_record = { record_of_lane };

    ghost pass_record = { record_of_pass };

    ghost note_number = { number_of_note };

    fn lane_number(lane: &RuledLane) -> u32 {
        lane.number()
    }

    fn entry_count(lane: &RuledLane) -> u64 {
        lane.entry_count()
    }

    fn close_number(note: &RuledNote) -> u64 {
        note.number()
    }

    fn submit<R: Wait>(
        &self,
        rt: &R,
        lane: &mut RuledLane,
        job: Job,
    ) -> Result<Receipt, (Job, Refused)> {
        if lane.entries >= MAX_ENTRIES {
            return Err((job, Refused::LaneSpent));
        }
        if let Some(seen) = self.gate.look(&mut lane.gate) {
            return Err((job, Refused::Closed { seen }));
        }
        let entered = match self.gate.enter(&mut lane.gate) {
            Ok(entered) => entered,
            Err(late) => {
                let seen = self.gate.undo(&mut lane.gate, late);
                return Err((job, Refused::Closed { seen }));
            }
        };
        lane.entries += 1;
        match self.put(rt, &mut lane.gate, &mut lane.ring, entered, job) {
            Ok(receipt) => Ok(receipt),
            Err(job) => Err((job, Refused::Full)),
        }
    }

    fn room_hint<R: Wait>(&self, rt: &R, lane: &mut RuledLane) -> bool {
        self.ring.len_by_lane(rt, &mut lane.ring) <= self.ring.capacity() / 2
    }

    fn job_hint<R: Wait>(&self, rt: &R, pass: &mut RuledPass) -> bool {
        self.ring.len(rt, &mut pass.ring) > 0
    }

    fn take<R: Wait>(&self, rt: &R, pass: &mut RuledPass) -> Taken<RuledEnd> {
        let saw = match self.ring.pop(rt, &mut pass.ring) {
            Ok(QueuedJob { id, job }) => return Taken::Job(id, job),
            Err(saw) => saw,
        };
        let Some(sealed) = self.read(&mut pass.gate, saw) else {
            return Taken::EmptyNow;
        };
        match self.pop_at_last(rt, &mut pass.ring, sealed) {
            Ok(QueuedJob { id, job }) => Taken::Job(id, job),
            Err(end) => Taken::Ended(end),
        }
    }

    fn close<R: Wait>(&self, _rt: &R, closer: RuledCloser) -> RuledNote {
        RuledLine::close(self, closer)
    }

    fn open(
        alloc: Global,
        sizes: Sizes,
    ) -> Result<Opened<RuledLine, RuledLane, RuledPass, RuledCloser>, AllocError>
        requires machine { sizes.machine ≤ MAX_DIM }
        requires lanes { sizes.lanes ≤ MAX_LANES }
        requires passes { sizes.passes ≤ MAX_PASSES }
        requires room { 0 < sizes.capacity }
        requires capacity { sizes.capacity ≤ MAX_CAPACITY }
        ensures sizes { IfOk result (λ made. (line_id made.line).sizes ≡ sizes) }
        ensures lanes { IfOk result (λ made.
            All (IsLane (line_id made.line)) made.lanes.items) }
        ensures passes { IfOk result (λ made.
            All (IsPass (line_id made.line)) made.passes.items) }
        ensures closer { IfOk result (λ made. IsCloser (line_id made.line) made.closer) }
        ensures fresh_lanes { IfOk result (λ made.
            map record_of_lane made.lanes.items ≡ fresh_lanes sizes.lanes) }
        ensures fresh_passes { IfOk result (λ made.
            map record_of_pass made.passes.items ≡ fresh_passes sizes.passes) }
    {
        let accepted = vec![in alloc; 0; sizes.lanes as usize]?;
        let counts = Counts {
            lanes: sizes.lanes,
            passes: sizes.passes,
        };
        let (gate, mut members) = LineGate::open(alloc, counts)?;
        let Ok(lanes) = Vec::with_capacity(alloc, sizes.lanes as usize) else {
            return Err(AllocError);
        };
        let Ok(passes) = Vec::with_capacity(alloc, sizes.passes as usize) else {
            lanes.destroy_empty();
            return Err(AllocError);
        };
        let Ok((ring, mut end)) = LineRing::open(alloc, sizes.machine, sizes.capacity) else {
            lanes.destroy_empty();
            passes.destroy_empty();
            return Err(AllocError);
        };
        let lanes = deal_lanes(&gate, &ring, &mut members, &mut end, lanes, sizes.lanes);
        let passes = deal_passes(&gate, &ring, &mut members, &mut end, passes, sizes.passes);
        let closer = RuledCloser {
            gate: members.into_closer(),
            ring: end,
        };
        let line = RuledLine {
            gate,
            ring,
            accepted,
        };
        Ok(Opened {
            line,
            lanes,
            passes,
            closer,
        })
    }

    fn into_rest<R: Wait>(
        self,
        rt: &R,
        lanes: Vec<RuledLane>,
        passes: Vec<RuledPass>,
        note: RuledNote,
    ) -> Rest
        requires lanes { All (IsLane (line_id self)) lanes.items }
        requires all_lanes { length lanes.items ≡ (line_id self).sizes.lanes }
        requires passes { All (IsPass (line_id self)) passes.items }
        requires all_passes { length passes.items ≡ (line_id self).sizes.passes }
        requires note { IsNote (line_id self) note }
        ensures run { WholeRun (map record_of_lane lanes.items) (map record_of_pass passes.items)
            result.jobs.items (number_of_note note) }
        ensures numbers { (k : ℕ) → k < (line_id self).sizes.lanes →
            times k (map (λ l. (record_of_lane l).number) lanes.items) ≡ 1 }
        ensures lane_count { length result.accepted.items ≡ (line_id self).sizes.lanes }
        ensures accepted { All (λ l. slice_index result.accepted.items (record_of_lane l).number
            ≡ length (accepted (record_of_lane l).entries)) lanes.items }
        ensures fits { length result.jobs.items ≤ (line_id self).sizes.capacity }
        ensures machine { All (IsMadeFor (line_id self).sizes.machine) result.jobs.items }
    {
        let RuledLine {
            gate,
            ring,
            mut accepted,
        } = self;
        let RuledNote {
            gate: note,
            ring: mut ring_end,
        } = note;
        let mut gate_end = note.into_end();
        gather_lanes(
            &gate,
            &ring,
            &mut gate_end,
            &mut ring_end,
            &mut accepted,
            lanes,
        );
        gather_passes(&gate, &ring, &mut gate_end, &mut ring_end, passes);
        gate.end(gate_end);
        let jobs = ring.into_rest(rt, ring_end);
        Rest { jobs, accepted }
    }
}
