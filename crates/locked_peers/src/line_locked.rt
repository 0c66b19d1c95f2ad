// `LockedLine`, and its calls, which meet the contract `JobLine`.
ghost use Rattle.std.specs.Prelude.{◌≡◌, ◌≢◌, ℕ, ◌+◌, ◌-◌, ◌<◌, ◌≤◌, ◌++◌, [], ◌∷◌, List, Ok, Err, Some, None, IfOk, IfErr, map, length, slice_index};
ghost use Rattle.std.specs.List.{All};
ghost use Rattle.ghost_history.specs.Sums.{times};
ghost use Rattle.job_queue.specs.Record.{queued, fresh_lanes, fresh_passes, accepted, IsSettled};
ghost use Rattle.job_queue.specs.Line.{next_id, GainsEntry, GainsRefusal, GainsReading, taken_by, IsMadeFor, TakesMadeFor};
ghost use Rattle.job_queue.specs.Run.{WholeRun};
ghost use Rattle.locked_peers.specs.InnerLine.Handle.{line_id};

use crate::line_handle::{LockedCloser, LockedLane, LockedNote, LockedPass};
use crate::line_members::{deal_lanes, deal_passes, gather_lanes, gather_passes};
use crate::store::{LockedEnd, Store};
use crate::store_lock::StoreLock;
use cube_shape::{MAX_CAPACITY, MAX_DIM, MAX_ENTRIES, MAX_LANES, MAX_PASSES};
use job_queue::{JobLine, Opened, QueuedJob, Receipt, Refused, Rest, Sizes, Taken};
use job_types::Job;
use std::alloc::{AllocError, Global};
use std::sync::Wait;

/// A queue of jobs under one lock.
pub struct LockedLine {
    lock: StoreLock,
}

impl JobLine for LockedLine {
    type Lane = LockedLane;

    type Pass = LockedPass;

    type Closer = LockedCloser;

    type Note = LockedNote;

    type End = LockedEnd;

    ghost use Rattle.locked_peers.specs.InnerLine.Handle.{line_id, is_lane as IsLane, is_pass as IsPass, is_closer as IsCloser, is_note as IsNote, lane_record as record_of_lane, pass_record as record_of_pass, note_number as number_of_note};

    ghost id = { λ line. line_id line.lock };

    ghost is_lane = { IsLane };

    ghost is_pass = { IsPass };

    ghost is_closer = { IsCloser };

    ghost is_note = { IsNote };

    ghost lane_record = { record_of_lane };

    ghost pass_record = { record_of_pass };

    ghost note_number = { number_of_note };

    fn lane_number(lane: &LockedLane) -> u32 {
        lane.number()
    }

    fn entry_count(lane: &LockedLane) -> u64 {
        lane.entry_count()
    }

    fn close_number(note: &LockedNote) -> u64 {
        note.number()
    }

    fn submit<R: Wait>(
        &self,
        rt: &R,
        lane: &mut LockedLane,
        job: Job,
    ) -> Result<Receipt, (Job, Refused)> {
        if lane.entries >= MAX_ENTRIES {
            return Err((job, Refused::LaneSpent));
        }
        self.lock.enter(rt, &mut lane.seat);
        if let Some(seen) = self.lock.closed_at(&mut lane.seat) {
            self.lock.refuse(&mut lane.seat);
            return Err((job, Refused::Closed { seen }));
        }
        lane.entries += 1;
        match self.lock.push(&mut lane.seat, lane.number, job) {
            Ok(receipt) => {
                self.lock.accept(&mut lane.seat);
                Ok(receipt)
            }
            Err((job, saw)) => {
                self.lock.fill(&mut lane.seat, saw);
                Err((job, Refused::Full))
            }
        }
    }

    fn room_hint<R: Wait>(&self, _rt: &R, _lane: &mut LockedLane) -> bool {
        true
    }

    fn job_hint<R: Wait>(&self, _rt: &R, _pass: &mut LockedPass) -> bool {
        true
    }

    fn take<R: Wait>(&self, rt: &R, pass: &mut LockedPass) -> Taken<LockedEnd> {
        self.lock.enter(rt, &mut pass.seat);
        match self.lock.pop(&mut pass.seat) {
            Ok(QueuedJob { id, job }) => {
                self.lock.hand_over(&mut pass.seat);
                Taken::Job(id, job)
            }
            Err(saw) => {
                let found = self.lock.find_end(&mut pass.seat, &saw);
                self.lock.read(&mut pass.seat, saw);
                match found {
                    Some(end) => Taken::Ended(end),
                    None => Taken::EmptyNow,
                }
            }
        }
    }

    fn close<R: Wait>(&self, rt: &R, closer: LockedCloser) -> LockedNote {
        let LockedCloser { mut seat } = closer;
        self.lock.enter(rt, &mut seat);
        let number = self.lock.shut(&mut seat);
        self.lock.close(&mut seat);
        LockedNote { seat, number }
    }

    fn open(
        alloc: Global,
        sizes: Sizes,
    ) -> Result<Opened<LockedLine, LockedLane, LockedPass, LockedCloser>, AllocError>
        requires machine { sizes.machine ≤ MAX_DIM }
        requires lanes { sizes.lanes ≤ MAX_LANES }
        requires passes { sizes.passes ≤ MAX_PASSES }
        requires room { 0 < sizes.capacity }
        requires capacity { sizes.capacity ≤ MAX_CAPACITY }
        ensures sizes { IfOk result (λ made. (line_id made.line.lock).sizes ≡ sizes) }
        ensures lanes { IfOk result (λ made.
            All (IsLane (line_id made.line.lock)) made.lanes.items) }
        ensures passes { IfOk result (λ made.
            All (IsPass (line_id made.line.lock)) made.passes.items) }
        ensures closer { IfOk result (λ made. IsCloser (line_id made.line.lock) made.closer) }
        ensures fresh_lanes { IfOk result (λ made.
            map record_of_lane made.lanes.items ≡ fresh_lanes sizes.lanes) }
        ensures fresh_passes { IfOk result (λ made.
            map record_of_pass made.passes.items ≡ fresh_passes sizes.passes) }
    {
        let (lock, mut seat) = StoreLock::new(alloc, sizes)?;
        let Ok(lanes) = Vec::with_capacity(alloc, sizes.lanes as usize) else {
            return Err(AllocError);
        };
        let Ok(passes) = Vec::with_capacity(alloc, sizes.passes as usize) else {
            lanes.destroy_empty();
            return Err(AllocError);
        };
        let lanes = deal_lanes(&lock, &mut seat, lanes, sizes.lanes);
        let passes = deal_passes(&lock, &mut seat, passes, sizes.passes);
        let closer = LockedCloser { seat };
        Ok(Opened {
            line: LockedLine { lock },
            lanes,
            passes,
            closer,
        })
    }

    fn into_rest<R: Wait>(
        self,
        _rt: &R,
        lanes: Vec<LockedLane>,
        passes: Vec<LockedPass>,
        note: LockedNote,
    ) -> Rest
        requires lanes { All (IsLane (line_id self.lock)) lanes.items }
        requires all_lanes { length lanes.items ≡ (line_id self.lock).sizes.lanes }
        requires passes { All (IsPass (line_id self.lock)) passes.items }
        requires all_passes { length passes.items ≡ (line_id self.lock).sizes.passes }
        requires note { IsNote (line_id self.lock) note }
        ensures run { WholeRun (map record_of_lane lanes.items) (map record_of_pass passes.items)
            result.jobs.items (number_of_note note) }
        ensures numbers { (k : ℕ) → k < (line_id self.lock).sizes.lanes →
            times k (map (λ l. (record_of_lane l).number) lanes.items) ≡ 1 }
        ensures lane_count { length result.accepted.items ≡ (line_id self.lock).sizes.lanes }
        ensures accepted { All (λ l. slice_index result.accepted.items (record_of_lane l).number
            ≡ length (accepted (record_of_lane l).entries)) lanes.items }
        ensures fits { length result.jobs.items ≤ (line_id self.lock).sizes.capacity }
        ensures machine { All (IsMadeFor (line_id self.lock).sizes.machine) result.jobs.items }
    {
        let LockedLine { lock } = self;
        let LockedNote {
            mut seat,
            number: _,
        } = note;
        gather_lanes(&lock, &mut seat, lanes);
        gather_passes(&lock, &mut seat, passes);
        let Store { jobs, accepted, .. } = lock.end(seat);
        Rest { jobs, accepted }
    }
}
