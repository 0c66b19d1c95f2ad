//! A caller of `job_queue` that is a queue itself, made from the contract `JobLine` alone.
ghost use Rattle.std.specs.Prelude.{◌≡◌, ℕ, ◌<◌, ◌≤◌, IfOk, map, length, slice_index};
ghost use Rattle.std.specs.List.{All};
ghost use Rattle.ghost_history.specs.Sums.{times};
ghost use Rattle.job_queue.specs.Record.{fresh_lanes, fresh_passes, accepted};
ghost use Rattle.job_queue.specs.Line.{IsMadeFor};
ghost use Rattle.job_queue.specs.Run.{WholeRun};

use cube_shape::{MAX_CAPACITY, MAX_DIM, MAX_LANES, MAX_PASSES};
use job_queue::{JobLine, Opened, Receipt, Refused, Rest, Sizes, Taken};
use job_types::Job;
use std::alloc::{AllocError, Global};
use std::marker::Model;
use std::sync::Wait;
use std::sync::atomic::{AtomicU64, Ordering};

/// A queue over another queue that counts the jobs that its passes take.
pub struct Tallied<L> {
    line: L,
    taken: AtomicU64,
}

/// A token that shows that a `Tallied` queue has ended, with the count of jobs taken by then. Only
/// its `take` makes one, and contracts see the count.
#[derive(Drop)]
pub struct Tally {
    count: u64,
}

impl Model for Tally {
    ghost use Rattle.std.specs.Prelude.{ℕ};

    ghost Value = { ℕ };

    ghost view = { λ tally. tally.count };
}

impl Tally {
    /// Returns how many jobs were taken, modulo `2^64`.
    pub fn taken(&self) -> u64
        ensures { result ≡ self.now }
    {
        self.count
    }
}

impl<L: JobLine> JobLine for Tallied<L> {
    type Lane = L::Lane;

    type Pass = L::Pass;

    type Closer = L::Closer;

    type Note = L::Note;

    type End = Tally;

    ghost id = { λ tallied. L.id tallied.line };

    ghost is_lane = { L.is_lane };

    ghost is_pass = { L.is_pass };

    ghost is_closer = { L.is_closer };

    ghost is_note = { L.is_note };

    ghost lane_record = { L.lane_record };

    ghost pass_record = { L.pass_record };

    ghost note_number = { L.note_number };

    fn open(
        alloc: Global,
        sizes: Sizes,
    ) -> Result<Opened<Tallied<L>, L::Lane, L::Pass, L::Closer>, AllocError>
        requires machine { sizes.machine ≤ MAX_DIM }
        requires lanes { sizes.lanes ≤ MAX_LANES }
        requires passes { sizes.passes ≤ MAX_PASSES }
        requires room { 0 < sizes.capacity }
        requires capacity { sizes.capacity ≤ MAX_CAPACITY }
        ensures sizes { IfOk result (λ made. (L.id made.line.line).sizes ≡ sizes) }
        ensures lanes { IfOk result (λ made.
            All (L.is_lane (L.id made.line.line)) made.lanes.items) }
        ensures passes { IfOk result (λ made.
            All (L.is_pass (L.id made.line.line)) made.passes.items) }
        ensures closer { IfOk result (λ made. L.is_closer (L.id made.line.line) made.closer) }
        ensures fresh_lanes { IfOk result (λ made.
            map L.lane_record made.lanes.items ≡ fresh_lanes sizes.lanes) }
        ensures fresh_passes { IfOk result (λ made.
            map L.pass_record made.passes.items ≡ fresh_passes sizes.passes) }
    {
        let Opened {
            line,
            lanes,
            passes,
            closer,
        } = L::open(alloc, sizes)?;
        let taken = AtomicU64::new(0);
        Ok(Opened {
            line: Tallied { line, taken },
            lanes,
            passes,
            closer,
        })
    }

    fn lane_number(lane: &L::Lane) -> u32 {
        L::lane_number(lane)
    }

    fn entry_count(lane: &L::Lane) -> u64 {
        L::entry_count(lane)
    }

    fn close_number(note: &L::Note) -> u64 {
        L::close_number(note)
    }

    fn submit<R: Wait>(
        &self,
        rt: &R,
        lane: &mut L::Lane,
        job: Job,
    ) -> Result<Receipt, (Job, Refused)> {
        self.line.submit(rt, lane, job)
    }

    fn room_hint<R: Wait>(&self, rt: &R, lane: &mut L::Lane) -> bool {
        self.line.room_hint(rt, lane)
    }

    fn job_hint<R: Wait>(&self, rt: &R, pass: &mut L::Pass) -> bool {
        self.line.job_hint(rt, pass)
    }

    fn take<R: Wait>(&self, rt: &R, pass: &mut L::Pass) -> Taken<Tally> {
        match self.line.take(rt, pass) {
            Taken::Job(id, job) => {
                self.taken.fetch_add(1, Ordering::SeqCst);
                Taken::Job(id, job)
            }
            Taken::EmptyNow => Taken::EmptyNow,
            Taken::Ended(_) => Taken::Ended(Tally {
                count: self.taken.load(Ordering::SeqCst),
            }),
        }
    }

    fn close<R: Wait>(&self, rt: &R, closer: L::Closer) -> L::Note {
        self.line.close(rt, closer)
    }

    fn into_rest<R: Wait>(
        self,
        rt: &R,
        lanes: Vec<L::Lane>,
        passes: Vec<L::Pass>,
        note: L::Note,
    ) -> Rest
        requires lanes { All (L.is_lane (L.id self.line)) lanes.items }
        requires all_lanes { length lanes.items ≡ (L.id self.line).sizes.lanes }
        requires passes { All (L.is_pass (L.id self.line)) passes.items }
        requires all_passes { length passes.items ≡ (L.id self.line).sizes.passes }
        requires note { L.is_note (L.id self.line) note }
        ensures run { WholeRun (map L.lane_record lanes.items) (map L.pass_record passes.items)
            result.jobs.items (L.note_number note) }
        ensures numbers { (k : ℕ) → k < (L.id self.line).sizes.lanes →
            times k (map (λ l. (L.lane_record l).number) lanes.items) ≡ 1 }
        ensures lane_count { length result.accepted.items ≡ (L.id self.line).sizes.lanes }
        ensures accepted { All (λ l. slice_index result.accepted.items (L.lane_record l).number
            ≡ length (accepted (L.lane_record l).entries)) lanes.items }
        ensures fits { length result.jobs.items ≤ (L.id self.line).sizes.capacity }
        ensures machine { All (IsMadeFor (L.id self.line).sizes.machine) result.jobs.items }
    {
        let Tallied { line, taken: _ } = self;
        line.into_rest(rt, lanes, passes, note)
    }
}
