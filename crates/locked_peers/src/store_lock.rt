// The lock of a queue. Its state is in a cell. A call takes it and gives it back, and by that step
// the record of its lane or pass gains what the call did.
//
// Only these steps change a record. Those that record a full or empty queue consume the token of
// the push or pop that found it so.
ghost use Rattle.std.specs.Prelude.{◌≡◌, ℕ, ◌+◌, ◌<◌, ◌≤◌, ◌^◌, [], ◌∷◌, true, false, IfOk, MatchOption, length, slice_index};
ghost use Rattle.job_queue.specs.declared.job_line.Sizes.{Sizes as LineSizes};
ghost use Rattle.locked_peers.specs.declared.store.Store.{Store as State};
ghost use Rattle.job_queue.specs.declared.record.QueuedJob.{QueuedJob as Queued};
ghost use Rattle.job_queue.specs.declared.record.LaneRecord.{LaneRecord};
ghost use Rattle.job_queue.specs.declared.record.PassRecord.{PassRecord};
ghost use Rattle.locked_peers.specs.InnerLine.View.{Pushes, Pops, Shuts, first_view, without_lane, lane_alone, without_pass, pass_alone, joined, members};
ghost use Rattle.locked_peers.specs.InnerLine.Step.{IsIdle, Took, IsLaneOut, IsPassOut, IsCloserOut, Accepts, Fills, Hands, Same, Closes, after_entry, after_full_entry, after_seen, after_taken, after_reading, after_close};
ghost use Rattle.locked_peers.specs.InnerLine.End.{IsWhole, IsEnd};

use crate::cell::LockedCell;
use crate::line_plays::{
    Accept, DealLane, DealPass, Fill, Gather, Hand, LineRule, Read, Refuse, Shut,
};
use crate::line_view::View;
use crate::store::{LockedEnd, SawEmpty, SawFull, Store};
use cube_shape::MAX_LANES;
use job_queue::{QueuedJob, Receipt, Sizes};
use job_types::Job;
use std::alloc::{AllocError, Global};
use std::sync::Wait;

pub(crate) type Seat = atomic_table::Seat<Store, View>;

/// The lock of a queue, with its state.
#[derive(Drop)]
pub(crate) struct StoreLock {
    cell: LockedCell<Store, View, Sizes, LineRule>,
}

impl StoreLock {
    ghost use Rattle.locked_peers.specs.InnerLine.Handle.{table_of, sizes_of};

    // Makes a lock with an empty state, and the seat that has the records of all members.
    pub fn new(alloc: Global, sizes: Sizes) -> Result<(StoreLock, Seat), AllocError>
        requires { sizes.lanes ≤ MAX_LANES }
        ensures sizes { IfOk result (λ made. sizes_of made.0 ≡ sizes) }
        ensures table { IfOk result (λ made. made.1.table_id ≡ table_of made.0) }
        ensures seat { IfOk result (λ made. made.1.me ≡ (first_view sizes, [])) }
    {
        let store = Store::new(alloc, sizes)?;
        let (cell, seat) = LockedCell::<Store, View, Sizes, LineRule>::new(alloc, store, &sizes)?;
        Ok((StoreLock { cell }, seat))
    }

    // Splits off a seat with the record of the first lane that `seat` has.
    pub fn deal_lane(&self, seat: &mut Seat) -> Seat
        requires table { seat.old.table_id ≡ table_of self.now }
        requires idle { IsIdle seat.old.me }
        ensures tables { (seat.new.table_id ≡ table_of self.now)
            × (result.table_id ≡ table_of self.now) }
        ensures left { seat.new.me ≡ (without_lane seat.old.me.0, []) }
        ensures dealt { result.me ≡ (lane_alone seat.old.me.0, []) }
    {
        self.cell.deal::<DealLane>(seat)
    }

    // Splits off a seat with the record of the first pass that `seat` has.
    pub fn deal_pass(&self, seat: &mut Seat) -> Seat
        requires table { seat.old.table_id ≡ table_of self.now }
        requires idle { IsIdle seat.old.me }
        ensures tables { (seat.new.table_id ≡ table_of self.now)
            × (result.table_id ≡ table_of self.now) }
        ensures left { seat.new.me ≡ (without_pass seat.old.me.0, []) }
        ensures dealt { result.me ≡ (pass_alone seat.old.me.0, []) }
    {
        self.cell.deal::<DealPass>(seat)
    }

    // Joins the records of another seat to those of `seat`.
    pub fn gather(&self, seat: &mut Seat, other: Seat)
        requires tables { (seat.old.table_id ≡ table_of self.now)
            × (other.table_id ≡ table_of self.now) }
        requires idle { IsIdle seat.old.me × IsIdle other.me }
        ensures table { seat.new.table_id ≡ table_of self.now }
        ensures both { seat.new.me ≡ (joined seat.old.me.0 other.me.0, []) }
    {
        self.cell.gather::<Gather>(seat, other);
    }

    // Takes the state. Waits while another seat has it.
    pub fn enter<R: Wait>(&self, rt: &R, seat: &mut Seat)
        requires table { seat.old.table_id ≡ table_of self.now }
        requires idle { IsIdle seat.old.me }
        ensures table { seat.new.table_id ≡ table_of self.now }
        ensures took { Took seat.old.me seat.new.me }
    {
        self.cell.enter(rt, seat);
    }

    // Returns the count of entries if the state that the seat has taken is closed.
    pub fn closed_at(&self, seat: &mut Seat) -> Option<u64>
        requires table { seat.old.table_id ≡ table_of self.now }
        requires held { (x : State) × (seat.old.me.1 ≡ (0, x) ∷ []) }
        ensures table { seat.new.table_id ≡ table_of self.now }
        ensures same { seat.new.me ≡ seat.old.me }
        ensures value { (x : State) → seat.old.me.1 ≡ (0, x) ∷ [] → MatchOption result
            (x.closed ≡ false) (λ n. (x.closed ≡ true) × (n ≡ x.entries)) }
    {
        seat.slot_mut(&self.cell.table.shared, 0).closed_at()
    }

    // Returns the end if a pop has found the state empty and it is closed.
    pub fn find_end(&self, seat: &mut Seat, saw: &SawEmpty) -> Option<LockedEnd>
        requires table { seat.old.table_id ≡ table_of self.now }
        requires held { (x : State) × (seat.old.me.1 ≡ (0, x) ∷ []) }
        ensures table { seat.new.table_id ≡ table_of self.now }
        ensures same { seat.new.me ≡ seat.old.me }
        ensures value { (x : State) → seat.old.me.1 ≡ (0, x) ∷ [] → MatchOption result
            (x.closed ≡ false) (λ _. x.closed ≡ true) }
    {
        seat.slot_mut(&self.cell.table.shared, 0).find_end(saw)
    }

    // Makes an entry in the state that the seat has taken.
    pub fn push(&self, seat: &mut Seat, lane: u32, job: Job) -> Result<Receipt, (Job, SawFull)>
        requires table { seat.old.table_id ≡ table_of self.now }
        requires held { (x : State) × (seat.old.me.1 ≡ (0, x) ∷ [])
            × (lane < length x.accepted.items)
            × (x.entries + 1 < 2 ^ 64) × (slice_index x.accepted.items lane + 1 < 2 ^ 64) }
        ensures table { seat.new.table_id ≡ table_of self.now }
        ensures pushed { (x : State) → seat.old.me.1 ≡ (0, x) ∷ [] → (y : State)
            × (seat.new.me ≡ (seat.old.me.0, (0, y) ∷ [])) × Pushes x lane job result y }
    {
        seat.slot_mut(&self.cell.table.shared, 0).push(lane, job)
    }

    // Takes the job at the front of the state that the seat has taken.
    pub fn pop(&self, seat: &mut Seat) -> Result<QueuedJob, SawEmpty>
        requires table { seat.old.table_id ≡ table_of self.now }
        requires held { (x : State) × (seat.old.me.1 ≡ (0, x) ∷ []) }
        ensures table { seat.new.table_id ≡ table_of self.now }
        ensures popped { (x : State) → seat.old.me.1 ≡ (0, x) ∷ [] → (y : State)
            × (seat.new.me ≡ (seat.old.me.0, (0, y) ∷ [])) × Pops x result y }
    {
        seat.slot_mut(&self.cell.table.shared, 0).pop()
    }

    // Sets the closed mark in the state that the seat has taken. Returns the count of entries.
    pub fn shut(&self, seat: &mut Seat) -> u64
        requires table { seat.old.table_id ≡ table_of self.now }
        requires held { (x : State) × (seat.old.me.1 ≡ (0, x) ∷ []) }
        ensures table { seat.new.table_id ≡ table_of self.now }
        ensures shut { (x : State) → seat.old.me.1 ≡ (0, x) ∷ [] → (y : State)
            × (seat.new.me ≡ (seat.old.me.0, (0, y) ∷ [])) × Shuts x result y }
    {
        seat.slot_mut(&self.cell.table.shared, 0).shut()
    }

    // Gives the state back. The lane's record gains an entry with the job that came in.
    pub fn accept(&self, seat: &mut Seat)
        requires table { seat.old.table_id ≡ table_of self.now }
        requires ready { (r : LaneRecord) × (x : State) × (y : State) × (job : Queued)
            × IsLaneOut seat.old.me r x y × Accepts seat.old.me.0.about r x job y }
        ensures table { seat.new.table_id ≡ table_of self.now }
        ensures gained { seat.new.me ≡ after_entry seat.old.me }
    {
        self.cell.give_back::<Accept>(seat);
    }

    // Gives the state back. The lane's record gains an entry without a job.
    pub fn fill(&self, seat: &mut Seat, saw: SawFull)
        requires table { seat.old.table_id ≡ table_of self.now }
        requires ready { (r : LaneRecord) × (x : State) × (y : State)
            × IsLaneOut seat.old.me r x y × Fills r x y }
        ensures table { seat.new.table_id ≡ table_of self.now }
        ensures gained { seat.new.me ≡ after_full_entry seat.old.me }
    {
        saw.spend();
        self.cell.give_back::<Fill>(seat);
    }

    // Gives the state back. The lane's record gains the count of a closed queue.
    pub fn refuse(&self, seat: &mut Seat)
        requires table { seat.old.table_id ≡ table_of self.now }
        requires ready { (r : LaneRecord) × (x : State) × (y : State)
            × IsLaneOut seat.old.me r x y × (x.closed ≡ true) × Same x y }
        ensures table { seat.new.table_id ≡ table_of self.now }
        ensures gained { seat.new.me ≡ after_seen seat.old.me }
    {
        self.cell.give_back::<Refuse>(seat);
    }

    // Gives the state back. The pass's record gains the job that it took.
    pub fn hand_over(&self, seat: &mut Seat)
        requires table { seat.old.table_id ≡ table_of self.now }
        requires ready { (r : PassRecord) × (x : State) × (y : State) × (job : Queued)
            × IsPassOut seat.old.me r x y × Hands x job y }
        ensures table { seat.new.table_id ≡ table_of self.now }
        ensures gained { seat.new.me ≡ after_taken seat.old.me }
    {
        self.cell.give_back::<Hand>(seat);
    }

    // Gives the state back. The pass's record gains a reading of the empty queue.
    pub fn read(&self, seat: &mut Seat, saw: SawEmpty)
        requires table { seat.old.table_id ≡ table_of self.now }
        requires ready { (r : PassRecord) × (x : State) × (y : State)
            × IsPassOut seat.old.me r x y × (x.jobs.items ≡ []) × Same x y }
        ensures table { seat.new.table_id ≡ table_of self.now }
        ensures gained { seat.new.me ≡ after_reading seat.old.me }
    {
        saw.spend();
        self.cell.give_back::<Read>(seat);
    }

    // Gives the state back. The closer's record gains the close.
    pub fn close(&self, seat: &mut Seat)
        requires table { seat.old.table_id ≡ table_of self.now }
        requires ready { (x : State) × (y : State) × IsCloserOut seat.old.me x y × Closes x y }
        ensures table { seat.new.table_id ≡ table_of self.now }
        ensures gained { seat.new.me ≡ after_close seat.old.me }
    {
        self.cell.give_back::<Shut>(seat);
    }

    // Returns the state. The seat must have the records of all members.
    pub fn end(self, seat: Seat) -> Store
        requires table { seat.table_id ≡ table_of self }
        requires whole { (number : ℕ) × (seat.me.1 ≡ [])
            × IsWhole (sizes_of self) seat.me.0 number }
        ensures { (number : ℕ) → IsWhole (sizes_of self) seat.me.0 number →
            IsEnd (sizes_of self) seat.me.0 number result }
    {
        let StoreLock { cell } = self;
        cell.end(seat)
    }
}
