// A worker that may sleep takes a job, idle or as the searcher. The searcher has found work then.
ghost use Rattle.std.specs.Prelude.{true, ◌≡◌, ℕ, ◌+◌, ◌^◌, ◌<◌, ◌≤◌, ◌⊎◌, Some, length, slice_set, MatchBool, IfOk, IfErr, IfSome, IfNone};
ghost use Rattle.wake_pool.specs.declared.phase.WakePhase.TheVariants.{Idle, Searching, Found};
ghost use Rattle.lanes.specs.declared.takes.Taken.TheVariants.{Job};
ghost use Rattle.lanes.specs.Layout.{cell_of, lane_words};
ghost use Rattle.lanes.specs.Record.{take_of, after_head, after_empty, after_tail, after_cell, after_dim_cell, after_take, after_loss};
ghost use Rattle.lanes.specs.Lanes.{Takes, TakesAny, TakeAnyKeeps, ChangesOnly, call_steps};
ghost use Rattle.lanes.specs.Inner.Round.{Passing};
ghost use Rattle.lanes.specs.Phases.{ready_phase, done_phase, taken_phase, round_phase};
ghost use Rattle.lanes.specs.Inner.Sleeper.{HasHead, StaysInLane};

use crate::lanes::Lanes;
use crate::record::LaneJob;
use crate::rounds::{TakenAny, lane_after};
use crate::rule::{FindJob, ReadDim, ReadHead, ReadPayload, ReadTail, Take};
use crate::sizes::{HEAD, TAIL};
use crate::sleeping::Sleeper;
use crate::takes::{Taken, count_and_mark, set_tail};

impl Lanes {
    // Returns how many jobs of the lane were taken.
    pub(crate) fn head_of(&self, sleeper: &mut Sleeper, lane: u32) -> u64
        requires id { sleeper.old.id ≡ self.now }
        requires lane { lane < self.now.plan.sizes.lanes }
        ensures stays { StaysInLane self.now lane sleeper.old sleeper.new }
        ensures same { sleeper.new.phase ≡ sleeper.old.phase }
        ensures take { take_of lane sleeper.new.known
            ≡ after_head result (take_of lane sleeper.old.known) }
    {
        let head = self.word(lane, HEAD);
        self.table.shared.load::<ReadHead>(&mut sleeper.seat, head)
    }

    // Returns how many jobs the worker knows to be accepted, if that is more than `head`. It goes
    // by what it saw earlier, or reads the count. The error is whether the lane is closed.
    pub(crate) fn count_of(&self, sleeper: &mut Sleeper, lane: u32, head: u64) -> Result<u64, bool>
        requires head { HasHead self.now lane head sleeper.old }
        ensures stays { StaysInLane self.now lane sleeper.old sleeper.new }
        ensures same { sleeper.new.phase ≡ sleeper.old.phase }
        ensures some { IfOk result (λ count. (head < count)
            × (count ≡ (take_of lane sleeper.new.known).tail)
            × ((take_of lane sleeper.new.known ≡ take_of lane sleeper.old.known)
            ⊎ (take_of lane sleeper.new.known
            ≡ after_tail count (take_of lane sleeper.old.known)))) }
        ensures none { IfErr result (λ closed. take_of lane sleeper.new.known
            ≡ after_empty head closed (take_of lane sleeper.old.known)) }
    {
        let known = sleeper.tails[lane as usize];
        if head < known {
            return Ok(known);
        }
        self.tail_of(sleeper, lane, head)
    }

    // Returns how many jobs were accepted, if that is more than `head`; or whether the lane is
    // closed.
    fn tail_of(&self, sleeper: &mut Sleeper, lane: u32, head: u64) -> Result<u64, bool>
        requires head { HasHead self.now lane head sleeper.old }
        ensures stays { StaysInLane self.now lane sleeper.old sleeper.new }
        ensures same { sleeper.new.phase ≡ sleeper.old.phase }
        ensures some { IfOk result (λ count. (head < count)
            × (take_of lane sleeper.new.known
            ≡ after_tail count (take_of lane sleeper.old.known))) }
        ensures none { IfErr result (λ closed. take_of lane sleeper.new.known
            ≡ after_empty head closed (take_of lane sleeper.old.known)) }
    {
        let tail = self.word(lane, TAIL);
        let found = self.table.shared.load::<ReadTail>(&mut sleeper.seat, tail);
        let (count, closed) = count_and_mark(found);
        if count == head {
            return Err(closed);
        }
        set_tail(&mut sleeper.tails, lane, count);
        Ok(count)
    }

    // Returns what is in the cell for the payload of the job with the number `head`.
    pub(crate) fn payload_of(&self, sleeper: &mut Sleeper, lane: u32, head: u64, cell: usize) -> u64
        requires cell { cell ≡ cell_of self.now.plan.sizes.capacity head }
        requires inside { cell + 1 < lane_words self.now.plan.sizes.capacity }
        requires head { HasHead self.now lane head sleeper.old }
        requires some { head < (take_of lane sleeper.old.known).tail }
        ensures stays { StaysInLane self.now lane sleeper.old sleeper.new }
        ensures same { sleeper.new.phase ≡ sleeper.old.phase }
        ensures take { take_of lane sleeper.new.known
            ≡ after_cell result (take_of lane sleeper.old.known) }
    {
        let word = self.word(lane, cell);
        self.table
            .shared
            .load::<ReadPayload>(&mut sleeper.seat, word)
    }

    // Returns what is in the cell for the dimension of the job with the number `head`.
    pub(crate) fn dim_of(&self, sleeper: &mut Sleeper, lane: u32, head: u64, cell: usize) -> u32
        requires cell { cell ≡ cell_of self.now.plan.sizes.capacity head }
        requires inside { cell + 1 < lane_words self.now.plan.sizes.capacity }
        requires head { HasHead self.now lane head sleeper.old }
        requires some { head < (take_of lane sleeper.old.known).tail }
        ensures stays { StaysInLane self.now lane sleeper.old sleeper.new }
        ensures same { sleeper.new.phase ≡ sleeper.old.phase }
        ensures take { take_of lane sleeper.new.known
            ≡ after_dim_cell result (take_of lane sleeper.old.known) }
    {
        let word = self.word(lane, cell + 1);
        let found = self.table.shared.load::<ReadDim>(&mut sleeper.seat, word);
        (found % (1 << 32)) as u32
    }

    // Takes the job with the number `head` as the searcher, unless another worker has.
    fn take_found(&self, sleeper: &mut Sleeper, lane: u32, job: LaneJob) -> bool
        requires phase { sleeper.old.phase ≡ Searching }
        requires head { HasHead self.now lane job.seq sleeper.old }
        requires payload { (take_of lane sleeper.old.known).payload ≡ Some job.payload }
        requires dim { (take_of lane sleeper.old.known).dim ≡ Some job.dim }
        requires small { job.seq + 1 < 2 ^ 64 }
        ensures stays { StaysInLane self.now lane sleeper.old sleeper.new }
        ensures phase { MatchBool result (sleeper.new.phase ≡ Found)
            (sleeper.new.phase ≡ Searching) }
        ensures take { MatchBool result
            (take_of lane sleeper.new.known
            ≡ after_take job.payload job.dim (take_of lane sleeper.old.known))
            (take_of lane sleeper.new.known ≡ after_loss (take_of lane sleeper.old.known)) }
    {
        let head = self.word(lane, HEAD);
        let found = self
            .table
            .shared
            .compare_exchange::<FindJob>(&mut sleeper.seat, head, job.seq, job.seq + 1);
        found == job.seq
    }

    // The same as an idle worker.
    pub(crate) fn take_idle(&self, sleeper: &mut Sleeper, lane: u32, job: LaneJob) -> bool
        requires phase { sleeper.old.phase ≡ Idle }
        requires head { HasHead self.now lane job.seq sleeper.old }
        requires payload { (take_of lane sleeper.old.known).payload ≡ Some job.payload }
        requires dim { (take_of lane sleeper.old.known).dim ≡ Some job.dim }
        requires small { job.seq + 1 < 2 ^ 64 }
        ensures stays { StaysInLane self.now lane sleeper.old sleeper.new }
        ensures phase { sleeper.new.phase ≡ Idle }
        ensures take { MatchBool result
            (take_of lane sleeper.new.known
            ≡ after_take job.payload job.dim (take_of lane sleeper.old.known))
            (take_of lane sleeper.new.known ≡ after_loss (take_of lane sleeper.old.known)) }
    {
        let head = self.word(lane, HEAD);
        let found = self
            .table
            .shared
            .compare_exchange::<Take>(&mut sleeper.seat, head, job.seq, job.seq + 1);
        found == job.seq
    }

    // The same by whether the worker is the searcher.
    fn take_job(&self, sleeper: &mut Sleeper, lane: u32, job: LaneJob, searches: bool) -> bool
        requires phase { sleeper.old.phase ≡ ready_phase searches }
        requires head { HasHead self.now lane job.seq sleeper.old }
        requires payload { (take_of lane sleeper.old.known).payload ≡ Some job.payload }
        requires dim { (take_of lane sleeper.old.known).dim ≡ Some job.dim }
        requires small { job.seq + 1 < 2 ^ 64 }
        ensures stays { StaysInLane self.now lane sleeper.old sleeper.new }
        ensures phase { MatchBool result (sleeper.new.phase ≡ done_phase searches)
            (sleeper.new.phase ≡ ready_phase searches) }
        ensures take { MatchBool result
            (take_of lane sleeper.new.known
            ≡ after_take job.payload job.dim (take_of lane sleeper.old.known))
            (take_of lane sleeper.new.known ≡ after_loss (take_of lane sleeper.old.known)) }
    {
        if searches {
            return self.take_found(sleeper, lane, job);
        }
        self.take_idle(sleeper, lane, job)
    }

    // Takes the job at the head of the lane, as the searcher or as an idle worker.
    #[tactic(auto, using(crate::proofs::CallLemmas::only_again))]
    #[inline(always)]
    pub(crate) fn take_as(&self, sleeper: &mut Sleeper, lane: u32, searches: bool) -> Taken
        requires id { sleeper.old.id ≡ self.now }
        requires phase { sleeper.old.phase ≡ ready_phase searches }
        requires lane { lane < self.now.plan.sizes.lanes }
        ensures stays { StaysInLane self.now lane sleeper.old sleeper.new }
        ensures phase { sleeper.new.phase ≡ taken_phase searches result }
        ensures takes { Takes (take_of lane sleeper.old.known) result
            (take_of lane sleeper.new.known) }
        ensures steps { (take_of lane sleeper.new.known).steps
            ≤ (take_of lane sleeper.old.known).steps + call_steps }
    {
        let head = self.head_of(sleeper, lane);
        match self.count_of(sleeper, lane, head) {
            Err(true) => Taken::Ended,
            Err(false) => Taken::Empty,
            Ok(count) => {
                let cell = self.cell(head);
                let payload = self.payload_of(sleeper, lane, head, cell);
                let dim = self.dim_of(sleeper, lane, head, cell);
                let job = LaneJob {
                    seq: head,
                    payload,
                    dim,
                };
                if self.take_job(sleeper, lane, job, searches) {
                    Taken::Job(job, count - head - 1)
                } else {
                    Taken::Lost
                }
            }
        }
    }

    /// Takes the job at the head of the lane, as the searcher. With a job it has found work, and
    /// ends its search next (`leave`).
    pub fn search(&self, sleeper: &mut Sleeper, lane: u32) -> Taken
        requires id { sleeper.old.id ≡ self.now }
        requires phase { sleeper.old.phase ≡ Searching }
        requires lane { lane < self.now.plan.sizes.lanes }
        ensures id { sleeper.new.id ≡ self.now }
        ensures deeds { sleeper.new.deeds ≡ sleeper.old.deeds }
        ensures phase { sleeper.new.phase ≡ taken_phase true result }
        ensures only { ChangesOnly lane sleeper.old.known sleeper.new.known }
        ensures takes { Takes (take_of lane sleeper.old.known) result
            (take_of lane sleeper.new.known) }
        ensures steps { (take_of lane sleeper.new.known).steps
            ≤ (take_of lane sleeper.old.known).steps + call_steps }
    {
        self.take_as(sleeper, lane, true)
    }

    // Takes a job of one lane in a round. `all_ended` is whether all lanes so far had ended.
    #[inline(always)]
    fn try_lane(
        &self,
        sleeper: &mut Sleeper,
        lane: u32,
        searches: bool,
        all_ended: &mut bool,
    ) -> Option<(LaneJob, u64)>
        requires id { sleeper.old.id ≡ self.now }
        requires phase { sleeper.old.phase ≡ ready_phase searches }
        requires lane { lane < self.now.plan.sizes.lanes }
        ensures stays { StaysInLane self.now lane sleeper.old sleeper.new }
        ensures found { IfSome result (λ _. sleeper.new.phase ≡ done_phase searches) }
        ensures same { IfNone result (sleeper.new.phase ≡ ready_phase searches) }
        ensures job { IfSome result (λ found. Takes (take_of lane sleeper.old.known)
            (Job found.0 found.1) (take_of lane sleeper.new.known)) }
        ensures none { IfNone result (Passing all_ended.old all_ended.new
            (take_of lane sleeper.old.known) (take_of lane sleeper.new.known)) }
        ensures steps { (take_of lane sleeper.new.known).steps
            ≤ (take_of lane sleeper.old.known).steps + call_steps }
    {
        match self.take_as(sleeper, lane, searches) {
            Taken::Job(job, left) => Some((job, left)),
            Taken::Ended => None,
            Taken::Empty | Taken::Lost => {
                *all_ended = false;
                None
            }
        }
    }

    // Takes the job at the head of the first lane where it can, in one round of all lanes from the
    // lane `from` on.
    #[inline(always)]
    pub(crate) fn take_round(&self, sleeper: &mut Sleeper, from: u32, searches: bool) -> TakenAny
        requires id { sleeper.old.id ≡ self.now }
        requires phase { sleeper.old.phase ≡ ready_phase searches }
        requires from { from < self.now.plan.sizes.lanes }
        ensures id { sleeper.new.id ≡ self.now }
        ensures deeds { sleeper.new.deeds ≡ sleeper.old.deeds }
        ensures phase { sleeper.new.phase ≡ round_phase searches result }
        ensures takes { TakesAny self.now.plan.sizes.lanes from sleeper.old.known result
            sleeper.new.known }
        ensures keeps { TakeAnyKeeps self.now.plan.sizes.lanes sleeper.old.known
            sleeper.new.known }
    {
        let mut lane = from;
        let mut all_ended = true;
        let mut turn = 0;
        while turn < self.plan.sizes.lanes {
            if let Some((job, left)) = self.try_lane(sleeper, lane, searches, &mut all_ended) {
                return TakenAny::AnyJob(lane, job, left);
            }
            lane = lane_after(lane, self.plan.sizes.lanes);
            turn += 1;
        }
        if all_ended {
            return TakenAny::AllEnded;
        }
        TakenAny::NoJob
    }
}
