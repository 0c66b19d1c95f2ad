// The handles come back, and the lanes end.
ghost use Rattle.std.specs.Prelude.{◌≡◌, ◌+◌, ◌-◌, ◌*◌, ◌<◌, ◌≤◌, [], ◌∷◌, ◌++◌, length, map};
ghost use Rattle.std.specs.VecDeque.{deque_capacity};
ghost use Rattle.std.specs.Mem.Slots.{slots_items, slots_len, IsFull};
ghost use Rattle.lanes.specs.Layout.{all_words};
ghost use Rattle.lanes.specs.Run.{in_lanes};
ghost use Rattle.lanes.specs.Inner.Rest.{IsSmall, InRange, left_job, left_in};

use crate::handles::{Lane, LanesEnd, Worker};
use crate::lanes::{Lanes, cell_at, word_of};
use crate::record::LaneJob;
use crate::rule::Gather;
use crate::sizes::{CLOSED, HEAD, Plan, TAIL};
use crate::sleeping::Sleeper;
use atomic_table::Closed;
use std::alloc::Global;
use std::collections::VecDeque;

// Returns the job with the number `seq` out of its cells.
fn job_at(closed: &Closed<(), Global>, plan: Plan, lane: u32, seq: u64) -> LaneJob
    requires plan { IsSmall plan }
    requires lane { lane < plan.sizes.lanes }
    requires words { (slots_len closed.now.words ≡ all_words plan) × IsFull closed.now.words }
    ensures { result ≡ left_job plan (slots_items closed.now.words) lane seq }
{
    let cell = cell_at(plan, seq);
    let payload = closed.word(word_of(plan, lane, cell));
    let dim = closed.word(word_of(plan, lane, cell + 1));
    LaneJob {
        seq,
        payload,
        dim: (dim % (1 << 32)) as u32,
    }
}

// Adds the jobs that are left in one lane.
fn drain_lane(
    closed: &Closed<(), Global>,
    rest: &mut VecDeque<(u32, LaneJob)>,
    plan: Plan,
    lane: u32,
)
    requires plan { IsSmall plan }
    requires lane { lane < plan.sizes.lanes }
    requires words { (slots_len closed.now.words ≡ all_words plan) × IsFull closed.now.words }
    requires range { InRange plan (slots_items closed.now.words) }
    requires room { length rest.old.items + plan.sizes.capacity ≤ deque_capacity rest.old }
    ensures items { rest.new.items ≡ rest.old.items
        ++ map (λ j. (lane, j)) (left_in plan (slots_items closed.now.words) lane) }
    ensures capacity { deque_capacity rest.new ≡ deque_capacity rest.old }
{
    let taken = closed.word(word_of(plan, lane, HEAD));
    let accepted = closed.word(word_of(plan, lane, TAIL)) - CLOSED;
    let mut seq = taken;
    while seq < accepted {
        let job = job_at(closed, plan, lane, seq);
        rest.push_back_reserved((lane, job));
        seq += 1;
    }
}

// Adds the jobs that are left in all lanes, in the order of the lanes.
#[tactic(auto, using(crate::proofs::RestLemmas::in_lanes_next))]
pub(crate) fn drain(closed: &Closed<(), Global>, rest: &mut VecDeque<(u32, LaneJob)>, plan: Plan)
    requires plan { IsSmall plan }
    requires words { (slots_len closed.now.words ≡ all_words plan) × IsFull closed.now.words }
    requires range { InRange plan (slots_items closed.now.words) }
    requires room { (rest.old.items ≡ [])
        × (plan.sizes.lanes * plan.sizes.capacity ≤ deque_capacity rest.old) }
    ensures { rest.new.items
        ≡ in_lanes (left_in plan (slots_items closed.now.words)) plan.sizes.lanes }
{
    for lane in 0..plan.sizes.lanes {
        drain_lane(closed, rest, plan, lane);
    }
}

impl Lanes {
    /// Takes a lane back.
    pub fn gather_lane(&self, end: &mut LanesEnd, lane: Lane)
        requires end { end.old.id ≡ self.now }
        requires lane { lane.id ≡ self.now }
        ensures id { end.new.id ≡ self.now }
        ensures lanes { end.new.lanes ≡ end.old.lanes ++ lane.known ∷ [] }
        ensures workers { end.new.workers ≡ end.old.workers }
        ensures counts { end.new.counts ≡ end.old.counts }
    {
        let Lane {
            seat,
            plan: _,
            number: _,
            seen: _,
            next: _,
        } = lane;
        self.table.shared.join_seat::<Gather>(&mut end.seat, seat);
    }

    /// Takes a worker back.
    pub fn gather_worker(&self, end: &mut LanesEnd, worker: Worker)
        requires end { end.old.id ≡ self.now }
        requires worker { worker.id ≡ self.now }
        ensures id { end.new.id ≡ self.now }
        ensures workers { end.new.workers ≡ end.old.workers ++ worker.known ∷ [] }
        ensures lanes { end.new.lanes ≡ end.old.lanes }
        ensures counts { end.new.counts ≡ end.old.counts }
    {
        let Worker { sleeper } = worker;
        self.gather_sleeper(end, sleeper);
    }

    // The same, whatever it does at the moment.
    fn gather_sleeper(&self, end: &mut LanesEnd, sleeper: Sleeper)
        requires end { end.old.id ≡ self.now }
        requires sleeper { sleeper.id ≡ self.now }
        ensures id { end.new.id ≡ self.now }
        ensures workers { end.new.workers ≡ end.old.workers ++ sleeper.known ∷ [] }
        ensures lanes { end.new.lanes ≡ end.old.lanes }
        ensures counts { end.new.counts ≡ end.old.counts }
    {
        let Sleeper {
            seat,
            plan: _,
            number: _,
            tails: _,
        } = sleeper;
        self.table.shared.join_seat::<Gather>(&mut end.seat, seat);
    }
}
