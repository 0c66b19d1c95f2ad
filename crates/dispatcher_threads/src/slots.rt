// How lanes and workers go into their slots, and come out again.
ghost use Rattle.std.specs.Prelude.{◌≡◌, ◌≢◌, ℕ, ◌+◌, ◌<◌, ◌≤◌, [], List, map, length, slice_index_or};
ghost use Rattle.std.specs.List.{All};
ghost use Rattle.std.specs.Option.{MatchOption};
ghost use Rattle.std.specs.Vec.{vec_capacity};
ghost use Rattle.job_queue.specs.Record.{fresh_lanes};
ghost use Rattle.job_queue.specs.Line.{IsFor};
ghost use Rattle.dispatcher.specs.Members.{IsWorkerOf, IsEndOf};
ghost use Rattle.dispatcher_threads.specs.InnerEnd.{HasEnded};

use crate::member::{LaneSlot, Naming, WorkerSlot};
use crate::running::LaneEnd;
use dispatcher::{Shop, Worker, WorkerEnd};
use floors::Floor;
use job_queue::JobLine;
use job_types::Job;
use std::alloc::Global;
use std::collections::VecDeque;
use std::marker::{Model, PhantomData};
use std::sync::{Mutex, Wait};

// Workers that have no slot yet.
struct WaitingWorkers<J: Naming, L: JobLine, F: Floor> {
    workers: Vec<Worker<L, F>>,
    of: PhantomData<J>,
}

impl<J: Naming, L: JobLine, F: Floor> Model for WaitingWorkers<J, L, F> {
    ghost use Rattle.std.specs.Prelude.{ℕ, length};
    ghost use Rattle.std.specs.List.{All};
    ghost use Rattle.dispatcher.specs.Members.{IsWorkerOf};

    // The number of these workers.
    ghost Value = { ℕ };

    ghost view = { λ i. length i.workers.items };

    ghost invariant = { λ i. All (IsWorkerOf J.shop) i.workers.items };
}

impl<J: Naming, L: JobLine, F: Floor> WaitingWorkers<J, L, F> {
    // Makes a slot for the last of them.
    #[tactic(auto, using(crate::proofs::SlotLemmas::all_last, crate::proofs::SlotLemmas::all_front))]
    fn next(&mut self) -> Option<WorkerSlot<J, L, F>>
        ensures fewer { MatchOption result ((self.old ≡ 0) × (self.new ≡ 0))
            (λ slot. self.old ≡ self.new + 1) }
    {
        let worker = self.workers.pop()?;
        Some(WorkerSlot::new(worker))
    }

    // Ends the list: all of them have a slot.
    fn end(self)
        requires { self ≡ 0 }
    {
        let WaitingWorkers { workers, of: _ } = self;
        workers.destroy_empty();
    }
}

// Puts each worker into a slot. A worker without memory for its slot stops without running.
pub(crate) fn slots_for_workers<J: Naming, L: JobLine, F: Floor>(
    alloc: Global,
    workers: Vec<Worker<L, F>>,
    ends: &mut Vec<WorkerEnd<L, F>>,
) -> Vec<Mutex<WorkerSlot<J, L, F>>>
    requires workers { All (IsWorkerOf J.shop) workers.items }
    requires empty { ends.old.items ≡ [] }
    requires room { length workers.items ≤ vec_capacity ends.old }
    ensures count { length result.items + length ends.new.items ≡ length workers.items }
    ensures ends { All (IsEndOf J.shop) ends.new.items }
    ensures room { length workers.items ≤ vec_capacity ends.new }
{
    let mut idle: WaitingWorkers<J, L, F> = WaitingWorkers {
        workers,
        of: PhantomData,
    };
    let mut worker_slots = Vec::new(alloc);
    while let Some(slot) = idle.next() {
        if let Err(failed) = worker_slots.push(Mutex::new(slot)) {
            ends.push_reserved(failed.value.into_inner().into_end(alloc));
        }
    }
    idle.end();
    worker_slots
}

// Takes the workers that have stopped out of their slots, in the order of these.
pub(crate) fn workers_from_slots<J: Naming, L: JobLine, F: Floor>(
    alloc: Global,
    mut worker_slots: Vec<Mutex<WorkerSlot<J, L, F>>>,
    ends: &mut Vec<WorkerEnd<L, F>>,
)
    requires room { length worker_slots.items + length ends.old.items ≤ vec_capacity ends.old }
    requires ends { All (IsEndOf J.shop) ends.old.items }
    ensures count { length ends.new.items ≡ length worker_slots.items + length ends.old.items }
    ensures ends { All (IsEndOf J.shop) ends.new.items }
{
    worker_slots.reverse();
    while let Some(slot) = worker_slots.pop() {
        ends.push_reserved(slot.into_inner().into_end(alloc));
    }
    worker_slots.destroy_empty();
}

// Lanes with their jobs that have no slot yet.
struct WaitingLanes<J: Naming, L: JobLine> {
    lanes: Vec<L::Lane>,
    jobs: Vec<VecDeque<Job>>,
    of: PhantomData<J>,
}

impl<J: Naming, L: JobLine> Model for WaitingLanes<J, L> {
    ghost use Rattle.std.specs.Prelude.{◌≡◌, ℕ, ◌<◌, ◌≤◌, [], map, length, slice_index_or};
    ghost use Rattle.std.specs.List.{All};
    ghost use Rattle.std.specs.Vec.{vec_capacity};
    ghost use Rattle.job_queue.specs.Record.{fresh_lanes};
    ghost use Rattle.job_queue.specs.Line.{IsFor};

    // The number of these lanes.
    ghost Value = { ℕ };

    ghost view = { λ u. length u.lanes.items };

    ghost invariant = { λ u. All (L.is_lane J.shop.line) u.lanes.items
        × (map L.lane_record u.lanes.items ≡ fresh_lanes (length u.jobs.items))
        × ((k : ℕ) → k < length u.jobs.items →
        slice_index_or (map (λ js. js.items) u.jobs.items) k [] ≡ J.jobs k)
        × ((k : ℕ) → k < length u.jobs.items → All (IsFor J.shop.line.sizes.machine k) (J.jobs k))
        × (J.shop.line.sizes.lanes ≤ vec_capacity u.lanes) };
}

impl<J: Naming, L: JobLine> WaitingLanes<J, L> {
    fn new(lanes: Vec<L::Lane>, jobs: Vec<VecDeque<Job>>) -> WaitingLanes<J, L>
        requires lanes { All (L.is_lane J.shop.line) lanes.items }
        requires fresh { map L.lane_record lanes.items ≡ fresh_lanes (length jobs.items) }
        requires jobs { (k : ℕ) → k < length jobs.items →
            slice_index_or (map (λ js. js.items) jobs.items) k [] ≡ J.jobs k }
        requires made_for { (k : ℕ) → k < length jobs.items →
            All (IsFor J.shop.line.sizes.machine k) (J.jobs k) }
        requires room { J.shop.line.sizes.lanes ≤ vec_capacity lanes }
        ensures { result ≡ length lanes.items }
    {
        WaitingLanes {
            lanes,
            jobs,
            of: PhantomData,
        }
    }

    // Makes a slot for the last of them, with the last list.
    fn next(&mut self) -> Option<LaneSlot<J, L>>
        ensures fewer { MatchOption result ((self.old ≡ 0) × (self.new ≡ 0))
            (λ slot. self.old ≡ self.new + 1) }
    {
        let lane = self.lanes.pop()?;
        let Some(list) = self.jobs.pop() else {
            unreachable!()
        };
        Some(LaneSlot::new(lane, list))
    }

    // Returns the empty list, with room for as many lanes, after all of them got a slot.
    fn into_room(self) -> Vec<L::Lane>
        requires { self ≡ 0 }
        ensures { (result.items ≡ []) × (J.shop.line.sizes.lanes ≤ vec_capacity result) }
    {
        let Self {
            lanes,
            jobs: _,
            of: _,
        } = self;
        lanes
    }
}

// Puts each lane with its jobs into a slot. A lane without memory for its slot submits nothing.
pub(crate) fn slots_for_lanes<J: Naming, R: Wait, L: JobLine, F: Floor>(
    rt: &R,
    alloc: Global,
    shop: &Shop<L, F>,
    lanes: Vec<L::Lane>,
    jobs: Vec<VecDeque<Job>>,
    fed: &mut Vec<(L::Lane, LaneEnd)>,
) -> (Vec<Mutex<LaneSlot<J, L>>>, Vec<L::Lane>)
    requires shop { shop.now ≡ J.shop }
    requires lanes { All (L.is_lane J.shop.line) lanes.items }
    requires all_lanes { J.shop.line.sizes.lanes ≡ length lanes.items }
    requires fresh { map L.lane_record lanes.items ≡ fresh_lanes (length jobs.items) }
    requires jobs { (k : ℕ) → k < length jobs.items →
        slice_index_or (map (λ js. js.items) jobs.items) k [] ≡ J.jobs k }
    requires made_for { (k : ℕ) → k < length jobs.items →
        All (IsFor J.shop.line.sizes.machine k) (J.jobs k) }
    requires empty { fed.old.items ≡ [] }
    requires room { length lanes.items ≤ vec_capacity fed.old }
    ensures count { length result.0.items + length fed.new.items ≡ length lanes.items }
    ensures lanes { All (λ f. L.is_lane J.shop.line f.0) fed.new.items }
    ensures lane_ends { All (λ f. HasEnded J.jobs (L.lane_record f.0) f.1) fed.new.items }
    ensures room { length lanes.items ≤ vec_capacity fed.new }
    ensures lane_room { (result.1.items ≡ []) × (length lanes.items ≤ vec_capacity result.1) }
{
    let mut idle: WaitingLanes<J, L> = WaitingLanes::new(lanes, jobs);
    let mut lane_slots = Vec::new(alloc);
    while let Some(slot) = idle.next() {
        if let Err(failed) = lane_slots.push(Mutex::new(slot)) {
            fed.push_reserved(failed.value.into_inner().into_end(rt, shop));
        }
    }
    (lane_slots, idle.into_room())
}

// Takes the lanes out of their slots, each with its end.
pub(crate) fn lanes_from_slots<J: Naming, R: Wait, L: JobLine, F: Floor>(
    rt: &R,
    shop: &Shop<L, F>,
    mut lane_slots: Vec<Mutex<LaneSlot<J, L>>>,
    fed: &mut Vec<(L::Lane, LaneEnd)>,
)
    requires shop { shop.now ≡ J.shop }
    requires room { length lane_slots.items + length fed.old.items ≤ vec_capacity fed.old }
    requires lanes { All (λ f. L.is_lane J.shop.line f.0) fed.old.items }
    requires lane_ends { All (λ f. HasEnded J.jobs (L.lane_record f.0) f.1) fed.old.items }
    ensures count { length fed.new.items ≡ length lane_slots.items + length fed.old.items }
    ensures lanes { All (λ f. L.is_lane J.shop.line f.0) fed.new.items }
    ensures lane_ends { All (λ f. HasEnded J.jobs (L.lane_record f.0) f.1) fed.new.items }
{
    while let Some(slot) = lane_slots.pop() {
        fed.push_reserved(slot.into_inner().into_end(rt, shop));
    }
    lane_slots.destroy_empty();
}
