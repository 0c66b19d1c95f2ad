// The lanes: they are opened, and their handles are dealt out.
ghost use Rattle.std.specs.Prelude.{◌≡◌, ◌+◌, ◌<◌, ◌≤◌, [], IfOk, OnErr, length, replicate};
ghost use Rattle.wake_pool.specs.declared.phase.WakePhase.TheVariants.{Idle};
ghost use Rattle.wake_pool.specs.Words.{base};
ghost use Rattle.wake_pool.specs.Words as sleepers;
ghost use Rattle.lanes.specs.Inner.Rest.{IsSmall};
ghost use Rattle.lanes.specs.Layout.{lane_words, lane_start, all_words, cell_of};
ghost use Rattle.lanes.specs.Record.{fresh_lane, fresh_worker};
ghost use Rattle.lanes.specs.Run.{WholeLanes};

use crate::ending::drain;
use crate::handles::{Lane, LanesEnd, Members, Worker};
use crate::record::LaneJob;
use crate::rule::{DealLane, DealWorker, LanesRule};
use crate::sizes::{CELLS, MAX_CAPACITY, MAX_LANES, MAX_WORKERS, Plan, Sizes};
use crate::sleeping::Sleeper;
use crate::view::Both;
use atomic_table::Table;
use std::alloc::{AllocError, Global};
use std::collections::VecDeque;
use std::marker::Model;
use wake_pool::word_count;

// Returns the word at this place among those of the lane.
pub(crate) fn word_of(plan: Plan, lane: u32, place: usize) -> usize
    requires plan { IsSmall plan }
    requires lane { lane < plan.sizes.lanes }
    requires place { place < lane_words plan.sizes.capacity }
    ensures word { result ≡ lane_start plan lane + place }
    ensures inside { result < all_words plan }
{
    let lane_words = CELLS + 2 * plan.sizes.capacity as usize;
    plan.base as usize + lane as usize * lane_words + place
}

// Returns the place of the first cell of the job with the number `seq`.
pub(crate) fn cell_at(plan: Plan, seq: u64) -> usize
    requires { IsSmall plan }
    ensures cell { result ≡ cell_of plan.sizes.capacity seq }
    ensures inside { result + 1 < lane_words plan.sizes.capacity }
{
    CELLS + 2 * (seq % plan.sizes.capacity) as usize
}

/// Lanes of jobs, each from one producer to all workers. Threads share them by reference.
pub struct Lanes {
    pub(crate) table: Table<(), Both, Plan, LanesRule, Global>,
    pub(crate) plan: Plan,
    // The room for the jobs that are left at the end.
    pub(crate) room: VecDeque<(u32, LaneJob)>,
}

impl Model for Lanes {
    ghost use Rattle.std.specs.Prelude.{◌≡◌, ◌*◌, ◌<◌, ◌≤◌, []};
    ghost use Rattle.std.specs.VecDeque.{deque_capacity};
    ghost use Rattle.lanes.specs.Lanes.{LanesId};
    ghost use Rattle.lanes.specs.Layout.{all_words};
    ghost use Rattle.lanes.specs.Inner.Rest.{IsSmall};
    ghost use Rattle.wake_pool.specs.Words.{base};

    ghost Value = { LanesId };

    ghost view = { λ l. record { table = l.table.shared.table_id; plan = l.plan } };

    ghost invariant = { λ l. (l.table.shared.table_id.words ≡ all_words l.plan)
        × (l.table.shared.table_id.slots ≡ 0)
        × (l.table.shared.key ≡ l.plan)
        × IsSmall l.plan
        × (0 < l.plan.sizes.lanes)
        × (l.room.items ≡ [])
        × (l.plan.sizes.lanes * l.plan.sizes.capacity ≤ deque_capacity l.room)
        × (l.plan.base ≡ base l.plan.sleepers) };
}

impl Drop for Lanes {
    fn drop(self) {
        let Lanes {
            table,
            plan: _,
            room: _,
        } = self;
        drop(table);
    }
}

impl Lanes {
    /// Opens lanes of which nothing was asked, with all their handles. It reserves the memory for
    /// all jobs that can be left at the end.
    pub fn open(alloc: Global, sizes: Sizes) -> Result<(Lanes, Members), AllocError>
        requires some_lane { 0 < sizes.lanes }
        requires some_room { 0 < sizes.capacity }
        requires capacity { sizes.capacity ≤ MAX_CAPACITY }
        requires lanes { sizes.lanes ≤ MAX_LANES }
        requires workers { sizes.workers ≤ MAX_WORKERS }
        ensures sizes { IfOk result (λ made. made.0.plan.sizes ≡ sizes) }
        ensures members { IfOk result (λ made. made.1.id ≡ made.0) }
        ensures none_dealt { IfOk result (λ made. (made.1.dealt_lanes ≡ 0)
            × (made.1.dealt_workers ≡ 0)) }
    {
        let plan = Plan {
            base: 0,
            sleepers: 0,
            sizes,
        };
        Lanes::open_plan(alloc, plan)
    }

    /// Opens lanes whose workers may all sleep (`Worker::into_sleeper`), with all their handles.
    pub fn open_with_sleepers(alloc: Global, sizes: Sizes) -> Result<(Lanes, Members), AllocError>
        requires some_lane { 0 < sizes.lanes }
        requires some_room { 0 < sizes.capacity }
        requires capacity { sizes.capacity ≤ MAX_CAPACITY }
        requires lanes { sizes.lanes ≤ MAX_LANES }
        requires workers { sizes.workers ≤ MAX_WORKERS }
        ensures sizes { IfOk result (λ made. made.0.plan.sizes ≡ sizes) }
        ensures sleepers { IfOk result (λ made. made.0.plan.sleepers ≡ sizes.workers) }
        ensures members { IfOk result (λ made. made.1.id ≡ made.0) }
        ensures none_dealt { IfOk result (λ made. (made.1.dealt_lanes ≡ 0)
            × (made.1.dealt_workers ≡ 0)) }
    {
        let plan = Plan {
            base: wake_pool::base(sizes.workers),
            sleepers: sizes.workers,
            sizes,
        };
        Lanes::open_plan(alloc, plan)
    }

    // Opens lanes with these words before them.
    fn open_plan(alloc: Global, plan: Plan) -> Result<(Lanes, Members), AllocError>
        requires some_lane { 0 < plan.sizes.lanes }
        requires small { IsSmall plan }
        requires base { plan.base ≡ base plan.sleepers }
        requires sleepers { plan.sleepers ≤ plan.sizes.workers }
        ensures plan { IfOk result (λ made. made.0.plan ≡ plan) }
        ensures members { IfOk result (λ made. made.1.id ≡ made.0) }
        ensures none_dealt { IfOk result (λ made. (made.1.dealt_lanes ≡ 0)
            × (made.1.dealt_workers ≡ 0)) }
    {
        let lane_words = CELLS + 2 * plan.sizes.capacity as usize;
        let lanes = plan.sizes.lanes as usize;
        let count = plan.base as usize + lanes * lane_words;
        let words = vec![in alloc; 0_u64; count]?;
        let room = VecDeque::with_capacity(alloc, lanes * plan.sizes.capacity as usize)?;
        let (table, seat) = Table::of_words(alloc, words.as_slice(), &plan)?;
        let members = Members {
            seat,
            plan,
            dealt_lanes: 0,
            dealt_workers: 0,
        };
        Ok((Lanes { table, plan, room }, members))
    }

    // Returns the word at this place among those of the lane.
    pub(crate) fn word(&self, lane: u32, place: usize) -> usize
        requires lane { lane < self.now.plan.sizes.lanes }
        requires place { place < lane_words self.now.plan.sizes.capacity }
        ensures word { result ≡ lane_start self.now.plan lane + place }
        ensures inside { result < self.now.table.words }
    {
        word_of(self.plan, lane, place)
    }

    // Returns the place of the first cell of the job with the number `seq`.
    pub(crate) fn cell(&self, seq: u64) -> usize
        ensures cell { result ≡ cell_of self.now.plan.sizes.capacity seq }
        ensures inside { result + 1 < lane_words self.now.plan.sizes.capacity }
    {
        cell_at(self.plan, seq)
    }

    /// Deals out the first lane that is not dealt out yet.
    pub fn deal_lane(&self, members: &mut Members) -> Lane
        requires members { members.old.id ≡ self.now }
        requires more { members.old.dealt_lanes < self.now.plan.sizes.lanes }
        ensures members { members.new.id ≡ self.now }
        ensures id { result.id ≡ self.now }
        ensures fresh { result.known
            ≡ fresh_lane self.now.plan.sizes.capacity members.old.dealt_lanes }
        ensures no_deeds { result.deeds ≡ [] }
        ensures next { result.next ≡ sleepers.word_count self.now.plan.sleepers }
        ensures lanes { members.new.dealt_lanes ≡ members.old.dealt_lanes + 1 }
        ensures workers { members.new.dealt_workers ≡ members.old.dealt_workers }
    {
        let number = members.dealt_lanes;
        let seat = self.table.shared.split_seat::<DealLane>(&mut members.seat);
        members.dealt_lanes += 1;
        Lane {
            seat,
            plan: self.plan,
            number,
            seen: 0,
            next: word_count(self.plan.sleepers),
        }
    }

    /// Deals out the first worker that is not dealt out yet. It takes memory for a word for each
    /// lane.
    pub fn deal_worker(&self, alloc: Global, members: &mut Members) -> Result<Worker, AllocError>
        requires members { members.old.id ≡ self.now }
        requires more { members.old.dealt_workers < self.now.plan.sizes.workers }
        ensures members { members.new.id ≡ self.now }
        ensures id { IfOk result (λ worker. worker.id ≡ self.now) }
        ensures fresh { IfOk result (λ worker. worker.known
            ≡ fresh_worker self.now.plan members.old.dealt_workers) }
        ensures no_deeds { IfOk result (λ worker. worker.deeds ≡ []) }
        ensures workers { IfOk result (λ _. members.new.dealt_workers
            ≡ members.old.dealt_workers + 1) }
        ensures lanes { members.new.dealt_lanes ≡ members.old.dealt_lanes }
        ensures unchanged { OnErr result (members.new ≡ members.old) }
    {
        let tails = vec![in alloc; 0_u64; self.plan.sizes.lanes as usize]?;
        let sleeper = self.seat_sleeper(members, tails);
        Ok(Worker { sleeper })
    }

    /// Returns the sizes of the lanes.
    pub fn sizes(&self) -> Sizes
        ensures { result ≡ self.now.plan.sizes }
    {
        let sizes = self.plan.sizes;
        sizes
    }

    // Deals out the first worker that is not dealt out yet, as one that may sleep. `tails` has a 0
    // for each lane.
    fn seat_sleeper(&self, members: &mut Members, tails: Vec<u64>) -> Sleeper
        requires members { members.old.id ≡ self.now }
        requires more { members.old.dealt_workers < self.now.plan.sizes.workers }
        requires tails { tails.items ≡ replicate self.now.plan.sizes.lanes 0 }
        ensures members { members.new.id ≡ self.now }
        ensures id { result.id ≡ self.now }
        ensures idle { result.phase ≡ Idle }
        ensures fresh { result.known ≡ fresh_worker self.now.plan members.old.dealt_workers }
        ensures no_deeds { result.deeds ≡ [] }
        ensures workers { members.new.dealt_workers ≡ members.old.dealt_workers + 1 }
        ensures lanes { members.new.dealt_lanes ≡ members.old.dealt_lanes }
    {
        let number = members.dealt_workers;
        let seat = self
            .table
            .shared
            .split_seat::<DealWorker>(&mut members.seat);
        members.dealt_workers += 1;
        Sleeper {
            seat,
            plan: self.plan,
            number,
            tails,
        }
    }

    /// Ends closed lanes, once as many lanes and workers have come back as there are, so that these
    /// are all of them. Returns the jobs that no worker took with their lanes, in the order of the
    /// lanes and in that of each lane.
    pub fn into_rest(self, end: LanesEnd) -> VecDeque<(u32, LaneJob)>
        requires end { end.id ≡ self }
        requires lanes { length end.lanes ≡ self.plan.sizes.lanes }
        requires workers { length end.workers ≡ self.plan.sizes.workers }
        ensures { WholeLanes self.plan.sizes end.lanes end.workers result.items end.counts }
    {
        let Lanes {
            table,
            plan,
            room: mut rest,
        } = self;
        let LanesEnd { seat, plan: _ } = end;
        let closed = table.close_with(seat);
        drain(&closed, &mut rest, plan);
        closed.free();
        rest
    }
}
