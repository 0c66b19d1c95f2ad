//! A producer and a worker, each with its share of the lanes.
ghost use Rattle.std.specs.Prelude.{◌≡◌, ◌<◌, ◌≤◌, ◌+◌, IfErr, IfOk};
ghost use Rattle.std.specs.Arc.{arc_value};
ghost use Rattle.lanes.specs.Lanes.{call_steps, ChangesOnly, Looks, SubmitKeeps, Submits, TakeAnyKeeps, Takes, TakesAny};
ghost use Rattle.lanes.specs.Record.{take_of};

use crate::common::Common;
use crate::kept::{KeptLane, KeptWorker};
use crate::returns::leave;
use lanes::{Lane, Looked, Submitted, Taken, TakenAny, Worker};
use std::sync::Arc;

/// The right to submit jobs to one lane.
pub(crate) struct LaneSide {
    pub(crate) common: Arc<Common>,
    pub(crate) lane: Lane,
    ghost of_lanes: { lane.id ≡ (arc_value common).lanes },
    ghost inside: { lane.known.number < (arc_value common).lanes.plan.sizes.lanes },
}

/// The right to take jobs from every lane.
pub(crate) struct WorkerSide {
    pub(crate) common: Arc<Common>,
    pub(crate) worker: Worker,
    ghost of_lanes: { worker.id ≡ (arc_value common).lanes },
    ghost inside: { worker.known.number < (arc_value common).lanes.plan.sizes.workers },
}

impl LaneSide {
    // Leaves the lane to the owner, and drops the share of the lanes. Gives the side back if
    // another call is at the lane's place.
    pub(crate) fn leave(self) -> Result<(), LaneSide>
        ensures { IfErr result (λ side. side ≡ self) }
    {
        let LaneSide { common, lane } = self;
        let place = lane.number() as usize;
        match leave(&common.lane_places[place], KeptLane { lane }) {
            Ok(()) => Ok(()),
            Err(kept) => {
                let lane = kept.into_lane();
                Err(LaneSide { common, lane })
            }
        }
    }

    // Returns the lane, and drops the share of the lanes.
    fn into_lane(self) -> Lane
        ensures { result ≡ self.lane }
    {
        let LaneSide { common: _, lane } = self;
        lane
    }

    // Submits a job.
    #[inline(always)]
    pub(crate) fn submit(&mut self, payload: u64, dim: u32) -> Submitted
        ensures common { arc_value self.new.common ≡ arc_value self.old.common }
        ensures known { Submits payload dim self.old.lane.known result self.new.lane.known }
        ensures keeps { SubmitKeeps self.old.lane.known self.new.lane.known }
        ensures deeds { self.new.lane.deeds ≡ self.old.lane.deeds }
    {
        self.common.lanes.submit(&mut self.lane, payload, dim)
    }
}

impl WorkerSide {
    // Returns the share of the lanes, and the worker.
    pub(crate) fn into_parts(self) -> (Arc<Common>, Worker)
        ensures common { result.0 ≡ self.common }
        ensures worker { result.1 ≡ self.worker }
        ensures of_lanes { result.1.id ≡ (arc_value result.0).lanes }
        ensures inside { result.1.known.number < (arc_value result.0).lanes.plan.sizes.workers }
    {
        let WorkerSide { common, worker } = self;
        (common, worker)
    }

    // Returns the worker's number.
    pub(crate) fn number(&self) -> u32
        ensures { result ≡ self.now.worker.known.number }
    {
        self.worker.number()
    }

    // Leaves the worker to the owner, and drops the share of the lanes. Gives the side back if
    // another call is at the worker's place.
    pub(crate) fn leave(self) -> Result<(), WorkerSide>
        ensures { IfErr result (λ side. side ≡ self) }
    {
        let WorkerSide { common, worker } = self;
        let place = worker.number() as usize;
        match leave(&common.worker_places[place], KeptWorker { worker }) {
            Ok(()) => Ok(()),
            Err(kept) => {
                let worker = kept.into_worker();
                Err(WorkerSide { common, worker })
            }
        }
    }

    // Returns the worker, and drops the share of the lanes.
    fn into_worker(self) -> Worker
        ensures { result ≡ self.worker }
    {
        let WorkerSide { common: _, worker } = self;
        worker
    }

    // Returns the number of lanes.
    #[inline(always)]
    pub(crate) fn lane_count(&self) -> u32
        ensures { result ≡ (arc_value self.now.common).lanes.plan.sizes.lanes }
    {
        self.common.sizes.lanes
    }

    // Takes a job from a lane.
    #[inline(always)]
    pub(crate) fn take(&mut self, lane: u32) -> Taken
        requires lane { lane < (arc_value self.old.common).lanes.plan.sizes.lanes }
        ensures common { arc_value self.new.common ≡ arc_value self.old.common }
        ensures deeds { self.new.worker.deeds ≡ self.old.worker.deeds }
        ensures only { ChangesOnly lane self.old.worker.known self.new.worker.known }
        ensures takes { Takes (take_of lane self.old.worker.known) result
            (take_of lane self.new.worker.known) }
        ensures steps { (take_of lane self.new.worker.known).steps
            ≤ (take_of lane self.old.worker.known).steps + call_steps }
    {
        self.common.lanes.take(&mut self.worker, lane)
    }

    // Takes a job from the first lane that has one, from a lane on.
    #[inline(always)]
    pub(crate) fn take_any(&mut self, from: u32) -> TakenAny
        requires from { from < (arc_value self.old.common).lanes.plan.sizes.lanes }
        ensures common { arc_value self.new.common ≡ arc_value self.old.common }
        ensures deeds { self.new.worker.deeds ≡ self.old.worker.deeds }
        ensures takes { TakesAny (arc_value self.old.common).lanes.plan.sizes.lanes from
            self.old.worker.known result self.new.worker.known }
        ensures keeps { TakeAnyKeeps (arc_value self.old.common).lanes.plan.sizes.lanes
            self.old.worker.known self.new.worker.known }
    {
        self.common.lanes.take_any(&mut self.worker, from)
    }

    // Looks for a job in a lane, without taking it.
    #[inline(always)]
    pub(crate) fn look(&mut self, lane: u32) -> Looked
        requires lane { lane < (arc_value self.old.common).lanes.plan.sizes.lanes }
        ensures common { arc_value self.new.common ≡ arc_value self.old.common }
        ensures deeds { self.new.worker.deeds ≡ self.old.worker.deeds }
        ensures only { ChangesOnly lane self.old.worker.known self.new.worker.known }
        ensures looks { Looks (take_of lane self.old.worker.known) result
            (take_of lane self.new.worker.known) }
    {
        self.common.lanes.look(&mut self.worker, lane)
    }
}

impl Drop for LaneSide {
    fn drop(self) {
        self.into_lane().abandon();
    }
}

impl Drop for WorkerSide {
    fn drop(self) {
        self.into_worker().abandon();
    }
}
