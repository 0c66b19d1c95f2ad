//! The calls, for tests that look at what they return.
ghost use Rattle.std.specs.Prelude.{◌≡◌, ◌<◌};

use lanes::{Lane, LaneJob, Lanes, Looked, Submitted, Taken, TakenAny, Worker};

pub fn put(lanes: &Lanes, lane: &mut Lane, payload: u64, dim: u32) -> Submitted
    requires { lane.old.id ≡ lanes.now }
    ensures { lane.new.id ≡ lanes.now }
{
    lanes.submit(lane, payload, dim)
}

pub fn take(lanes: &Lanes, worker: &mut Worker, lane: u32) -> Taken
    requires id { worker.old.id ≡ lanes.now }
    requires lane { lane < lanes.now.plan.sizes.lanes }
    ensures { worker.new.id ≡ lanes.now }
{
    lanes.take(worker, lane)
}

pub fn look(lanes: &Lanes, worker: &mut Worker, lane: u32) -> Looked
    requires id { worker.old.id ≡ lanes.now }
    requires lane { lane < lanes.now.plan.sizes.lanes }
    ensures { worker.new.id ≡ lanes.now }
{
    lanes.look(worker, lane)
}

pub fn take_any(lanes: &Lanes, worker: &mut Worker, from: u32) -> TakenAny
    requires id { worker.old.id ≡ lanes.now }
    requires from { from < lanes.now.plan.sizes.lanes }
    ensures { worker.new.id ≡ lanes.now }
{
    lanes.take_any(worker, from)
}

pub fn job(seq: u64, payload: u64, dim: u32) -> LaneJob {
    LaneJob { seq, payload, dim }
}
