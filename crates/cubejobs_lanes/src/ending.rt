//! How lanes end.
ghost use Rattle.std.specs.Prelude.{◌≡◌, ◌++◌, Some, IfErr, IfOk, length};
ghost use Rattle.std.specs.List.{All};
ghost use Rattle.cubejobs_lanes.specs.Ending.{kept_lanes, kept_workers, IsLaneIn, IsLeftOf, IsWorkerIn};
ghost use Rattle.cubejobs_lanes.specs.Finish.{AreFull, AllAreBack, HasEnded, IsFinishCode, TriesToFinish};
ghost use Rattle.cubejobs_lanes.specs.Stages.{IsClosed, IsStageOf};

use crate::answers::FinishAnswer;
use crate::codes::{DONE, LANE_OUT, NOT_CLOSED, STILL_SHARED, WORKER_OUT};
use crate::common::Common;
use crate::kept::{KeptLane, KeptWorker};
use crate::left::Left;
use crate::owner::Owner;
use crate::places::first_empty;
use crate::stage::Stage;
use crate::state::State;
use lanes::{Lanes, LanesEnd};
use std::collections::VecDeque;
use std::sync::Arc;

// Takes all lanes back, the first one first.
fn gather_lanes(lanes: &Lanes, end: &mut LanesEnd, places: Vec<Option<KeptLane>>)
    requires end { end.old.id ≡ lanes.now }
    requires lanes { All (IsLaneIn lanes.now) places.items }
    ensures id { end.new.id ≡ lanes.now }
    ensures lanes { end.new.lanes ≡ end.old.lanes ++ kept_lanes places.items }
    ensures workers { end.new.workers ≡ end.old.workers }
    ensures counts { end.new.counts ≡ end.old.counts }
{
    let mut places = VecDeque::from_vec(places);
    while let Some(place) = places.pop_front() {
        let Some(kept) = place else { unreachable!() };
        lanes.gather_lane(end, kept.into_lane());
    }
}

// Takes all workers back, the first one first.
fn gather_workers(lanes: &Lanes, end: &mut LanesEnd, places: Vec<Option<KeptWorker>>)
    requires end { end.old.id ≡ lanes.now }
    requires workers { All (IsWorkerIn lanes.now) places.items }
    ensures id { end.new.id ≡ lanes.now }
    ensures workers { end.new.workers ≡ end.old.workers ++ kept_workers places.items }
    ensures lanes { end.new.lanes ≡ end.old.lanes }
    ensures counts { end.new.counts ≡ end.old.counts }
{
    let mut places = VecDeque::from_vec(places);
    while let Some(place) = places.pop_front() {
        let Some(kept) = place else { unreachable!() };
        lanes.gather_worker(end, kept.into_worker());
    }
}

impl Owner {
    // Collects what has come back, and ends the lanes if it can. Returns the content of their
    // handle, and the answer.
    pub(crate) fn finish(self) -> (State, FinishAnswer)
        ensures { TriesToFinish result.1 self (Some result.0) }
    {
        let mut owner = self;
        owner.collect();
        let answer = owner.finish_code();
        if answer.code != DONE {
            return (State::Owner(owner), answer);
        }
        match owner.into_left() {
            Ok(left) => (State::Left(left), answer),
            Err(owner) => (State::Owner(owner), FinishAnswer::of(STILL_SHARED)),
        }
    }

    // Returns why the lanes cannot end, with the first lane or worker that is out, or `DONE`.
    fn finish_code(&self) -> FinishAnswer
        ensures code { IsFinishCode result self.now }
        ensures closed { result.code ≡ DONE → IsClosed self.now.stage }
        ensures back { result.code ≡ DONE → AllAreBack self.now }
    {
        if let Stage::Open(_) = &self.stage {
            return FinishAnswer::of(NOT_CLOSED);
        }
        if let Some(place) = first_empty(&self.lanes) {
            return FinishAnswer {
                code: LANE_OUT,
                number: place as u32,
            };
        }
        if let Some(place) = first_empty(&self.workers) {
            return FinishAnswer {
                code: WORKER_OUT,
                number: place as u32,
            };
        }
        FinishAnswer::of(DONE)
    }

    // Ends the lanes, and returns the jobs that are left, unless another handle shares the lanes.
    fn into_left(self) -> Result<Left, Owner>
        requires closed { IsClosed self.stage }
        requires back { AllAreBack self }
        ensures ended { IfOk result (HasEnded self) }
        ensures same { IfErr result (λ owner. owner ≡ self) }
    {
        let Owner {
            common,
            stage,
            lanes,
            workers,
        } = self;
        match Arc::try_unwrap(common) {
            Err(common) => Err(Owner {
                common,
                stage,
                lanes,
                workers,
            }),
            Ok(common) => Ok(left_of(common, stage, lanes, workers)),
        }
    }
}

// Ends the lanes, and returns the jobs that are left.
fn left_of(
    common: Common,
    stage: Stage,
    lanes: Vec<Option<KeptLane>>,
    workers: Vec<Option<KeptWorker>>,
) -> Left
    requires stage { IsStageOf common.lanes stage }
    requires closed { IsClosed stage }
    requires full_lanes { AreFull lanes.items }
    requires lanes { All (IsLaneIn common.lanes) lanes.items }
    requires all_lanes { length lanes.items ≡ common.lanes.plan.sizes.lanes }
    requires full_workers { AreFull workers.items }
    requires workers { All (IsWorkerIn common.lanes) workers.items }
    requires all_workers { length workers.items ≡ common.lanes.plan.sizes.workers }
    ensures { IsLeftOf common.lanes stage lanes.items workers.items result }
{
    let Common {
        lanes: table,
        sizes: _,
        lane_places: _,
        worker_places: _,
    } = common;
    let Stage::Closed(kept) = stage else {
        unreachable!()
    };
    let mut end = kept.into_note().into_end();
    gather_lanes(&table, &mut end, lanes);
    gather_workers(&table, &mut end, workers);
    Left {
        jobs: table.into_rest(end),
    }
}
