//! Lanes and workers leave their places, for handles of their own.
ghost use Rattle.std.specs.Prelude.{◌≡◌, ◌≢◌, Some, IfOk, IfErr, OnErr};
ghost use Rattle.cubejobs_lanes.specs.Deals.{AsksLane, AsksWorker, HasDealtLane, HasDealtWorker, IsPlaceCode, RefusesLane, RefusesWorker};

use crate::codes::{DONE, NONE_LEFT, OUT_OF_MEMORY};
use crate::owner::Owner;
use crate::places::{first_full, take_from};
use crate::sides::{LaneSide, WorkerSide};
use crate::state::State;
use std::alloc::Global;
use std::sync::Arc;

// Makes a box for a content, without it.
pub(crate) fn room(alloc: Global) -> Option<Box<State>> {
    match Box::new(alloc, State::Away) {
        Ok(room) => Some(room),
        Err(failed) => {
            drop(failed);
            None
        }
    }
}

// Puts a content into a box.
pub(crate) fn filled(room: Box<State>, content: State) -> Box<State>
    ensures { result.value ≡ content }
{
    let mut room = room;
    drop(Box::replace(&mut room, content));
    room
}

impl Owner {
    // Collects what has come back, and takes the first lane that is in its place.
    pub(crate) fn ask_lane(&mut self, alloc: Global) -> Result<Box<State>, u32>
        ensures dealt { IfOk result (λ content. AsksLane DONE self.old self.new
            (Some content.value)) }
        ensures refused { IfErr result (λ code. RefusesLane code self.old self.new) }
        ensures not_done { IfErr result (λ code. code ≢ DONE) }
    {
        self.collect();
        match self.deal_lane(alloc) {
            Ok(content) => Ok(content),
            Err(code) => Err(code),
        }
    }

    // Collects what has come back, and takes the first worker that is in its place.
    pub(crate) fn ask_worker(&mut self, alloc: Global) -> Result<Box<State>, u32>
        ensures dealt { IfOk result (λ content. AsksWorker DONE self.old self.new
            (Some content.value)) }
        ensures refused { IfErr result (λ code. RefusesWorker code self.old self.new) }
        ensures not_done { IfErr result (λ code. code ≢ DONE) }
    {
        self.collect();
        match self.deal_worker(alloc) {
            Ok(content) => Ok(content),
            Err(code) => Err(code),
        }
    }

    // Takes the first lane that is in its place, with its share of the lanes.
    fn deal_lane(&mut self, alloc: Global) -> Result<Box<State>, u32>
        ensures dealt { IfOk result (λ content. HasDealtLane self.old self.new
            (Some content.value)) }
        ensures refused { IfErr result (λ code. IsPlaceCode code self.old.lanes.items) }
        ensures not_done { IfErr result (λ code. code ≢ DONE) }
        ensures unchanged { OnErr result (self.new ≡ self.old) }
    {
        let Some(place) = first_full(&self.lanes) else {
            return Err(NONE_LEFT);
        };
        let Some(room) = room(alloc) else {
            return Err(OUT_OF_MEMORY);
        };
        let Ok(common) = Arc::try_clone(&self.common) else {
            return Err(OUT_OF_MEMORY);
        };
        let Some(kept) = take_from(&mut self.lanes, place) else {
            unreachable!()
        };
        let lane = kept.into_lane();
        Ok(filled(room, State::Lane(LaneSide { common, lane })))
    }

    // Takes the first worker that is in its place, with its share of the lanes.
    fn deal_worker(&mut self, alloc: Global) -> Result<Box<State>, u32>
        ensures dealt { IfOk result (λ content. HasDealtWorker self.old self.new
            (Some content.value)) }
        ensures refused { IfErr result (λ code. IsPlaceCode code self.old.workers.items) }
        ensures not_done { IfErr result (λ code. code ≢ DONE) }
        ensures unchanged { OnErr result (self.new ≡ self.old) }
    {
        let Some(place) = first_full(&self.workers) else {
            return Err(NONE_LEFT);
        };
        let Some(room) = room(alloc) else {
            return Err(OUT_OF_MEMORY);
        };
        let Ok(common) = Arc::try_clone(&self.common) else {
            return Err(OUT_OF_MEMORY);
        };
        let Some(kept) = take_from(&mut self.workers, place) else {
            unreachable!()
        };
        let worker = kept.into_worker();
        Ok(filled(room, State::Worker(WorkerSide { common, worker })))
    }
}
