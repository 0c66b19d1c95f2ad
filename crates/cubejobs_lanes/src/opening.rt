//! How lanes are opened.
ghost use Rattle.std.specs.Prelude.{◌≡◌, ◌<◌, ◌≤◌, ◌+◌, IfOk, length};
ghost use Rattle.lanes.specs.declared.sizes.TheConstants.{MAX_CAPACITY, MAX_LANES, MAX_WORKERS};
ghost use Rattle.cubejobs_lanes.specs.Kept.{HasFreshLanes, HasFreshWorkers};
ghost use Rattle.cubejobs_lanes.specs.Owners.{IsNew};

use crate::common::Common;
use crate::kept::{KeptLane, KeptWorker};
use crate::owner::Owner;
use crate::returns::named_places;
use crate::stage::Stage;
use lanes::{Lanes, Members, Sizes};
use std::alloc::{AllocError, Global};
use std::sync::Arc;

// Deals out all lanes of new ones.
fn deal_lanes(
    alloc: Global,
    lanes: &Lanes,
    members: &mut Members,
    count: u32,
) -> Result<Vec<Option<KeptLane>>, AllocError>
    requires members { members.old.id ≡ lanes.now }
    requires none { members.old.dealt_lanes ≡ 0 }
    requires count { count ≡ lanes.now.plan.sizes.lanes }
    ensures id { members.new.id ≡ lanes.now }
    ensures dealt { IfOk result (λ _. members.new.dealt_lanes ≡ count) }
    ensures workers { members.new.dealt_workers ≡ members.old.dealt_workers }
    ensures fresh { IfOk result (λ places. HasFreshLanes lanes.now count places.items) }
    ensures length { IfOk result (λ places. length places.items ≡ count) }
{
    let mut places = Vec::with_capacity(alloc, count as usize)?;
    for _ in 0..count {
        let lane = lanes.deal_lane(members);
        places.push_reserved(Some(KeptLane { lane }));
    }
    Ok(places)
}

// Deals out all workers of new lanes.
fn deal_workers(
    alloc: Global,
    lanes: &Lanes,
    members: &mut Members,
    count: u32,
) -> Result<Vec<Option<KeptWorker>>, AllocError>
    requires members { members.old.id ≡ lanes.now }
    requires none { members.old.dealt_workers ≡ 0 }
    requires count { count ≡ lanes.now.plan.sizes.workers }
    ensures id { members.new.id ≡ lanes.now }
    ensures dealt { IfOk result (λ _. members.new.dealt_workers ≡ count) }
    ensures lanes { members.new.dealt_lanes ≡ members.old.dealt_lanes }
    ensures fresh { IfOk result (λ places. HasFreshWorkers lanes.now count places.items) }
    ensures length { IfOk result (λ places. length places.items ≡ count) }
{
    let mut places = Vec::with_capacity(alloc, count as usize)?;
    for _ in 0..count {
        let worker = lanes.deal_worker(alloc, members)?;
        places.push_reserved(Some(KeptWorker { worker }));
    }
    Ok(places)
}

impl Owner {
    // Opens lanes of which nothing was asked. Each lane and each worker is in its place.
    pub(crate) fn open(alloc: Global, sizes: Sizes) -> Result<Owner, AllocError>
        requires some_lane { 0 < sizes.lanes }
        requires some_room { 0 < sizes.capacity }
        requires capacity { sizes.capacity ≤ MAX_CAPACITY }
        requires lanes { sizes.lanes ≤ MAX_LANES }
        requires workers { sizes.workers ≤ MAX_WORKERS }
        ensures new { IfOk result (IsNew sizes) }
    {
        let (lanes, mut members) = Lanes::open_with_sleepers(alloc, sizes)?;
        let kept_lanes = deal_lanes(alloc, &lanes, &mut members, sizes.lanes)?;
        let kept_workers = deal_workers(alloc, &lanes, &mut members, sizes.workers)?;
        let lane_places = named_places(alloc, &lanes, sizes.lanes)?;
        let worker_places = named_places(alloc, &lanes, sizes.workers)?;
        let common = Common {
            lanes,
            sizes,
            lane_places,
            worker_places,
        };
        match Arc::new(alloc, common) {
            Ok(common) => Ok(Owner {
                common,
                stage: Stage::Open(members),
                lanes: kept_lanes,
                workers: kept_workers,
            }),
            Err(failed) => {
                drop(failed);
                Err(AllocError)
            }
        }
    }
}
