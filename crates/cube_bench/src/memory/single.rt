//! A dispatcher of one lane and one worker, whose members are out of their lists.
ghost use Rattle.std.specs.Prelude.{◌≡◌, ◌≤◌, [], IfOk};
ghost use Rattle.std.specs.Vec.{vec_capacity};
ghost use Rattle.dispatcher.specs.Members.{IsEndOf, IsNoteOf};

use dispatcher::{
    CloseNote, Closer, Finished, Opened, Plain, Shop, ShopRefused, Worker, WorkerEnd,
};
use floors::Floor;
use job_queue::JobLine;
use std::alloc::Global;
use std::marker::Model;
use std::sync::Wait;
use tests_kit::{only_lane, only_worker, sole};

/// A new dispatcher with its lane, its worker and its closer, and room for what its end needs.
pub(crate) struct Single<L: JobLine, F: Floor> {
    pub shop: Shop<L, F>,
    pub lane: L::Lane,
    pub lanes: Vec<L::Lane>,
    pub worker: Worker<L, F>,
    pub ends: Vec<WorkerEnd<L, F>>,
    pub closer: Closer<L, F>,
}

impl<L: JobLine, F: Floor> Model for Single<L, F> {
    ghost use Rattle.std.specs.Prelude.{◌≡◌, ◌≤◌, []};
    ghost use Rattle.std.specs.Vec.{vec_capacity};
    ghost use Rattle.dispatcher.specs.Shop.{ShopId};
    ghost use Rattle.dispatcher.specs.Members.{IsWorkerOf, IsCloserOf};

    ghost Value = { ShopId };

    ghost view = { λ s. s.shop };

    ghost invariant = { λ s. L.is_lane s.shop.line s.lane × ((L.lane_record s.lane).number ≡ 0)
        × IsWorkerOf s.shop s.worker
        × (s.shop.line.sizes.lanes ≡ 1) × (s.shop.line.sizes.passes ≡ 1)
        × IsCloserOf L.JobLine s.shop s.closer
        × (s.lanes.items ≡ []) × (1 ≤ vec_capacity s.lanes)
        × (s.ends.items ≡ []) × (1 ≤ vec_capacity s.ends) };
}

impl<L: JobLine, F: Floor> Single<L, F> {
    /// Opens a dispatcher of this kind.
    pub fn open(alloc: Global, n: u32, capacity: usize) -> Result<Self, ShopRefused>
    where
        F::Machine: Drop,
        ensures machine { IfOk result (λ s. s.line.sizes.machine ≡ n) }
    {
        let Ok(ends) = Vec::with_capacity(alloc, 1) else {
            return Err(ShopRefused::OutOfMemory);
        };
        let opened = match Shop::open(alloc, n, 1, 1, capacity) {
            Ok(opened) => opened,
            Err(refused) => {
                ends.destroy_empty();
                return Err(refused);
            }
        };
        let Opened {
            shop,
            mut lanes,
            mut workers,
            closer,
        } = opened;
        let lane = only_lane(&shop, &mut lanes);
        let worker = only_worker(&shop, &mut workers);
        workers.destroy_empty();
        Ok(Single {
            shop,
            lane,
            lanes,
            worker,
            ends,
            closer,
        })
    }
}

/// Finishes such a dispatcher, from its lane and its worker with the emptied lists of each.
pub(crate) fn finish<R: Wait, L: JobLine, F: Floor>(
    rt: &R,
    shop: Shop<L, F>,
    lane: (L::Lane, Vec<L::Lane>),
    end: (WorkerEnd<L, F>, Vec<WorkerEnd<L, F>>),
    note: CloseNote<L, F>,
) -> Finished<F::Machine>
    requires lane { L.is_lane shop.line lane.0 }
    requires one_lane { shop.line.sizes.lanes ≡ 1 }
    requires lane_room { (lane.1.items ≡ []) × (1 ≤ vec_capacity lane.1) }
    requires worker { IsEndOf shop end.0 }
    requires one_worker { shop.line.sizes.passes ≡ 1 }
    requires end_room { (end.1.items ≡ []) × (1 ≤ vec_capacity end.1) }
    requires note { IsNoteOf L.JobLine shop note }
{
    let (lane, lanes) = lane;
    let (end, ends) = end;
    let lanes = sole(lanes, lane);
    let ends = sole(ends, end);
    shop.finish(rt, &Plain, lanes, ends, note)
}
