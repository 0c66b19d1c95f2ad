//! The members of a new dispatcher of one lane and one worker, taken out of their lists.
ghost use Rattle.std.specs.Prelude.{◌≡◌, ◌≤◌, [], map};
ghost use Rattle.std.specs.List.{All};
ghost use Rattle.std.specs.Vec.{vec_capacity};
ghost use Rattle.job_queue.specs.Record.{fresh_lanes, fresh_passes};
ghost use Rattle.dispatcher.specs.Members.{IsWorkerOf, worker_record};

use crate::members::only;
use dispatcher::{Shop, Worker};
use floors::Floor;
use job_queue::JobLine;

/// Takes the only lane of a new dispatcher out of its list.
pub fn only_lane<L: JobLine, F: Floor>(shop: &Shop<L, F>, lanes: &mut Vec<L::Lane>) -> L::Lane
    requires lanes { All (L.is_lane shop.now.line) lanes.old.items }
    requires fresh { map L.lane_record lanes.old.items ≡ fresh_lanes 1 }
    ensures lane { L.is_lane shop.now.line result }
    ensures number { (L.lane_record result).number ≡ 0 }
    ensures room { (lanes.new.items ≡ []) × (1 ≤ vec_capacity lanes.new) }
{
    let _shop = shop;
    only(lanes)
}

/// Takes the only worker of a new dispatcher out of its list.
pub fn only_worker<L: JobLine, F: Floor>(
    shop: &Shop<L, F>,
    workers: &mut Vec<Worker<L, F>>,
) -> Worker<L, F>
    requires workers { All (IsWorkerOf shop.now) workers.old.items }
    requires fresh { map worker_record workers.old.items ≡ fresh_passes 1 }
    ensures worker { IsWorkerOf shop.now result }
    ensures none { workers.new.items ≡ [] }
{
    let _shop = shop;
    only(workers)
}
