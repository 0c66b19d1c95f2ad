// A dispatcher that is open for a run, with memory reserved for all that comes out of it.
ghost use Rattle.std.specs.Prelude.{◌≡◌, ◌≢◌, ℕ, ◌^◌, ◌<◌, ◌≤◌, [], None, Some, IfOk, IfErr, map, length, slice_index_or};
ghost use Rattle.std.specs.List.{All};
ghost use Rattle.std.specs.Vec.{vec_capacity};
ghost use Rattle.job_queue.specs.Record.{fresh_lanes};
ghost use Rattle.job_queue.specs.Line.{IsFor};
ghost use Rattle.dispatcher.specs.Opening.{refusal_of};
ghost use Rattle.dispatcher.specs.Shop.{HasSizes};
ghost use Rattle.dispatcher.specs.Members.{IsWorkerOf, IsCloserOf};

use crate::running::LaneEnd;
use dispatcher::{Opened, Shop, ShopRefused, ShopSizes, Stop, WorkerEnd, refusal};
use floors::Floor;
use job_queue::JobLine;
use job_types::Job;
use std::alloc::{AllocError, Global};
use std::collections::VecDeque;

// Room for what a run returns about its lanes and its workers.
#[derive(Drop)]
pub(crate) struct EndRoom {
    pub lanes: Vec<LaneEnd>,
    pub stops: Vec<Stop>,
}

impl EndRoom {
    fn new(alloc: Global, workers: usize, lanes: usize) -> Result<Self, AllocError>
        ensures lanes { IfOk result (λ room.
            (room.lanes.items ≡ []) × (lanes ≤ vec_capacity room.lanes)) }
        ensures stops { IfOk result (λ room.
            (room.stops.items ≡ []) × (workers ≤ vec_capacity room.stops)) }
    {
        let lane_ends = Vec::with_capacity(alloc, lanes)?;
        let stops = Vec::with_capacity(alloc, workers)?;
        Ok(EndRoom {
            lanes: lane_ends,
            stops,
        })
    }
}

// Room for the members of a run when they come out of their slots.
pub(crate) struct MemberRoom<L: JobLine, F: Floor> {
    pub ends: Vec<WorkerEnd<L, F>>,
    pub fed: Vec<(L::Lane, LaneEnd)>,
    pub returned: EndRoom,
}

impl<L: JobLine, F: Floor> MemberRoom<L, F> {
    fn new(alloc: Global, workers: usize, lanes: usize) -> Result<Self, AllocError>
        ensures ends { IfOk result (λ room.
            (room.ends.items ≡ []) × (workers ≤ vec_capacity room.ends)) }
        ensures fed { IfOk result (λ room.
            (room.fed.items ≡ []) × (lanes ≤ vec_capacity room.fed)) }
        ensures lanes { IfOk result (λ room.
            (room.returned.lanes.items ≡ []) × (lanes ≤ vec_capacity room.returned.lanes)) }
        ensures stops { IfOk result (λ room.
            (room.returned.stops.items ≡ []) × (workers ≤ vec_capacity room.returned.stops)) }
    {
        let returned = EndRoom::new(alloc, workers, lanes)?;
        let ends = Vec::with_capacity(alloc, workers)?;
        let Ok(fed) = Vec::with_capacity(alloc, lanes) else {
            ends.destroy_empty();
            return Err(AllocError);
        };
        Ok(MemberRoom {
            ends,
            fed,
            returned,
        })
    }

    fn let_go(self)
        requires { (self.ends.items ≡ []) × (self.fed.items ≡ []) }
    {
        let MemberRoom {
            ends,
            fed,
            returned: _,
        } = self;
        ends.destroy_empty();
        fed.destroy_empty();
    }
}

// An open dispatcher, with all of its members, the jobs of its lanes, and room for what comes out.
pub(crate) struct Ready<L: JobLine, F: Floor> {
    pub opened: Opened<L, F>,
    pub jobs: Vec<VecDeque<Job>>,
    pub room: MemberRoom<L, F>,
    pub ghost machine: { opened.shop.line.sizes.machine ≡ opened.shop.floor.dim },
    pub ghost all_lanes: { opened.shop.line.sizes.lanes ≡ length jobs.items },
    pub ghost made_for: { (k : ℕ) → k < length jobs.items →
        All (IsFor opened.shop.line.sizes.machine k)
        (slice_index_or (map (λ js. js.items) jobs.items) k []) },
    pub ghost fresh_lanes: { map L.lane_record opened.lanes.items
        ≡ fresh_lanes (length jobs.items) },
    pub ghost all_workers: { length opened.workers.items ≡ opened.shop.line.sizes.passes },
    pub ghost ends: { (room.ends.items ≡ [])
        × (opened.shop.line.sizes.passes ≤ vec_capacity room.ends) },
    pub ghost fed: { (room.fed.items ≡ [])
        × (opened.shop.line.sizes.lanes ≤ vec_capacity room.fed) },
    pub ghost lane_ends: { (room.returned.lanes.items ≡ [])
        × (opened.shop.line.sizes.lanes ≤ vec_capacity room.returned.lanes) },
    pub ghost stops: { (room.returned.stops.items ≡ [])
        × (opened.shop.line.sizes.passes ≤ vec_capacity room.returned.stops) },
}

// Opens a dispatcher with a lane for each list of jobs. An error returns the jobs.
pub(crate) fn make_ready<L: JobLine, F: Floor>(
    alloc: Global,
    sizes: ShopSizes,
    jobs: Vec<VecDeque<Job>>,
) -> Result<Ready<L, F>, (ShopRefused, Vec<VecDeque<Job>>)>
where
    F::Machine: Drop,
    requires lanes { length jobs.items < 2 ^ 32 }
    requires made_for { (k : ℕ) → k < length jobs.items →
        All (IsFor sizes.dim k) (slice_index_or (map (λ js. js.items) jobs.items) k []) }
    ensures jobs { IfOk result (λ ready. ready.jobs ≡ jobs) }
    ensures sizes { IfOk result (λ ready.
        HasSizes sizes.dim (length jobs.items) sizes.dispatchers sizes.capacity
        ready.opened.shop) }
    ensures lanes { IfOk result (λ ready.
        All (L.is_lane ready.opened.shop.line) ready.opened.lanes.items) }
    ensures workers { IfOk result (λ ready.
        All (IsWorkerOf ready.opened.shop) ready.opened.workers.items) }
    ensures closer { IfOk result (λ ready.
        IsCloserOf L.JobLine ready.opened.shop ready.opened.closer) }
    ensures accepted { IfOk result (λ ready.
        refusal_of sizes.dim (length jobs.items) sizes.dispatchers sizes.capacity ≡ None) }
    ensures refused { IfErr result (λ r. r.0 ≢ ShopRefused.OutOfMemory →
        refusal_of sizes.dim (length jobs.items) sizes.dispatchers sizes.capacity ≡ Some r.0) }
    ensures memory_last { IfErr result (λ r. r.0 ≡ ShopRefused.OutOfMemory →
        refusal_of sizes.dim (length jobs.items) sizes.dispatchers sizes.capacity ≡ None) }
    ensures gives_back { IfErr result (λ r. r.1.items ≡ jobs.items) }
{
    let lanes = jobs.len() as u32;
    let ShopSizes {
        dim,
        dispatchers,
        capacity,
    } = sizes;
    if let Some(refused) = refusal(dim, lanes, dispatchers, capacity) {
        return Err((refused, jobs));
    }
    let Ok(room) = MemberRoom::new(alloc, dispatchers as usize, jobs.len()) else {
        return Err((ShopRefused::OutOfMemory, jobs));
    };
    match Shop::open(alloc, dim, lanes, dispatchers, capacity) {
        Ok(opened) => Ok(Ready { opened, jobs, room }),
        Err(refused) => {
            room.let_go();
            Err((refused, jobs))
        }
    }
}
