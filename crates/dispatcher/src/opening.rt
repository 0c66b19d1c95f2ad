//! Opening a dispatcher.
ghost use Rattle.std.specs.Prelude.{◌≡◌, ◌≢◌, ◌≤◌, [], Some, None, Err, IfOk, IfErr, map, length};
ghost use Rattle.std.specs.List.{All};
ghost use Rattle.std.specs.Vec.{vec_capacity};
ghost use Rattle.job_queue.specs.Record.{fresh_lanes, fresh_passes};
ghost use Rattle.dispatcher.specs.Opening.{refusal_of};
ghost use Rattle.dispatcher.specs.Shop.{HasSizes};
ghost use Rattle.dispatcher.specs.Members.{IsWorkerOf, IsCloserOf, worker_record};
ghost use Rattle.dispatcher.specs.InnerShop.{IsOneMachine, shop_of};

use crate::closing::Closer;
use crate::room::Room;
use crate::shop::Shop;
use crate::worker::Worker;
use cube_shape::{MAX_CAPACITY, MAX_DIM, MAX_DISPATCHERS, MAX_LANES};
use floors::Floor;
use job_queue::{JobLine, Sizes};
use std::alloc::{AllocError, Global};
use std::collections::VecDeque;
use thiserror::Error;

/// The reason why a dispatcher was not opened.
#[derive(Clone, Copy, Debug, PartialEq, Eq, Hash, Error)]
pub enum ShopRefused {
    /// The dimension is above `MAX_DIM`.
    #[error("the dimension is above the largest one")]
    BadDimension,
    /// The number of lanes is 0, or above `MAX_LANES`.
    #[error("the number of lanes is not within its limits")]
    BadLanes,
    /// The number of workers is 0, or above `MAX_DISPATCHERS`.
    #[error("the number of workers is not within its limits")]
    BadDispatchers,
    /// The capacity of the queue is 0, or above `MAX_CAPACITY`.
    #[error("the capacity is not within its limits")]
    BadCapacity,
    /// Memory ran out.
    #[error("out of memory")]
    OutOfMemory,
}

/// The sizes of a dispatcher that runs on threads. It has a lane for each list of jobs.
#[derive(Clone, Copy, Debug, PartialEq, Eq, Hash)]
pub struct ShopSizes {
    /// The dimension of the machine, which has `2^dim` processors: from 0 to `MAX_DIM`.
    pub dim: u32,
    /// The number of workers: from 1 to `MAX_DISPATCHERS`.
    pub dispatchers: u32,
    /// The number of jobs that the queue holds at most: from 1 to `MAX_CAPACITY`.
    pub capacity: usize,
}

/// A new dispatcher, with the handles that belong to it.
pub struct Opened<L: JobLine, F: Floor> {
    /// The dispatcher.
    pub shop: Shop<L, F>,
    /// Its lanes, in the order of their numbers.
    pub lanes: Vec<L::Lane>,
    /// Its workers, in the order of their passes.
    pub workers: Vec<Worker<L, F>>,
    /// The handle that closes it.
    pub closer: Closer<L, F>,
}

/// Returns why a dispatcher of these sizes is refused, if it is: the first size that is not within
/// its limits. The order is dimension, lanes, workers, capacity.
pub fn refusal(n: u32, lanes: u32, dispatchers: u32, capacity: usize) -> Option<ShopRefused>
    ensures { result ≡ refusal_of n lanes dispatchers capacity }
{
    if n > MAX_DIM {
        Some(ShopRefused::BadDimension)
    } else if lanes == 0 || lanes > MAX_LANES {
        Some(ShopRefused::BadLanes)
    } else if dispatchers == 0 || dispatchers > MAX_DISPATCHERS {
        Some(ShopRefused::BadDispatchers)
    } else if capacity == 0 || capacity > MAX_CAPACITY {
        Some(ShopRefused::BadCapacity)
    } else {
        None
    }
}

// Makes a worker of each pass and the station at the same place.
#[tactic(auto, using(crate::proofs::OpenLemmas::first_has))]
fn pair_up<L: JobLine, F: Floor>(
    passes: Vec<L::Pass>,
    stations: Vec<F::Station>,
    mut workers: Vec<Worker<L, F>>,
) -> Vec<Worker<L, F>>
    requires beside { length passes.items ≡ length stations.items }
    requires none_taken { All (λ p. (L.pass_record p).taken ≡ []) passes.items }
    requires none_granted { All (λ s. F.grants s ≡ []) stations.items }
    requires empty { workers.items ≡ [] }
    requires room { length passes.items ≤ vec_capacity workers }
    ensures passes { map (λ w. w.pass) result.items ≡ passes.items }
    ensures stations { map (λ w. w.station) result.items ≡ stations.items }
{
    let mut passes = VecDeque::from_vec(passes);
    let mut stations = VecDeque::from_vec(stations);
    while let Some(pass) = passes.pop_front() {
        let Some(station) = stations.pop_front() else {
            unreachable!()
        };
        workers.push_reserved(Worker { pass, station });
    }
    passes.destroy_empty();
    stations.destroy_empty();
    workers
}

// Opens the allocator and then the queue. If memory runs out for the queue, it ends the allocator.
fn open_both<L: JobLine, F: Floor>(
    alloc: Global,
    sizes: Sizes,
) -> Result<
    (
        F,
        Vec<F::Station>,
        job_queue::Opened<L, L::Lane, L::Pass, L::Closer>,
    ),
    AllocError,
>
where
    F::Machine: Drop,
    requires { refusal_of sizes.machine sizes.lanes sizes.passes sizes.capacity ≡ None }
    ensures one_machine { IfOk result (λ made. IsOneMachine (L.id made.2.line) (F.id made.0)) }
    ensures sizes { IfOk result (λ made.
        HasSizes sizes.machine sizes.lanes sizes.passes sizes.capacity
        (shop_of (L.id made.2.line) (F.id made.0))) }
    ensures stations { IfOk result (λ made. All (F.is_station (F.id made.0)) made.1.items) }
    ensures count { IfOk result (λ made. length made.1.items ≡ sizes.passes) }
    ensures none_granted { IfOk result (λ made. All (λ s. F.grants s ≡ []) made.1.items) }
    ensures lanes { IfOk result (λ made. All (L.is_lane (L.id made.2.line)) made.2.lanes.items) }
    ensures passes { IfOk result (λ made. All (L.is_pass (L.id made.2.line)) made.2.passes.items) }
    ensures closer { IfOk result (λ made. L.is_closer (L.id made.2.line) made.2.closer) }
    ensures fresh_lanes { IfOk result (λ made.
        map L.lane_record made.2.lanes.items ≡ fresh_lanes sizes.lanes) }
    ensures fresh_passes { IfOk result (λ made.
        map L.pass_record made.2.passes.items ≡ fresh_passes sizes.passes) }
{
    let (floor, stations) = F::open(alloc, sizes.machine, sizes.passes)?;
    let Ok(opened) = L::open(alloc, sizes) else {
        let _machine = floor.close(stations);
        return Err(AllocError);
    };
    Ok((floor, stations, opened))
}

// Opens a dispatcher of these sizes, with this room for its end.
fn open_all<L: JobLine, F: Floor>(
    alloc: Global,
    sizes: Sizes,
    room: Room<L, F>,
) -> Result<Opened<L, F>, AllocError>
where
    F::Machine: Drop,
    requires { refusal_of sizes.machine sizes.lanes sizes.passes sizes.capacity ≡ None }
    ensures sizes { IfOk result (λ made.
        HasSizes sizes.machine sizes.lanes sizes.passes sizes.capacity made.shop) }
    ensures lanes { IfOk result (λ made. All (L.is_lane made.shop.line) made.lanes.items) }
    ensures fresh_lanes { IfOk result (λ made.
        map L.lane_record made.lanes.items ≡ fresh_lanes sizes.lanes) }
    ensures workers { IfOk result (λ made. All (IsWorkerOf made.shop) made.workers.items) }
    ensures fresh_passes { IfOk result (λ made.
        map worker_record made.workers.items ≡ fresh_passes sizes.passes) }
    ensures closes { IfOk result (λ made. L.is_closer made.shop.line made.closer.line) }
    ensures room { IfOk result (λ made. made.closer.room ≡ room) }
{
    let Ok(workers) = Vec::with_capacity(alloc, sizes.passes as usize) else {
        room.let_go();
        return Err(AllocError);
    };
    let Ok((floor, stations, opened)) = open_both(alloc, sizes) else {
        room.let_go();
        workers.destroy_empty();
        return Err(AllocError);
    };
    let job_queue::Opened {
        line,
        lanes,
        passes,
        closer,
    } = opened;
    Ok(Opened {
        shop: Shop { line, floor },
        lanes,
        workers: pair_up(passes, stations, workers),
        closer: Closer { line: closer, room },
    })
}

impl<L: JobLine, F: Floor> Shop<L, F> {
    /// Opens a dispatcher for a machine of dimension `n`, with this many lanes and workers, and a
    /// queue of up to `capacity` jobs.
    ///
    /// The error is the first size that is not within its limits, in the order dimension, lanes,
    /// workers, capacity. All memory is reserved here, that of `finish` included. If memory runs
    /// out for the queue, the allocator is ended again.
    pub fn open(
        alloc: Global,
        n: u32,
        lanes: u32,
        dispatchers: u32,
        capacity: usize,
    ) -> Result<Opened<L, F>, ShopRefused>
    where
        F::Machine: Drop,
        ensures refused { IfErr result (λ e.
            e ≢ ShopRefused.OutOfMemory → refusal_of n lanes dispatchers capacity ≡ Some e) }
        ensures memory_last { IfErr result (λ e.
            e ≡ ShopRefused.OutOfMemory → refusal_of n lanes dispatchers capacity ≡ None) }
        ensures accepted { IfOk result (λ made. refusal_of n lanes dispatchers capacity ≡ None) }
        ensures sizes { IfOk result (λ made. HasSizes n lanes dispatchers capacity made.shop) }
        ensures lanes { IfOk result (λ made. All (L.is_lane made.shop.line) made.lanes.items) }
        ensures fresh_lanes { IfOk result (λ made.
            map L.lane_record made.lanes.items ≡ fresh_lanes lanes) }
        ensures workers { IfOk result (λ made. All (IsWorkerOf made.shop) made.workers.items) }
        ensures fresh_passes { IfOk result (λ made.
            map worker_record made.workers.items ≡ fresh_passes dispatchers) }
        ensures closer { IfOk result (λ made. IsCloserOf L.JobLine made.shop made.closer) }
    {
        if let Some(refused) = refusal(n, lanes, dispatchers, capacity) {
            return Err(refused);
        }
        let Ok(room) = Room::new(alloc, dispatchers, capacity) else {
            return Err(ShopRefused::OutOfMemory);
        };
        let sizes = Sizes {
            machine: n,
            lanes,
            passes: dispatchers,
            capacity,
        };
        let Ok(opened) = open_all(alloc, sizes, room) else {
            return Err(ShopRefused::OutOfMemory);
        };
        Ok(opened)
    }
}
