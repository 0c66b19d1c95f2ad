//! Running a whole dispatcher on threads.
ghost use Rattle.std.specs.Prelude.{◌≡◌, ◌≢◌, ℕ, ◌^◌, ◌<◌, ◌≤◌, [], List, None, Some, IfOk, IfErr, map, length, slice_index_or};
ghost use Rattle.std.specs.List.{All};
ghost use Rattle.std.specs.Vec.{vec_capacity};
ghost use Rattle.job_types.specs.Job.{JobData};
ghost use Rattle.job_queue.specs.Line.{IsFor};
ghost use Rattle.dispatcher.specs.Opening.{refusal_of};
ghost use Rattle.dispatcher.specs.Members.{IsWorkerOf, IsEndOf, IsCloserOf, IsNoteOf, stop_of};
ghost use Rattle.dispatcher_threads.specs.InnerNaming.{sizes_of};
ghost use Rattle.dispatcher_threads.specs.InnerEnd.{HasEnded};
ghost use Rattle.dispatcher_threads.specs.Run.{IsRun};
ghost use Rattle.dispatcher_threads.specs.Members.{RanIn};

use crate::member::{CloserSlot, Naming};
use crate::members::ShopMembers;
use crate::pace::Pace;
use crate::ready::{EndRoom, MemberRoom, Ready, make_ready};
use crate::shared::{SharedFloor, SharedLine};
use crate::slots::{lanes_from_slots, slots_for_lanes, slots_for_workers, workers_from_slots};
use crate::threads::run_threads;
use dispatcher::{
    CloseNote, FeedStop, Finished, Opened, Runner, Shop, ShopRefused, ShopSizes, Stop, WorkerEnd,
};
use floors::Floor;
use job_queue::JobLine;
use job_types::Job;
use std::alloc::Global;
use std::collections::VecDeque;
use std::marker::Brand;
use std::sync::{Mutex, Wait};
use std::thread::Threads;

/// The end of a lane in a run.
#[derive(Debug, Drop)]
pub struct LaneEnd {
    /// The lane's number.
    pub lane: u32,
    /// The number of its accepted jobs, which are the first ones of its list.
    pub accepted: u64,
    /// The number of entries that it made: one for each accepted job, and one each time the queue
    /// was full.
    pub entries: u64,
    /// The job that the queue refused for good, if it refused one.
    pub back: Option<Job>,
    /// The jobs after it, in order.
    pub left: VecDeque<Job>,
    /// The reason why its feed has stopped, or `None` if it never ran.
    pub stop: Option<FeedStop>,
}

/// The end of a run.
#[derive(Drop)]
pub struct RunEnd<M> {
    /// All replies, and the machine.
    pub finished: Finished<M>,
    /// The end of each lane, in any order.
    pub lanes: Vec<LaneEnd>,
    /// The close number: how many entries came before the close.
    pub close_number: u64,
    /// The reason why each worker has stopped, in the order of their replies.
    pub stops: Vec<Stop>,
}

// The members of a run, after they have stopped, and room for the lanes.
struct Members<L: JobLine, F: Floor> {
    fed: Vec<(L::Lane, LaneEnd)>,
    ends: Vec<WorkerEnd<L, F>>,
    note: CloseNote<L, F>,
    lanes: Vec<L::Lane>,
}

// Returns why each worker has stopped.
fn stops_of<L: JobLine, F: Floor>(ends: &[WorkerEnd<L, F>], stops: Vec<Stop>) -> Vec<Stop>
    requires empty { stops.items ≡ [] }
    requires room { length ends.now ≤ vec_capacity stops }
    ensures { result.items ≡ map stop_of ends.now }
{
    let mut stops = stops;
    for end in ends {
        stops.push_reserved(end.stop());
    }
    stops
}

// Separates the lanes from their ends.
fn part<L: JobLine>(
    fed: Vec<(L::Lane, LaneEnd)>,
    mut lanes: Vec<L::Lane>,
    mut ends: Vec<LaneEnd>,
) -> (Vec<L::Lane>, Vec<LaneEnd>)
    requires empty { (lanes.items ≡ []) × (ends.items ≡ []) }
    requires lane_room { length fed.items ≤ vec_capacity lanes }
    requires room { length fed.items ≤ vec_capacity ends }
    ensures lanes { result.0.items ≡ map (λ f. f.0) fed.items }
    ensures ends { result.1.items ≡ map (λ f. f.1) fed.items }
{
    let mut fed = VecDeque::from_vec(fed);
    while let Some(one) = fed.pop_front() {
        let (lane, end) = one;
        ends.push_reserved(end);
        lanes.push_reserved(lane);
    }
    fed.destroy_empty();
    (lanes, ends)
}

// Finishes a dispatcher whose members have stopped, and returns the end of its run.
fn run_end<J: Naming, R: Wait, L: JobLine, F: Floor, T: Runner>(
    rt: &R,
    runner: &T,
    shop: Shop<L, F>,
    members: Members<L, F>,
    room: EndRoom,
) -> RunEnd<F::Machine>
    requires shop { shop ≡ J.shop }
    requires machine { J.shop.line.sizes.machine ≡ J.shop.floor.dim }
    requires lanes { All (λ f. L.is_lane J.shop.line f.0) members.fed.items }
    requires all_lanes { length members.fed.items ≡ J.shop.line.sizes.lanes }
    requires lane_ends { All (λ f. HasEnded J.jobs (L.lane_record f.0) f.1) members.fed.items }
    requires workers { All (IsEndOf J.shop) members.ends.items }
    requires all_workers { length members.ends.items ≡ J.shop.line.sizes.passes }
    requires note { IsNoteOf L.JobLine J.shop members.note }
    requires lane_room { (members.lanes.items ≡ [])
        × (J.shop.line.sizes.lanes ≤ vec_capacity members.lanes) }
    requires end_room { (room.lanes.items ≡ [])
        × (J.shop.line.sizes.lanes ≤ vec_capacity room.lanes) }
    requires stops { (room.stops.items ≡ [])
        × (J.shop.line.sizes.passes ≤ vec_capacity room.stops) }
    ensures run { (jobs : List (List JobData)) → length jobs ≡ J.shop.line.sizes.lanes →
        ((k : ℕ) → slice_index_or jobs k [] ≡ J.jobs k) →
        IsRun F.machine_words J.shop.floor.dim jobs result }
    ensures ran_in { RanIn L.JobLine F.Floor (sizes_of J.shop) J.shop.line.sizes.lanes result }
    ensures workers { length result.finished.by_worker.items ≡ J.shop.line.sizes.passes }
    ensures dim { F.machine_dim result.finished.machine ≡ J.shop.floor.dim }
    ensures closed { F.is_closed J.shop.line.sizes.passes result.finished.machine }
{
    let Members {
        fed,
        ends,
        note,
        lanes,
    } = members;
    let EndRoom {
        lanes: lane_ends,
        stops,
    } = room;
    let close_number = note.number();
    let stops = stops_of(&ends, stops);
    let (lanes, lane_ends) = part::<L>(fed, lanes, lane_ends);
    let finished = shop.finish(rt, runner, lanes, ends, note);
    RunEnd {
        finished,
        lanes: lane_ends,
        close_number,
        stops,
    }
}

// Does the work of `run`, after the dispatcher was opened and the run got a name.
fn run_named<
    J: Naming + Send + Sync,
    R: Threads + Wait + Sync,
    L: JobLine + SharedLine,
    F: Floor + SharedFloor,
    T: Runner + Sync,
>(rt: &R, alloc: Global, runner: &T, ready: Ready<L, F>) -> RunEnd<F::Machine>
    requires shop { ready.opened.shop ≡ J.shop }
    requires jobs { (k : ℕ) →
        slice_index_or (map (λ js. js.items) ready.jobs.items) k [] ≡ J.jobs k }
    requires lanes { All (L.is_lane ready.opened.shop.line) ready.opened.lanes.items }
    requires workers { All (IsWorkerOf ready.opened.shop) ready.opened.workers.items }
    requires closer { IsCloserOf L.JobLine ready.opened.shop ready.opened.closer }
    ensures run { IsRun F.machine_words J.shop.floor.dim
        (map (λ js. js.items) ready.jobs.items) result }
    ensures ran_in { RanIn L.JobLine F.Floor (sizes_of J.shop) J.shop.line.sizes.lanes result }
    ensures workers { length result.finished.by_worker.items ≡ J.shop.line.sizes.passes }
    ensures dim { F.machine_dim result.finished.machine ≡ J.shop.floor.dim }
    ensures closed { F.is_closed J.shop.line.sizes.passes result.finished.machine }
{
    let Ready { opened, jobs, room } = ready;
    let Opened {
        shop,
        lanes,
        workers,
        closer,
    } = opened;
    let MemberRoom {
        mut ends,
        mut fed,
        returned: room,
    } = room;
    let worker_slots = slots_for_workers(alloc, workers, &mut ends);
    let (lane_slots, lanes) = slots_for_lanes(rt, alloc, &shop, lanes, jobs, &mut fed);
    let all_have_slots = ends.is_empty() && fed.is_empty();
    let members: ShopMembers<J, L, F, T> = ShopMembers {
        shop: &shop,
        runner,
        alloc,
        worker_slots,
        lane_slots,
        closer_slot: Mutex::new(CloserSlot::new(closer)),
        pace: Pace::new(),
    };
    if all_have_slots {
        run_threads(rt, &members);
    }
    let (worker_slots, lane_slots, closer_slot) = members.into_slots();
    workers_from_slots(alloc, worker_slots, &mut ends);
    let note = closer_slot.into_inner().into_note(rt, &shop);
    lanes_from_slots(rt, &shop, lane_slots, &mut fed);
    let members = Members {
        fed,
        ends,
        note,
        lanes,
    };
    run_end::<J, R, L, F, T>(rt, runner, shop, members, room)
}

/// Runs a dispatcher of these sizes on threads, with a lane for each list of jobs.
///
/// It opens the dispatcher, submits all lists while workers run jobs, closes the dispatcher and
/// finishes it. The calling thread is the first worker, and each other worker has a thread of its
/// own. A worker that finds the queue empty submits some jobs of each lane in turn. The others
/// sleep while the first one is fast enough, and look each millisecond. So long jobs run on all
/// workers at once, and small ones mostly on one.
///
/// In the end each accepted job has one right reply. The jobs that a lane has accepted, followed by
/// those that it did not submit, are its list. If a thread cannot be started, the calling thread
/// does its work. If memory runs out for one more reply, the dispatcher closes early. Then some
/// jobs may not be submitted. If memory runs out for a member, no job is submitted. Then each
/// worker has stopped as `NotRun`, and a lane has no stop.
///
/// # Errors
///
/// The error returns the jobs. It is the first size that is not within its limits, or
/// `OutOfMemory`.
pub fn run<
    R: Threads + Wait + Sync,
    L: JobLine + SharedLine,
    F: Floor + SharedFloor,
    T: Runner + Sync,
>(
    rt: &R,
    alloc: Global,
    sizes: ShopSizes,
    runner: &T,
    jobs: Vec<VecDeque<Job>>,
) -> Result<RunEnd<F::Machine>, (ShopRefused, Vec<VecDeque<Job>>)>
    requires lanes { length jobs.items < 2 ^ 32 }
    requires made_for { (k : ℕ) → k < length jobs.items →
        All (IsFor sizes.dim k) (slice_index_or (map (λ js. js.items) jobs.items) k []) }
    ensures run { IfOk result (IsRun F.machine_words sizes.dim (map (λ js. js.items) jobs.items)) }
    ensures ran_in { IfOk result (RanIn L.JobLine F.Floor sizes (length jobs.items)) }
    ensures workers { IfOk result (λ end.
        length end.finished.by_worker.items ≡ sizes.dispatchers) }
    ensures dim { IfOk result (λ end. F.machine_dim end.finished.machine ≡ sizes.dim) }
    ensures closed { IfOk result (λ end. F.is_closed sizes.dispatchers end.finished.machine) }
    ensures accepted { IfOk result (λ end.
        refusal_of sizes.dim (length jobs.items) sizes.dispatchers sizes.capacity ≡ None) }
    ensures refused { IfErr result (λ r. r.0 ≢ ShopRefused.OutOfMemory →
        refusal_of sizes.dim (length jobs.items) sizes.dispatchers sizes.capacity ≡ Some r.0) }
    ensures memory_last { IfErr result (λ r. r.0 ≡ ShopRefused.OutOfMemory →
        refusal_of sizes.dim (length jobs.items) sizes.dispatchers sizes.capacity ≡ None) }
    ensures gives_back { IfErr result (λ r. r.1.items ≡ jobs.items) }
{
    let ready = make_ready::<L, F>(alloc, sizes, jobs)?;
    Ok(run_named::<Brand, R, L, F, T>(rt, alloc, runner, ready))
}
