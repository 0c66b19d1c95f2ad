//! The end of a dispatcher.
ghost use Rattle.std.specs.Prelude.{◌≡◌, ℕ, ◌<◌, ◌≤◌, ◌++◌, List, [], map, length};
ghost use Rattle.std.specs.List.{All};
ghost use Rattle.std.specs.Vec.{vec_capacity};
ghost use Rattle.ghost_history.specs.Sums.{times};
ghost use Rattle.job_queue.specs.Line.{IsMadeFor};
ghost use Rattle.dispatcher.specs.Reply.{answered, region_of, IsRight};
ghost use Rattle.dispatcher.specs.Members.{IsEndOf, IsNoteOf, replies_of, close_number_of};
ghost use Rattle.dispatcher.specs.Finished.{with_last, outcome, FinishedRun};

use crate::closing::CloseNote;
use crate::room::Gathered;
use crate::runner::Runner;
use crate::serving::serve;
use crate::shop::Shop;
use crate::worker::WorkerEnd;
use floors::Floor;
use job_queue::{JobLine, QueuedJob, Rest};
use job_types::Reply;
use std::collections::VecDeque;
use std::sync::Wait;

/// All replies of a dispatcher, and its machine, which is wholly free.
#[derive(Drop)]
pub struct Finished<M> {
    /// The replies of each worker, in the order in which the workers were passed in.
    pub by_worker: Vec<Vec<Reply>>,
    /// The replies to the jobs that no worker took.
    pub rest: Vec<Reply>,
    /// The number of accepted jobs of each lane, at the lane's number.
    pub accepted: Vec<u64>,
    /// The machine.
    pub machine: M,
}

// Runs the jobs on the station, front first. Returns the station and the replies.
fn answer_jobs<R: Wait, F: Floor, T: Runner>(
    rt: &R,
    floor: &F,
    runner: &T,
    mut station: F::Station,
    mut jobs: VecDeque<QueuedJob>,
    mut rest: Vec<Reply>,
) -> (F::Station, Vec<Reply>)
    requires station { F.is_station (F.id floor.now) station }
    requires made_for { All (IsMadeFor (F.id floor.now).dim) jobs.items }
    requires empty { rest.items ≡ [] }
    requires room { length jobs.items ≤ vec_capacity rest }
    ensures station { F.is_station (F.id floor.now) result.0 }
    ensures answers { map answered result.1.items ≡ jobs.items }
    ensures granted { F.grants result.0 ≡ F.grants station ++ map region_of result.1.items }
    ensures right { All (IsRight (F.id floor.now).dim) result.1.items }
{
    while let Some(queued) = jobs.pop_front() {
        let QueuedJob { id, job } = queued;
        let (back, reply) = serve(rt, floor, runner, station, id, job);
        station = back;
        rest.push_reserved(reply);
    }
    (station, rest)
}

// Runs the jobs on the last station.
fn answer_rest<R: Wait, F: Floor, T: Runner>(
    rt: &R,
    floor: &F,
    runner: &T,
    mut stations: Vec<F::Station>,
    jobs: VecDeque<QueuedJob>,
    rest: Vec<Reply>,
) -> (Vec<F::Station>, Vec<Reply>)
    requires some { 0 < length stations.items }
    requires stations { All (F.is_station (F.id floor.now)) stations.items }
    requires made_for { All (IsMadeFor (F.id floor.now).dim) jobs.items }
    requires empty { rest.items ≡ [] }
    requires room { length jobs.items ≤ vec_capacity rest }
    ensures count { length result.0.items ≡ length stations.items }
    ensures stations { All (F.is_station (F.id floor.now)) result.0.items }
    ensures answers { map answered result.1.items ≡ jobs.items }
    ensures granted { map F.grants result.0.items
        ≡ with_last (map F.grants stations.items) (map region_of result.1.items) }
    ensures right { All (IsRight (F.id floor.now).dim) result.1.items }
{
    let Some(station) = stations.pop() else {
        unreachable!()
    };
    let (back, rest) = answer_jobs(rt, floor, runner, station, jobs, rest);
    stations.push_reserved(back);
    (stations, rest)
}

impl<L: JobLine, F: Floor> Shop<L, F> {
    /// Ends a closed dispatcher. It needs as many lanes and workers as the dispatcher has, which
    /// are all of them. It runs the jobs that no worker took, front first, and ends the allocator.
    ///
    /// Then each accepted job has exactly one right reply, and the machine is wholly free. It
    /// allocates no memory.
    pub fn finish<R: Wait, T: Runner>(
        self,
        rt: &R,
        runner: &T,
        lanes: Vec<L::Lane>,
        ends: Vec<WorkerEnd<L, F>>,
        note: CloseNote<L, F>,
    ) -> Finished<F::Machine>
        requires lanes { All (L.is_lane self.line) lanes.items }
        requires all_lanes { length lanes.items ≡ self.line.sizes.lanes }
        requires workers { All (IsEndOf self) ends.items }
        requires all_workers { length ends.items ≡ self.line.sizes.passes }
        requires note { IsNoteOf L.JobLine self note }
        ensures finished { (stations : List F.Station) × All (F.is_station self.floor) stations
            × (length stations ≡ self.floor.stations)
            × FinishedRun self.floor.dim (map L.lane_record lanes.items) (map F.grants stations)
            (close_number_of L.JobLine note) (outcome F.machine_words result) }
        ensures by_worker { map (λ replies. replies.items) result.by_worker.items
            ≡ map replies_of ends.items }
        ensures lane_numbers { (k : ℕ) → k < self.line.sizes.lanes →
            times k (map (λ l. (L.lane_record l).number) lanes.items) ≡ 1 }
        ensures lane_count { length result.accepted.items ≡ self.line.sizes.lanes }
        ensures dim { F.machine_dim result.machine ≡ self.floor.dim }
        ensures closed { F.is_closed self.line.sizes.passes result.machine }
    {
        let CloseNote { line: note, room } = note;
        let Gathered {
            passes,
            stations,
            by_worker,
            rest,
        } = room.gather(ends);
        let Shop { line, floor } = self;
        let Rest { jobs, accepted } = line.into_rest(rt, lanes, passes, note);
        let (stations, rest) = answer_rest(rt, &floor, runner, stations, jobs, rest);
        Finished {
            by_worker,
            rest,
            accepted,
            machine: floor.close(stations),
        }
    }
}
