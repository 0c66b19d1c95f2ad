//! Memory for the result of `finish`, reserved when a dispatcher opens.
ghost use Rattle.std.specs.Prelude.{◌≡◌, ◌≤◌, [], IfOk, map, length};
ghost use Rattle.std.specs.Vec.{vec_capacity};

use crate::worker::WorkerEnd;
use floors::Floor;
use job_queue::JobLine;
use job_types::Reply;
use std::alloc::{AllocError, Global};
use std::collections::VecDeque;
use std::marker::Model;

/// Room for the members and replies of all workers, and for the replies to a full queue of jobs.
pub(crate) struct Room<L: JobLine, F: Floor> {
    workers: u32,
    jobs: usize,
    passes: Vec<L::Pass>,
    stations: Vec<F::Station>,
    by_worker: Vec<Vec<Reply>>,
    rest: Vec<Reply>,
}

impl<L: JobLine, F: Floor> Model for Room<L, F> {
    ghost use Rattle.std.specs.Prelude.{◌≡◌, ◌≤◌, []};
    ghost use Rattle.std.specs.Vec.{vec_capacity};
    ghost use Rattle.dispatcher.specs.Shop.{RoomSize};

    ghost Value = { RoomSize };

    ghost view = { λ r. record { workers = r.workers; jobs = r.jobs } };

    ghost invariant = { λ r. (r.passes.items ≡ []) × (r.workers ≤ vec_capacity r.passes)
        × (r.stations.items ≡ []) × (r.workers ≤ vec_capacity r.stations)
        × (r.by_worker.items ≡ []) × (r.workers ≤ vec_capacity r.by_worker)
        × (r.rest.items ≡ []) × (r.jobs ≤ vec_capacity r.rest) };
}

// The members and replies of all workers, by kind.
pub(crate) struct Gathered<L: JobLine, F: Floor> {
    pub passes: Vec<L::Pass>,
    pub stations: Vec<F::Station>,
    pub by_worker: Vec<Vec<Reply>>,
    // Room for the replies to the jobs that are left.
    pub rest: Vec<Reply>,
}

impl<L: JobLine, F: Floor> Room<L, F> {
    // Reserves the room.
    pub(crate) fn new(alloc: Global, workers: u32, jobs: usize) -> Result<Self, AllocError>
        ensures { IfOk result (λ room. room ≡ record { workers = workers; jobs = jobs }) }
    {
        let by_worker = Vec::with_capacity(alloc, workers as usize)?;
        let rest = Vec::with_capacity(alloc, jobs)?;
        let passes = Vec::with_capacity(alloc, workers as usize)?;
        let Ok(stations) = Vec::with_capacity(alloc, workers as usize) else {
            passes.destroy_empty();
            return Err(AllocError);
        };
        Ok(Room {
            workers,
            jobs,
            passes,
            stations,
            by_worker,
            rest,
        })
    }

    // Frees the room unused.
    pub(crate) fn let_go(self) {
        let Room {
            workers: _,
            jobs: _,
            passes,
            stations,
            by_worker: _,
            rest: _,
        } = self;
        passes.destroy_empty();
        stations.destroy_empty();
    }

    // Takes the workers apart. Each kind keeps the order of the workers.
    pub(crate) fn gather(self, ends: Vec<WorkerEnd<L, F>>) -> Gathered<L, F>
        requires { length ends.items ≤ self.workers }
        ensures passes { result.passes.items ≡ map (λ e. e.pass) ends.items }
        ensures stations { result.stations.items ≡ map (λ e. e.station) ends.items }
        ensures replies { result.by_worker.items ≡ map (λ e. e.replies) ends.items }
        ensures rest { (result.rest.items ≡ []) × (self.jobs ≤ vec_capacity result.rest) }
    {
        let Room {
            workers: _,
            jobs: _,
            mut passes,
            mut stations,
            mut by_worker,
            rest,
        } = self;
        let mut ends = VecDeque::from_vec(ends);
        while let Some(end) = ends.pop_front() {
            let WorkerEnd {
                pass,
                station,
                replies,
                stop: _,
            } = end;
            passes.push_reserved(pass);
            stations.push_reserved(station);
            by_worker.push_reserved(replies);
        }
        ends.destroy_empty();
        Gathered {
            passes,
            stations,
            by_worker,
            rest,
        }
    }
}
