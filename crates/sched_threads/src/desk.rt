//! The board with what each worker's thread knows.

ghost use Rattle.std.specs.Prelude.{◌≡◌, ◌≢◌, ℕ, ◌<◌, ◌≤◌, Some, length, slice_index_or, IfOk, IfErr, IfSome, IfNone};
ghost use Rattle.cube_shape.specs.declared.limits.TheConstants.{MAX_BITMAP_DIM};
ghost use Rattle.sched_board.specs.declared.workers.TheConstants.{MAX_WORKERS};
ghost use Rattle.sched_board.specs.Pool.{workers_of};
ghost use Rattle.sched_board.specs.JobBoard.{IsFresh};
ghost use Rattle.sched_board.specs.declared.serving.WorkerStage.TheVariants.{Asked as Waits, Has as Works};
ghost use Rattle.sched_threads.specs.declared.chair.Chair.TheVariants.{Free, Out, Asked, Has};
ghost use Rattle.sched_threads.specs.Desk.{HasOtherChairs, IsSameDesk, chair_of, stage_of};
ghost use Rattle.sched_threads.specs.Turns.{IsServing, IsStopping, Moves};

use crate::chair::Chair;
use cube_shape::MAX_BITMAP_DIM;
use fixed_vec::{FixedVec, Store};
use sched_board::{JobBoard, MAX_SLOTS, MAX_WORKERS, Served, ThreadSizes, WorkerStage};
use std::alloc::AllocError;
use std::marker::Model;

/// The call does not fit what the worker does.
#[derive(Clone, Copy, Debug, PartialEq, Eq, Hash)]
pub struct WrongState;

/// A board, and what is known of each worker's thread.
#[derive(Drop)]
pub struct Desk {
    pub(crate) board: JobBoard,
    pub(crate) chairs: FixedVec<Chair>,
}

impl Model for Desk {
    ghost use Rattle.std.specs.Coded.{codes};
    ghost use Rattle.sched_blocks.specs.Layout.{layout_code};
    ghost use Rattle.sched_threads.specs.Desk.{DeskData, IsDesk};

    ghost Value = { DeskData };

    ghost coded = { Prim.hlevel (codes, layout_code) };

    ghost view = { λ a. record { board = a.board; chairs = a.chairs.items } };

    ghost invariant = { λ a. IsDesk (record { board = a.board; chairs = a.chairs.items }) };
}

impl Desk {
    /// Creates a desk of these sizes. No job waits or runs, and no thread is a worker.
    pub fn new(store: &mut Store, sizes: ThreadSizes) -> Result<Self, AllocError>
        requires dim { sizes.dim ≤ MAX_BITMAP_DIM }
        requires jobs { sizes.jobs ≤ MAX_SLOTS }
        requires workers { sizes.workers ≤ MAX_WORKERS }
        ensures fresh { IfOk result (λ made. IsFresh sizes made.board) }
        ensures free { IfOk result (λ made. (u : ℕ) → chair_of made u ≡ Free) }
    {
        let board = JobBoard::new(store, sizes)?;
        let count = sizes.workers as usize;
        let chairs = store.filled(Chair::Free, count, count)?;
        Ok(Desk { board, chairs })
    }

    // Returns what is known of a worker's thread. A number that no worker has is no thread's.
    pub(crate) fn chair(&self, worker: u32) -> Chair
        ensures value { result ≡ chair_of self.now worker }
        ensures inside { result ≢ Free → worker < workers_of self.now.board.pool }
    {
        match self.chairs.get(worker as usize) {
            Some(chair) => *chair,
            None => Chair::Free,
        }
    }

    /// Returns a worker that no thread is, for a thread that is this worker from now on.
    pub fn sit(&mut self) -> Option<u32>
        ensures board { self.new.board ≡ self.old.board }
        ensures inside { IfSome result (λ u. u < workers_of self.new.board.pool) }
        ensures free { IfSome result (λ u. chair_of self.old u ≡ Free) }
        ensures here { IfSome result (λ u. chair_of self.new u ≡ Out) }
        ensures others { IfSome result (HasOtherChairs self.old self.new) }
        ensures none { IfNone result ((u : ℕ) → u < workers_of self.old.board.pool
            → chair_of self.old u ≢ Free) }
        ensures same { IfNone result (IsSameDesk self.old self.new) }
    {
        let worker = first_free(&self.chairs)?;
        put_chair(&mut self.chairs, worker, Chair::Out);
        Some(worker)
    }

    /// Ends the worker's job, if it has one, and lets the worker wait for the next. Starts jobs for
    /// workers that wait. Returns what the worker gets.
    pub fn next(&mut self, worker: u32, now: u64) -> Result<Served, WrongState>
        ensures served { IfOk result (λ served. IsServing now (stage_of (chair_of self.old worker))
            worker served self.old.board self.new.board) }
        ensures moves { IfOk result (λ served. Moves (Some worker) self.old.board
            self.new.board) }
        ensures asked { IfOk result (λ served. IfNone served.start
            (chair_of self.new worker ≡ Asked)) }
        ensures has { IfOk result (λ served. IfSome served.start
            (λ start. chair_of self.new worker ≡ Has)) }
        ensures others { IfOk result (λ served. HasOtherChairs self.old self.new worker) }
        ensures wrong { IfErr result (λ why. chair_of self.old worker ≡ Free) }
        ensures same { IfErr result (λ why. IsSameDesk self.old self.new) }
    {
        let stage = match self.chair(worker) {
            Chair::Free => return Err(WrongState),
            Chair::Out => WorkerStage::Out,
            Chair::Asked => WorkerStage::Asked,
            Chair::Has => WorkerStage::Has,
        };
        let served = self.board.serve(worker, stage, now);
        let chair = chair_with(&served, Chair::Asked);
        put_chair(&mut self.chairs, worker, chair);
        Ok(served)
    }

    /// Lets a worker wait no longer. If it got a job meanwhile, it has that one.
    pub fn give_up(&mut self, worker: u32, now: u64) -> Result<Served, WrongState>
        ensures stopped { IfOk result (λ served. IsStopping now Waits worker served self.old.board
            self.new.board) }
        ensures moves { IfOk result (λ served. Moves (Some worker) self.old.board
            self.new.board) }
        ensures asked { IfOk result (λ served. chair_of self.old worker ≡ Asked) }
        ensures out { IfOk result (λ served. IfNone served.start
            (chair_of self.new worker ≡ Out)) }
        ensures has { IfOk result (λ served. IfSome served.start
            (λ start. chair_of self.new worker ≡ Has)) }
        ensures others { IfOk result (λ served. HasOtherChairs self.old self.new worker) }
        ensures wrong { IfErr result (λ why. chair_of self.old worker ≢ Asked) }
        ensures same { IfErr result (λ why. IsSameDesk self.old self.new) }
    {
        let Chair::Asked = self.chair(worker) else {
            return Err(WrongState);
        };
        let served = self.board.stop(worker, WorkerStage::Asked, now);
        let chair = chair_with(&served, Chair::Out);
        put_chair(&mut self.chairs, worker, chair);
        Ok(served)
    }

    /// Ends the job of a worker. Starts jobs for workers that wait.
    pub fn done(&mut self, worker: u32, now: u64) -> Result<Served, WrongState>
        ensures stopped { IfOk result (λ served. IsStopping now Works worker served self.old.board
            self.new.board) }
        ensures moves { IfOk result (λ served. Moves (Some worker) self.old.board
            self.new.board) }
        ensures had { IfOk result (λ served. chair_of self.old worker ≡ Has) }
        ensures out { IfOk result (λ served. chair_of self.new worker ≡ Out) }
        ensures others { IfOk result (λ served. HasOtherChairs self.old self.new worker) }
        ensures wrong { IfErr result (λ why. chair_of self.old worker ≢ Has) }
        ensures same { IfErr result (λ why. IsSameDesk self.old self.new) }
    {
        let Chair::Has = self.chair(worker) else {
            return Err(WrongState);
        };
        let served = self.board.stop(worker, WorkerStage::Has, now);
        put_chair(&mut self.chairs, worker, Chair::Out);
        Ok(served)
    }
}

// Returns what is known of a worker's thread: it has a job, if it got one.
fn chair_with(served: &Served, none: Chair) -> Chair
    ensures has { IfSome served.now.start (λ start. result ≡ Has) }
    ensures none { IfNone served.now.start (result ≡ none) }
{
    match served.start {
        Some(_) => Chair::Has,
        None => none,
    }
}

// Writes what is known of a worker's thread.
pub(crate) fn put_chair(chairs: &mut [Chair], worker: u32, chair: Chair)
    requires { worker < length chairs.old }
    ensures count { length chairs.new ≡ length chairs.old }
    ensures here { slice_index_or chairs.new worker Free ≡ chair }
    ensures others { (u : ℕ) → u ≢ worker
        → slice_index_or chairs.new u Free ≡ slice_index_or chairs.old u Free }
{
    chairs[worker as usize] = chair;
}

// Returns the first of these workers that no thread is.
fn first_free(chairs: &[Chair]) -> Option<u32>
    requires { length chairs.now ≤ MAX_WORKERS }
    ensures inside { IfSome result (λ u. u < length chairs.now) }
    ensures free { IfSome result (λ u. slice_index_or chairs.now u Free ≡ Free) }
    ensures none { IfNone result ((u : ℕ) → u < length chairs.now
        → slice_index_or chairs.now u Free ≢ Free) }
{
    for worker in 0..chairs.len() as u32 {
        if chairs[worker as usize] == Chair::Free {
            return Some(worker);
        }
    }
    None
}
