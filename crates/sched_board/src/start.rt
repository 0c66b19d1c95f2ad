//! A job that starts, as its worker sees it.

ghost use Rattle.std.specs.Prelude.{◌≡◌, ℕ, ◌<◌, IfSome, IfNone};
ghost use Rattle.sched_board.specs.declared.workers.PoolWorker.TheVariants.{Busy};
ghost use Rattle.sched_board.specs.Pool.{worker_in, workers_of};
ghost use Rattle.sched_board.specs.Served.{IsStart};

use crate::board::JobBoard;
use crate::workers::PoolWorker;
use sched_core::Place;

/// A job that starts.
#[derive(Clone, Copy, Debug, PartialEq, Eq, Hash)]
pub struct ThreadStart {
    /// The job's ticket, which no other job has.
    pub ticket: u64,
    /// The number that came with the job.
    pub payload: u64,
    /// The first of its processors.
    pub base: u64,
    /// How many processors it uses.
    pub processors: u32,
}

impl JobBoard {
    /// Returns the job of a worker, if it has one.
    pub fn start_of(&self, worker: u32) -> Option<ThreadStart>
        requires inside { worker < workers_of self.now.pool }
        ensures some { IfSome result (λ start. (slot : ℕ)
            × ((worker_in self.now.pool worker ≡ Busy slot)
            × IsStart self.now.pool.core slot start)) }
        ensures none { IfNone result ((slot : ℕ) → worker_in self.now.pool worker ≡ Busy slot
            → ⊥) }
    {
        let PoolWorker::Busy(slot) = self.worker(worker) else {
            return None;
        };
        self.pool.is_staffed();
        let scheduler = self.scheduler();
        let Place::Running(run) = scheduler.place(slot) else {
            unreachable!()
        };
        Some(ThreadStart {
            ticket: scheduler.ticket(slot),
            payload: run.job.payload,
            base: run.block.base,
            processors: run.job.processors,
        })
    }
}
