//! How threads cease to be workers.

ghost use Rattle.std.specs.Prelude.{◌≡◌, ◌≢◌, ◌<◌, ◌⊎◌, ◌↔◌, Some, None, IfOk, IfErr, IfSome, IfNone, IsTrue};
ghost use Rattle.sched_board.specs.Pool.{worker_in, workers_of};
ghost use Rattle.sched_board.specs.Served.{FitsStage};
ghost use Rattle.sched_threads.specs.declared.chair.Chair.TheVariants.{Free};
ghost use Rattle.sched_threads.specs.Desk.{HasOtherChairs, HasUnseen, IsSameDesk, chair_of, stage_of, stage_to_end};
ghost use Rattle.sched_threads.specs.Turns.{IsStopping, Moves};

use crate::chair::Chair;
use crate::desk::{Desk, WrongState, put_chair};
use sched_board::{PoolWorker, Served, WorkerStage};

impl Desk {
    // Returns whether a worker got a job that its thread has not seen.
    fn has_unseen(&self, worker: u32) -> bool
        ensures { IsTrue result ↔ HasUnseen self.now worker }
    {
        let Chair::Asked = self.chair(worker) else {
            return false;
        };
        match self.board.worker(worker) {
            PoolWorker::Busy(_) => true,
            _ => false,
        }
    }

    // Returns what ends what a worker does, if a thread is this worker.
    fn stage_to_end(&self, worker: u32) -> Option<WorkerStage>
        ensures stage { IfSome result (λ stage. stage ≡ stage_to_end (chair_of self.now worker)
            (worker_in self.now.board.pool worker)) }
        ensures inside { IfSome result (λ stage. worker < workers_of self.now.board.pool) }
        ensures fits { IfSome result (λ stage. FitsStage stage
            (worker_in self.now.board.pool worker)) }
        ensures sat { IfSome result (λ stage. chair_of self.now worker ≢ Free) }
        ensures none { IfNone result (chair_of self.now worker ≡ Free) }
    {
        match self.chair(worker) {
            Chair::Free => None,
            Chair::Out => Some(WorkerStage::Out),
            Chair::Has => Some(WorkerStage::Has),
            Chair::Asked => match self.board.worker(worker) {
                PoolWorker::Busy(_) => Some(WorkerStage::Has),
                _ => Some(WorkerStage::Asked),
            },
        }
    }

    /// Lets no thread be a worker whose thread is gone. The worker's job ends, also one that the
    /// thread has not seen. If the worker waits, it waits no longer. Starts jobs for workers that
    /// wait.
    pub fn lose(&mut self, worker: u32, now: u64) -> Result<Served, WrongState>
        ensures stopped { IfOk result (λ served. IsStopping now (stage_to_end
            (chair_of self.old worker) (worker_in self.old.board.pool worker)) worker served
            self.old.board self.new.board) }
        ensures moves { IfOk result (λ served. Moves (Some worker) self.old.board
            self.new.board) }
        ensures no_job { IfOk result (λ served. served.start ≡ None) }
        ensures sat { IfOk result (λ served. chair_of self.old worker ≢ Free) }
        ensures free { IfOk result (λ served. chair_of self.new worker ≡ Free) }
        ensures others { IfOk result (λ served. HasOtherChairs self.old self.new worker) }
        ensures wrong { IfErr result (λ why. chair_of self.old worker ≡ Free) }
        ensures same { IfErr result (λ why. IsSameDesk self.old self.new) }
    {
        let Some(stage) = self.stage_to_end(worker) else {
            return Err(WrongState);
        };
        let served = self.board.stop(worker, stage, now);
        put_chair(&mut self.chairs, worker, Chair::Free);
        Ok(served)
    }

    /// Lets a thread be its worker no longer. The worker's job ends. If the worker waits, it waits
    /// no longer. Starts jobs for workers that wait. Changes nothing if the worker got a job that
    /// the thread has not seen.
    pub fn rise(&mut self, worker: u32, now: u64) -> Result<Served, WrongState>
        ensures stopped { IfOk result (λ served. IsStopping now (stage_of
            (chair_of self.old worker)) worker served self.old.board self.new.board) }
        ensures moves { IfOk result (λ served. Moves (Some worker) self.old.board
            self.new.board) }
        ensures no_job { IfOk result (λ served. served.start ≡ None) }
        ensures sat { IfOk result (λ served. chair_of self.old worker ≢ Free) }
        ensures seen { IfOk result (λ served. HasUnseen self.old worker → ⊥) }
        ensures free { IfOk result (λ served. chair_of self.new worker ≡ Free) }
        ensures others { IfOk result (λ served. HasOtherChairs self.old self.new worker) }
        ensures wrong { IfErr result (λ why. (chair_of self.old worker ≡ Free)
            ⊎ HasUnseen self.old worker) }
        ensures same { IfErr result (λ why. IsSameDesk self.old self.new) }
    {
        if self.has_unseen(worker) {
            return Err(WrongState);
        }
        self.lose(worker, now)
    }
}
