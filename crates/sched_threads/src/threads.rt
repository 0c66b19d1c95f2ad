//! The scheduler that threads share.

ghost use Rattle.std.specs.Prelude.{◌≡◌, ◌≤◌, IfErr, IfOk, IfSome};
ghost use Rattle.cube_shape.specs.declared.limits.TheConstants.{MAX_BITMAP_DIM};
ghost use Rattle.sched_board.specs.declared.workers.TheConstants.{MAX_WORKERS};
ghost use Rattle.sched_threads.specs.Turns.{IsCancelAnswer, IsSubmitAnswer};

use crate::desk::Desk;
use crate::receipt::{NotNow, TurnReceipt};
use crate::table::TurnTable;
use cube_shape::MAX_BITMAP_DIM;
use fixed_vec::Store;
use sched_board::{
    CancelError, Effect, JobRequest, MAX_SLOTS, MAX_WORKERS, SubmitError, ThreadSizes,
};
use std::alloc::{AllocError, Global};

/// A scheduler that threads share by reference.
#[derive(Drop)]
pub struct Threads {
    pub(crate) turns: TurnTable,
}

impl Threads {
    ghost use Rattle.sched_threads.specs.Calls.{MadeTurn, OnBoards, Timed, WasBarred};
    ghost use Rattle.sched_threads.specs.Handle.{sizes_of};
    ghost use Rattle.sched_threads.specs.Ends.{IsEnd, Leads};

    /// Creates a scheduler of these sizes. No job waits or runs, and no thread is a worker.
    pub fn new(alloc: Global, sizes: ThreadSizes) -> Result<Threads, AllocError>
        requires dim { sizes.dim ≤ MAX_BITMAP_DIM }
        requires jobs { sizes.jobs ≤ MAX_SLOTS }
        requires workers { sizes.workers ≤ MAX_WORKERS }
        ensures { IfOk result (λ made. sizes_of made.turns ≡ sizes) }
    {
        let mut store = Store::heap(alloc);
        let desk = Desk::new(&mut store, sizes)?;
        let turns = TurnTable::new(alloc, desk, &sizes)?;
        Ok(Threads { turns })
    }

    /// Submits a job, and starts jobs for workers that wait. Returns the job's ticket, or why it is
    /// not accepted. Fails and does nothing if another thread has the turn.
    pub fn submit(
        &self,
        request: JobRequest,
        now: u64,
    ) -> Result<(Result<(u64, Effect), SubmitError>, TurnReceipt), NotNow>
        ensures made { IfOk result (λ done. MadeTurn self.now done.1 (Timed now (λ time. OnBoards
            (IsSubmitAnswer time request done.0)))) }
        ensures barred { IfErr result (λ not_now. WasBarred self.now not_now.receipt) }
    {
        let mut seat = self.turns.arrive()?;
        let clocked = seat.slot_mut(&self.turns.table.shared, 0);
        clocked.clock = now.max(clocked.clock);
        let answer = clocked.desk.submit(request, clocked.clock);
        Ok((answer, self.turns.leave(seat)))
    }

    /// Removes a waiting job, and starts jobs for workers that wait. Returns the number that came
    /// with the job, or why it is not removed. Fails and does nothing if another thread has the
    /// turn.
    pub fn cancel(
        &self,
        ticket: u64,
        now: u64,
    ) -> Result<(Result<(u64, Effect), CancelError>, TurnReceipt), NotNow>
        ensures made { IfOk result (λ done. MadeTurn self.now done.1 (Timed now (λ time. OnBoards
            (IsCancelAnswer time ticket done.0)))) }
        ensures barred { IfErr result (λ not_now. WasBarred self.now not_now.receipt) }
    {
        let mut seat = self.turns.arrive()?;
        let clocked = seat.slot_mut(&self.turns.table.shared, 0);
        clocked.clock = now.max(clocked.clock);
        let answer = clocked.desk.cancel(ticket, clocked.clock);
        Ok((answer, self.turns.leave(seat)))
    }

    /// Ends the scheduler. Returns the desk, unless a thread never ended its turn.
    pub fn end(self) -> Option<Desk>
        ensures ended { IfSome result (IsEnd (sizes_of self.turns)) }
        ensures leads { IfSome result (λ desk. Leads (sizes_of self.turns) desk.board) }
    {
        let Threads { turns } = self;
        turns.end()
    }
}
