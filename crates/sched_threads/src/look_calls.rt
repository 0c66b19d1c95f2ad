//! What threads read of a shared scheduler.

ghost use Rattle.std.specs.Prelude.{IfErr, IfOk};
ghost use Rattle.sched_threads.specs.Calls.{MadeTurn, Untimed, WasBarred};
ghost use Rattle.sched_threads.specs.Looks.{HasCounts, IsLookAnswer, Reads};

use crate::counts::SchedCounts;
use crate::desk::Desk;
use crate::receipt::{NotNow, TurnReceipt};
use crate::threads::Threads;
use sched_board::Forecast;

impl Desk {
    /// Returns what is known of when and where the job with a ticket runs. Returns `None` only if
    /// the ticket is of no job, or of one that is over.
    pub fn look(&self, ticket: u64) -> Option<Forecast>
        ensures { IsLookAnswer ticket result self.now.board.pool.core }
    {
        let scheduler = self.board.scheduler();
        let slot = scheduler.find(ticket)?;
        Some(scheduler.forecast(slot))
    }

    /// Returns how much the scheduler does.
    pub fn counts(&self) -> SchedCounts
        ensures { HasCounts result self.now.board.pool.core }
    {
        let scheduler = self.board.scheduler();
        SchedCounts {
            waiting: scheduler.waiting(),
            running: scheduler.running(),
            asked: scheduler.asked(),
            held: scheduler.held(),
            occupied: scheduler.occupied(),
        }
    }
}

impl Threads {
    /// Returns what is known of when and where the job with a ticket runs. That is `None` if the
    /// ticket is of no job, or of one that is over. Fails and does nothing if another thread has
    /// the turn.
    pub fn look(&self, ticket: u64) -> Result<(Option<Forecast>, TurnReceipt), NotNow>
        ensures made { IfOk result (λ done. MadeTurn self.now done.1 (Untimed (Reads (IsLookAnswer
            ticket done.0)))) }
        ensures barred { IfErr result (λ not_now. WasBarred self.now not_now.receipt) }
    {
        let mut seat = self.turns.arrive()?;
        let clocked = seat.slot_mut(&self.turns.table.shared, 0);
        let answer = clocked.desk.look(ticket);
        Ok((answer, self.turns.leave(seat)))
    }

    /// Returns how much the scheduler does. Fails and does nothing if another thread has the turn.
    pub fn counts(&self) -> Result<(SchedCounts, TurnReceipt), NotNow>
        ensures made { IfOk result (λ done. MadeTurn self.now done.1 (Untimed (Reads (HasCounts
            done.0)))) }
        ensures barred { IfErr result (λ not_now. WasBarred self.now not_now.receipt) }
    {
        let mut seat = self.turns.arrive()?;
        let clocked = seat.slot_mut(&self.turns.table.shared, 0);
        let answer = clocked.desk.counts();
        Ok((answer, self.turns.leave(seat)))
    }
}
