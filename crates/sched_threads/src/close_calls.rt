//! How a shared scheduler closes.

ghost use Rattle.std.specs.Prelude.{IfErr, IfOk};
ghost use Rattle.sched_threads.specs.Turns.{IsCloseAnswer, IsSettled};
ghost use Rattle.sched_threads.specs.Calls.{MadeTurn, OnBoards, Timed, WasBarred};

use crate::receipt::{NotNow, TurnReceipt};
use crate::threads::Threads;
use sched_board::Effect;

impl Threads {
    /// Lets no job come any more. Those that wait start, or are given back by `give_back`. The
    /// effect is `None` if no job may come already. Fails and does nothing if another thread has
    /// the turn.
    pub fn close(&self, do_start: bool, now: u64) -> Result<(Option<Effect>, TurnReceipt), NotNow>
        ensures made { IfOk result (λ done. MadeTurn self.now done.1 (Timed now (λ time. OnBoards
            (IsCloseAnswer time do_start done.0)))) }
        ensures barred { IfErr result (λ not_now. WasBarred self.now not_now.receipt) }
    {
        let mut seat = self.turns.arrive()?;
        let clocked = seat.slot_mut(&self.turns.table.shared, 0);
        clocked.clock = now.max(clocked.clock);
        let answer = clocked.desk.close(do_start, clocked.clock);
        Ok((answer, self.turns.leave(seat)))
    }

    /// Starts jobs for workers that wait. Fails and does nothing if another thread has the turn.
    pub fn settle(&self, now: u64) -> Result<(Effect, TurnReceipt), NotNow>
        ensures made { IfOk result (λ done. MadeTurn self.now done.1 (Timed now (λ time. OnBoards
            (IsSettled time done.0)))) }
        ensures barred { IfErr result (λ not_now. WasBarred self.now not_now.receipt) }
    {
        let mut seat = self.turns.arrive()?;
        let clocked = seat.slot_mut(&self.turns.table.shared, 0);
        clocked.clock = now.max(clocked.clock);
        let answer = clocked.desk.settle(clocked.clock);
        Ok((answer, self.turns.leave(seat)))
    }
}
