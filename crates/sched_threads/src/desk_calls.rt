//! What threads that are no workers ask of a desk.

ghost use Rattle.std.specs.Prelude.{◌≡◌, None};
ghost use Rattle.sched_threads.specs.Turns.{IsCancelAnswer, IsCloseAnswer, IsPutBackAnswer, IsSettled, IsSubmitAnswer, IsTakeOutAnswer, Moves};

use crate::desk::Desk;
use sched_board::{BlockError, CancelError, Effect, JobRequest, Scheduler, SubmitError};

impl Desk {
    /// Returns the scheduler, to read it.
    pub fn scheduler(&self) -> &Scheduler
        ensures { result.now ≡ self.now.board.pool.core }
    {
        self.board.scheduler()
    }

    /// Submits a job, and starts jobs for workers that wait. Returns the job's ticket.
    pub fn submit(&mut self, request: JobRequest, now: u64) -> Result<(u64, Effect), SubmitError>
        ensures answer { IsSubmitAnswer now request result self.old.board self.new.board }
        ensures moves { Moves None self.old.board self.new.board }
        ensures chairs { self.new.chairs ≡ self.old.chairs }
    {
        self.board.accept(request, now)
    }

    /// Removes a waiting job, and starts jobs for workers that wait. Returns the number that came
    /// with the job.
    pub fn cancel(&mut self, ticket: u64, now: u64) -> Result<(u64, Effect), CancelError>
        ensures answer { IsCancelAnswer now ticket result self.old.board self.new.board }
        ensures moves { Moves None self.old.board self.new.board }
        ensures chairs { self.new.chairs ≡ self.old.chairs }
    {
        self.board.recall(ticket, now)
    }

    /// Takes a block out of service, and starts jobs for workers that wait.
    pub fn take_out(&mut self, base: u64, dim: u32, now: u64) -> Result<Effect, BlockError>
        ensures answer { IsTakeOutAnswer now base dim result self.old.board self.new.board }
        ensures moves { Moves None self.old.board self.new.board }
        ensures chairs { self.new.chairs ≡ self.old.chairs }
    {
        self.board.take_out(base, dim, now)
    }

    /// Puts a block back into service, and starts jobs for workers that wait.
    pub fn put_back(&mut self, base: u64, dim: u32, now: u64) -> Result<Effect, BlockError>
        ensures answer { IsPutBackAnswer now base dim result self.old.board self.new.board }
        ensures moves { Moves None self.old.board self.new.board }
        ensures chairs { self.new.chairs ≡ self.old.chairs }
    {
        self.board.put_back(base, dim, now)
    }

    /// Lets no job come any more. Those that wait start, or are given back by `give_back`. Returns
    /// `None` only if no job may come already.
    pub fn close(&mut self, do_start: bool, now: u64) -> Option<Effect>
        ensures answer { IsCloseAnswer now do_start result self.old.board self.new.board }
        ensures moves { Moves None self.old.board self.new.board }
        ensures chairs { self.new.chairs ≡ self.old.chairs }
    {
        self.board.shut(do_start, now)
    }

    /// Starts jobs for workers that wait.
    pub fn settle(&mut self, now: u64) -> Effect
        ensures answer { IsSettled now result self.old.board self.new.board }
        ensures moves { Moves None self.old.board self.new.board }
        ensures chairs { self.new.chairs ≡ self.old.chairs }
    {
        self.board.settle(now)
    }
}
