//! What holds of tickets.

ghost use Rattle.std.specs.Prelude.{ℕ};
ghost use Rattle.sched_law.specs.State.{Sched};
ghost use Rattle.sched_core.specs.declared.scheduler.Core.{Core as CoreData};
ghost use Rattle.sched_core.specs.Shows.{ShowsCore};
ghost use Rattle.cubejobs_plan.specs.Jobs.{HasRunningWith, HasWaitingWith};

/// Says that the job with a ticket does not both wait and run. So a ticket determines the code of
/// each call about it.
pub fn jobs_wait_or_run()
    ensures { (w : Sched) (core : CoreData) (ticket : ℕ) → ShowsCore w core
        → HasWaitingWith ticket core → HasRunningWith ticket core → ⊥ }
{}
