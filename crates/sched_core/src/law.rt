//! What holds of announcements.

ghost use Rattle.std.specs.Prelude.{◌≡◌, ℕ, Option};
ghost use Rattle.sched_law.specs.State.{Sched, at};
ghost use Rattle.sched_law.specs.Policy.{Decides};
ghost use Rattle.sched_core.specs.declared.assigned.Assigned.{Assigned as AssignedData};
ghost use Rattle.sched_core.specs.declared.scheduler.Core.{Core as CoreData};
ghost use Rattle.sched_core.specs.Answers.{IsAnnounced, answer_of, slot_of};

/// Says that `next`, called after `peek` at the same time, starts the job that `peek` returned, and
/// leaves the announced state. So this job gets the announced block.
pub fn announced_jobs_start()
    ensures { (t : ℕ) (w v u after : Sched) (core : CoreData) (answer : Option AssignedData)
        (started : Option ℕ) → IsAnnounced (at t w) v u core answer → Decides (at t v) started after
        → (started ≡ answer_of core (slot_of answer)) × (after ≡ u) }
{}
