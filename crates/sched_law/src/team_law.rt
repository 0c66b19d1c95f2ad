//! The laws of a scheduler with workers.

ghost use Rattle.std.specs.Prelude.{◌≡◌, ℕ, ◌<◌, ◌≤◌, ◌⊎◌, List, ◌∷◌, true};
ghost use Rattle.sched_law.specs.declared.job.Place.TheVariants.{Absent};
ghost use Rattle.sched_law.specs.Law.{IsSafe};
ghost use Rattle.sched_law.specs.Team.{Deed, IsHistory, team_of};
ghost use Rattle.sched_law.specs.Team.Deed.{closes};
ghost use Rattle.sched_law.specs.Team.Does.{away};
ghost use Rattle.sched_law.specs.Outcome.{IsLeft, IsManned, WasCancelled, WasRun, cancels_of, starts_of};

/// Says that each history leads to a safe state. Each job that runs has exactly one worker, and
/// each job that a worker has runs. Worker numbers are below `workers`: all others are away.
pub fn deeds_are_safe()
    ensures safe { (dim patience workers : ℕ) (history : List Deed)
        → IsHistory dim patience workers history → IsSafe (team_of dim patience history).sched }
    ensures manned { (dim patience workers : ℕ) (history : List Deed)
        → IsHistory dim patience workers history → IsManned (team_of dim patience history) }
    ensures within { (dim patience workers : ℕ) (history : List Deed) (u : ℕ)
        → IsHistory dim patience workers history → workers ≤ u
        → (team_of dim patience history).does u ≡ away }
{}

/// Says that each submitted job waits, was started once, or was cancelled once. Nothing happened to
/// the numbers of jobs that were not submitted.
pub fn jobs_have_one_outcome()
    ensures submitted { (dim patience workers : ℕ) (history : List Deed) (j : ℕ)
        → IsHistory dim patience workers history
        → j < (team_of dim patience history).sched.next
        → IsLeft (team_of dim patience history) history j
        ⊎ (WasRun (team_of dim patience history) history j
        ⊎ WasCancelled (team_of dim patience history) history j) }
    ensures others { (dim patience workers : ℕ) (history : List Deed) (j : ℕ)
        → IsHistory dim patience workers history
        → (team_of dim patience history).sched.next ≤ j
        → (cancels_of history j ≡ 0) × (starts_of history j ≡ 0)
        × ((team_of dim patience history).sched.place j ≡ Absent) }
{}

/// Says that a closed scheduler gets no job, and stays closed.
pub fn no_job_comes_after_the_close()
    ensures close { (dim patience : ℕ) (history : List Deed)
        → (team_of dim patience (closes ∷ history)).closed ≡ true }
    ensures closed { (dim patience workers : ℕ) (deed : Deed) (history : List Deed)
        → IsHistory dim patience workers (deed ∷ history)
        → (team_of dim patience history).closed ≡ true
        → (team_of dim patience (deed ∷ history)).closed ≡ true }
    ensures next { (dim patience workers : ℕ) (deed : Deed) (history : List Deed)
        → IsHistory dim patience workers (deed ∷ history)
        → (team_of dim patience history).closed ≡ true
        → (team_of dim patience (deed ∷ history)).sched.next
        ≡ (team_of dim patience history).sched.next }
{}
