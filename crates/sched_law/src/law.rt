//! The laws of the policy.

ghost use Rattle.std.specs.Prelude.{◌≡◌, ◌≢◌, ℕ, ◌+◌, ◌*◌, ◌^◌, ◌<◌, ◌≤◌, Option, Some, None};
ghost use Rattle.cube_shape.specs.declared.region.Region.{Region};
ghost use Rattle.cube_shape.specs.Region.{AreApart, IsAligned};
ghost use Rattle.sched_law.specs.declared.job.TheConstants.{NEVER as LAST};
ghost use Rattle.sched_law.specs.declared.job.SchedJob.{SchedJob as JobData};
ghost use Rattle.sched_law.specs.declared.job.SchedWait.{SchedWait as WaitData};
ghost use Rattle.sched_law.specs.declared.job.SchedRun.{SchedRun as RunData};
ghost use Rattle.sched_law.specs.declared.job.Reservation.{Reservation as ReservationData};
ghost use Rattle.sched_law.specs.State.{Sched, IsVacant, Runs, Waits, at, cancel, finish, initial, occupy, submit, vacate};
ghost use Rattle.sched_law.specs.Policy.{AllEndBy, Decides, HasNone, IsHead, IsLatest, IsServable, IsSettled, RunsIn};
ghost use Rattle.sched_law.specs.Law.{IsLate, IsNoLarger, IsPunctual, IsSafe, IsSound, waiting};

/// Says that each call keeps a state safe: held blocks and those out of service are aligned and
/// apart. A running job has a block of its size, and a job is in one place. A block is reserved
/// only for a waiting job, and is in service.
pub fn calls_are_safe()
    ensures initial { (n patience : ℕ) → IsSafe (initial n patience) }
    ensures submit { (w : Sched) (job : JobData) → IsSafe w → IsSound w.dim job
        → IsSafe (submit job w) }
    ensures cancel { (w : Sched) (j : ℕ) (wait : WaitData) → IsSafe w → Waits w j wait
        → IsSafe (cancel j w) }
    ensures finish { (w : Sched) (j : ℕ) (run : RunData) → IsSafe w → Runs w j run
        → IsSafe (finish j w) }
    ensures occupy { (w : Sched) (r : Region) → IsSafe w → IsAligned w.dim r → IsVacant w r
        → IsSafe (occupy r w) }
    ensures vacate { (w : Sched) (r : Region) → IsSafe w → w.occupied r.base ≡ Some r
        → IsSafe (vacate r w) }
    ensures at { (w : Sched) (t : ℕ) → IsSafe w → IsSafe (at t w) }
    ensures decide { (w v : Sched) (answer : Option ℕ) → IsSafe w → Decides w answer v → IsSafe v }
{}

/// Says that in a settled state no block is free for the head. If another waiting job has a free
/// block, this meets the reserved one. The job would end after the promise, or one of the two is
/// not known.
pub fn no_work_is_withheld()
    ensures head { (w : Sched) (h : ℕ) (head : WaitData) → IsSettled w → IsHead w h head
        → HasNone w.dim head.job.dim (IsVacant w) }
    ensures reserved { (w : Sched) (j : ℕ) (wait : WaitData) (r : Region) → IsSafe w
        → IsSettled w → Waits w j wait → (IsHead w j wait → ⊥) → IsAligned w.dim r → r.dim ≡ wait.job.dim
        → IsVacant w r → (reserved : ReservationData) × (w.reserved ≡ Some reserved) }
    ensures meets { (w : Sched) (j : ℕ) (wait : WaitData) (r : Region) (reserved : ReservationData)
        → IsSafe w → IsSettled w → Waits w j wait → (IsHead w j wait → ⊥)
        → IsAligned w.dim r → r.dim ≡ wait.job.dim → IsVacant w r → w.reserved ≡ Some reserved
        → AreApart reserved.block r → ⊥ }
    ensures late { (w : Sched) (j : ℕ) (wait : WaitData) (r : Region) (reserved : ReservationData)
        → IsSafe w → IsSettled w → Waits w j wait → (IsHead w j wait → ⊥)
        → IsAligned w.dim r → r.dim ≡ wait.job.dim → IsVacant w r → w.reserved ≡ Some reserved
        → IsLate w wait.job reserved.block }
{}

/// Says that no job without an end starts in a reserved block.
pub fn reserved_blocks_drain()
    ensures { (w v : Sched) (j : ℕ) (run : RunData) (reserved : ReservationData)
        → Decides w (Some j) v → v.reserved ≡ Some reserved → RunsIn v reserved.block j run
        → run.end < LAST }
{}

/// Says that the promise of a reserved block never grows. If all jobs in the block end by a time,
/// they still do so after each call. No job starts in it at that time or later. If no running job's
/// end has passed, a settled state is not later than the promise.
pub fn promises_are_kept()
    ensures submit { (w : Sched) (job : JobData) (r : Region) (t : ℕ)
        → AllEndBy w r t → AllEndBy (submit job w) r t }
    ensures cancel { (w : Sched) (j : ℕ) (r : Region) (t : ℕ)
        → AllEndBy w r t → AllEndBy (cancel j w) r t }
    ensures finish { (w : Sched) (j : ℕ) (r : Region) (t : ℕ)
        → AllEndBy w r t → AllEndBy (finish j w) r t }
    ensures occupy { (w : Sched) (out r : Region) (t : ℕ)
        → AllEndBy w r t → AllEndBy (occupy out w) r t }
    ensures vacate { (w : Sched) (out r : Region) (t : ℕ)
        → AllEndBy w r t → AllEndBy (vacate out w) r t }
    ensures decide { (w v : Sched) (answer : Option ℕ) (reserved : ReservationData) (t : ℕ)
        → Decides w answer v → w.reserved ≡ Some reserved → v.reserved ≡ Some reserved
        → AllEndBy w reserved.block t → AllEndBy v reserved.block t }
    ensures early { (w v : Sched) (j : ℕ) (run : RunData) (reserved : ReservationData) (t : ℕ)
        → Decides w (Some j) v → v.reserved ≡ Some reserved
        → RunsIn v reserved.block j run → AllEndBy w reserved.block t → w.now < t }
    ensures kept { (w : Sched) (reserved : ReservationData) (t : ℕ) → IsSafe w → IsSettled w
        → w.reserved ≡ Some reserved → IsPunctual w → AllEndBy w reserved.block t → w.now ≤ t }
{}

/// Says that a start leaves no older job waiting that needs no more processors, is of no higher
/// class number and has no longer estimate.
pub fn order_is_kept()
    ensures { (w v : Sched) (i j : ℕ) (older wait : WaitData) → IsSafe w → Decides w (Some j) v
        → Waits w j wait → i < j → Waits w i older → IsNoLarger older.job wait.job → ⊥ }
{}

/// Says that less than `patience + 1/2` times the machine passes a job while it is the head and no
/// block is reserved.
pub fn few_pass_the_head()
    ensures { (w v : Sched) (h j : ℕ) (head after : WaitData) → IsSafe w → Decides w (Some j) v
        → v.reserved ≡ None → IsHead w h head → j ≢ h → Waits v h after
        → 2 * after.passed < (2 * w.patience + 1) * 2 ^ w.dim }
{}

/// Says that a state has at most one decision: the job that starts and the state after it are
/// fixed.
pub fn decisions_are_one()
    ensures { (w u v : Sched) (a b : Option ℕ) → Decides w a u → Decides w b v
        → (a ≡ b) × (u ≡ v) }
{}

/// Says that each start lowers the number of waiting jobs. A decision that starts nothing leaves a
/// settled state, which stays so as time passes.
pub fn decisions_end()
    ensures start { (w v : Sched) (j : ℕ) → IsSafe w → Decides w (Some j) v
        → waiting v + 1 ≡ waiting w }
    ensures settled { (w v : Sched) → Decides w None v → IsSettled v }
    ensures later { (w : Sched) (t : ℕ) → IsSettled w → w.now ≤ t → IsSettled (at t w) }
{}

/// Says that a settled state in which no job runs has no waiting job with a usable block. So if
/// jobs end and none arrive, each job starts for which there is such a block.
pub fn usable_jobs_start()
    ensures { (w : Sched) (j : ℕ) (wait : WaitData) → IsSafe w → IsSettled w
        → ((i : ℕ) (run : RunData) → Runs w i run → ⊥) → IsServable w j wait → ⊥ }
{}
