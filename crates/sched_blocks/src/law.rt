//! What changes no block.

ghost use Rattle.std.specs.Prelude.{◌≡◌, ℕ};
ghost use Rattle.cube_shape.specs.declared.region.Region.{Region};
ghost use Rattle.sched_law.specs.declared.job.SchedJob.{SchedJob as JobData};
ghost use Rattle.sched_law.specs.declared.job.SchedWait.{SchedWait as WaitData};
ghost use Rattle.sched_law.specs.State.{Sched, Waits, at, cancel, pass, reserve, submit};
ghost use Rattle.sched_law.specs.Policy.{IsHead, Prepares};
ghost use Rattle.sched_law.specs.Law.{IsSafe, IsSound};
ghost use Rattle.sched_blocks.specs.Layout.{Layout};
ghost use Rattle.sched_blocks.specs.Shows.{Shows};

/// Says that blocks still show the state after a call that is not about them. So they do after a
/// job passes the head, or a block is reserved.
pub fn other_calls_change_no_block()
    ensures safe { (w : Sched) (b : Layout) → Shows w b → IsSafe w }
    ensures submit { (w : Sched) (b : Layout) (job : JobData) → Shows w b → IsSound w.dim job
        → Shows (submit job w) b }
    ensures cancel { (w : Sched) (b : Layout) (j : ℕ) (wait : WaitData) → Shows w b
        → Waits w j wait → Shows (cancel j w) b }
    ensures at { (w : Sched) (b : Layout) (t : ℕ) → Shows w b → Shows (at t w) b }
    ensures pass { (w : Sched) (b : Layout) (h : ℕ) (head : WaitData) (k : ℕ) → Shows w b
        → Waits w h head → Shows (pass h head k w) b }
    ensures reserve { (w : Sched) (b : Layout) (j : ℕ) (r : Region) → Shows w b
        → IsSafe (reserve j r w) → Shows (reserve j r w) b }
    ensures prepare { (w v : Sched) (b : Layout) (h : ℕ) (head : WaitData) → Shows w b
        → IsHead w h head → Prepares w h head v → Shows v b }
{}
