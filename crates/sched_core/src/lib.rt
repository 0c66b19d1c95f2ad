//! A scheduler of aligned blocks as one value: what runs, what waits, and what starts next.
//!
//! It is a state of `sched_law` as `sched_blocks` and `sched_jobs` keep it, with the reservation
//! and the time. Each call says what it does to each state that the scheduler shows. Only `new`
//! allocates memory. A `JobRequest` is a job as callers ask for it.
#![tactic(auto)]

mod assigned;
mod choice;
mod forecast;
mod kept;
mod law;
mod request;
mod scheduler;
mod small;
mod start;

pub use assigned::{Assigned, Forecast};
pub use cube_shape::{MAX_BITMAP_DIM, Region};
pub use kept::Scheduler;
pub use law::announced_jobs_start;
pub use request::{JobRequest, is_askable, job_of};
pub use sched_jobs::{CLASSES, MAX_GENERATION, MAX_SLOTS, tickets_differ};
pub use sched_law::{NEVER, Place, SchedJob, SchedRun, SchedWait};
