//! The scheduler of jobs in aligned blocks for callers in C, C++ and Rust, as a static library.
//!
//! An export checks the handle, and calls a function over the scheduler in it.
#![tactic(auto)]

mod answer;
mod answers;
mod block_exports;
mod codes;
mod counting;
mod end_exports;
mod ending;
mod handle;
mod job_exports;
mod law;
mod look_exports;
mod looking;
mod next_exports;
mod opaque_ptr;
mod open_exports;
mod opening;
mod options;
mod places;
mod planner;
mod serving;
mod starting;
mod states;
mod submitting;

pub use answer::{PlanCounts, PlanJob};
pub use block_exports::{cubejobs_plan_occupy, cubejobs_plan_vacate};
pub use codes::{DONE, LENT, OPEN, VERSION};
pub use end_exports::{cubejobs_plan_cancel, cubejobs_plan_finish};
pub use fixed_vec::Chunk;
pub use handle::Handle;
pub use job_exports::cubejobs_plan_submit;
pub use law::jobs_wait_or_run;
pub use look_exports::{cubejobs_plan_after, cubejobs_plan_counts, cubejobs_plan_forecast};
pub use next_exports::cubejobs_plan_next;
pub use open_exports::{cubejobs_plan_bytes, cubejobs_plan_close, cubejobs_plan_open_version};
pub use options::Options;
pub use sched_core::JobRequest;
