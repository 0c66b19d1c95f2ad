//! The scheduler for threads for callers in C, C++ and Rust, as a static library.
//!
//! An export checks the handle and the time, and calls a function over the scheduler in it. No call
//! waits: while another thread has the turn, a call does nothing and says so.
#![tactic(auto)]

mod answer;
mod answers;
mod block_exports;
mod close_exports;
mod closing;
mod codes;
mod ends;
mod handle;
mod job_exports;
mod jobs;
mod leave_exports;
mod leaving;
mod look_answers;
mod look_exports;
mod looking;
mod opaque_ptr;
mod open_exports;
mod options;
mod ownership;
mod places;
mod serving;
mod state;
mod work_exports;
mod worker_answers;
mod working;

pub use answer::{CountsAnswer, SchedAnswer, SchedForecast};
pub use block_exports::{cubejobs_sched_try_occupy, cubejobs_sched_try_vacate};
pub use close_exports::{
    cubejobs_sched_try_close, cubejobs_sched_try_rest, cubejobs_sched_try_settle,
};
pub use codes::{DONE, OPEN, VERSION};
pub use handle::Handle;
pub use job_exports::{cubejobs_sched_try_cancel, cubejobs_sched_try_submit};
pub use leave_exports::{
    cubejobs_sched_try_done, cubejobs_sched_try_leave, cubejobs_sched_try_lost,
};
pub use look_exports::{cubejobs_sched_try_counts, cubejobs_sched_try_forecast};
pub use open_exports::{
    cubejobs_sched_open_version, cubejobs_sched_share, cubejobs_sched_try_free,
};
pub use options::SchedOptions;
pub use sched_threads::JobRequest;
pub use work_exports::{
    cubejobs_sched_try_give_up, cubejobs_sched_try_next, cubejobs_sched_try_worker,
};
