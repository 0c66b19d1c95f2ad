//! A scheduler that threads share: the scheduler with its workers under a lock for which no call
//! waits.
//!
//! A call that finds the lock taken does nothing, and says so. Each other call makes one *turn*: it
//! changes what the threads share from one state to another. The turns of all threads form one
//! sequence, and each is made of deeds of `sched_law`.
#![tactic(auto)]

mod block_calls;
mod chair;
mod clocked;
mod close_calls;
mod counts;
mod desk;
mod desk_calls;
mod end_calls;
mod law;
mod look_calls;
mod plays;
mod receipt;
mod seating;
mod table;
#[cfg(test)]
mod tests;
mod threads;
mod view;
mod worker_calls;

pub use chair::Chair;
pub use counts::SchedCounts;
pub use desk::{Desk, WrongState};
pub use law::turns_are_a_history;
pub use receipt::{HiddenReceipt, NotNow, TurnReceipt};
pub use sched_board::{
    BlockError, CancelError, Effect, Forecast, JobRequest, RestJob, Served, SubmitError,
    ThreadSizes, ThreadStart, Woken,
};
pub use threads::Threads;
