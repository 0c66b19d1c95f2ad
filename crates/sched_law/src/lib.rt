//! The policy of a scheduler of aligned blocks, and what follows from it: jobs in order, and
//! backfill around one reserved block.
//!
//! This crate has no state. A contract says what a scheduler may decide in a state, and the laws
//! say what holds of each decision. Source of backfill with one reservation (EASY): Lifka, "The
//! ANL/IBM SP Scheduling System", 1995.
//!
//! A team is a scheduler with workers. A history of it is a list of deeds: what each call did. The
//! laws of `team_law` hold of each history in which each deed was allowed.
#![tactic(auto)]

mod job;
mod law;
mod team_law;

pub use job::{NEVER, Place, Reservation, SchedJob, SchedRun, SchedWait};
pub use law::{
    calls_are_safe, decisions_are_one, decisions_end, few_pass_the_head, no_work_is_withheld,
    order_is_kept, promises_are_kept, reserved_blocks_drain, usable_jobs_start,
};
pub use team_law::{deeds_are_safe, jobs_have_one_outcome, no_job_comes_after_the_close};
