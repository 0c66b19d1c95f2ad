//! The contract of a bounded queue of jobs for many producers and many consumers that can be closed
//! (`JobLine`).
//!
//! A queue has lanes (producer handles), which submit jobs, and passes (consumer handles), which
//! take them. An accepted job is taken at most once, and jobs of one lane are taken in order. No
//! job enters after the close. Contracts speak of records: what each lane and each pass is known to
//! have done. Queues that meet `JobLine` are crates of their own.
#![tactic(auto)]

mod job_line;
mod record;

pub use job_line::{JobLine, Opened, Receipt, Refused, Rest, Sizes, Taken};
pub use record::{Entry, LaneRecord, PassRecord, QueuedJob, Reading};
