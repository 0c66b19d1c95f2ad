//! A thread pool that runs a dispatcher: lists of jobs in, all of their replies out.
//!
//! The workers submit the jobs of all lanes and run them. The calling thread is the first worker,
//! and each other one has a thread of its own. Nothing is lost, even if a thread cannot be started
//! or memory runs out.
#![tactic(auto)]

mod answering;
mod feeding;
mod member;
mod members;
mod pace;
mod ready;
mod running;
mod shared;
mod slots;
mod threads;

pub use answering::{RunError, StopReason, answer_all};
pub use running::{LaneEnd, RunEnd, run};
pub use shared::{SharedFloor, SharedLine};
