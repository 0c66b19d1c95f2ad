//! The events of a run: when each job takes its block, and when it frees it.
//!
//! `Numbered` is a runner around another one. It numbers the begin and the end of each job.
//! `events_of` makes the events of a finished run, in the order of these numbers. A `JobEvent` is
//! written as a row of `place`.
#![tactic(auto)]

mod event;
mod listing;
mod numbers;

pub use event::{JobEvent, Step};
pub use listing::{events_of, room_for};
pub use numbers::{EventNumbers, Numbered};
