//! Callers of a queue of jobs, proved from the contract `JobLine` alone: a producer, a consumer,
//! and a whole run. The run has two of each, on threads of their own.
mod draining;
mod feeding;
mod member;
mod pair;
mod running;

pub use draining::drain;
pub use feeding::feed;
pub use member::{CloserSlot, Feeder, Naming, Taker};
pub use running::{Finished, run};
