//! Occupancy of a machine of the bitmap tree: which blocks are free, and how many processors are
//! held. Each word is read once, and counted as it is read.
#![tactic(auto)]

mod counter;
mod pass;
mod processors;
mod summary;
mod totals;

pub use summary::{FREE_PLACES, Occupancy};
pub use totals::occupancy;
