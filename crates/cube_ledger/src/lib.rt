//! Accounting for a finished dispatcher (`Ledger`): how many jobs ran, on how many processors, and
//! how many of these were idle. And the occupancy of a machine.
//!
//! A `Slip` is what one reply adds to the totals. A `Ledger` has the slips of all replies, and sums
//! them by lane, by dimension and in all. `occupancy` says which blocks of a machine are free, and
//! how many processors are held. It reads the allocator's status words, from whatever source.
#![tactic(auto)]

mod counting;
mod ledger;
mod log;
mod regions;
mod slip;

pub use counting::occupancy;
pub use ledger::{Ledger, Totals};
pub use log::Log;
pub use regions::{FREE_PLACES, Occupancy};
pub use slip::Slip;
