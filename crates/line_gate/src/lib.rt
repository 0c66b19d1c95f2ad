//! A sequencer for a lock-free queue (`Gate`): producers take entry numbers (tickets) from it, and
//! consumers learn from it that the queue has ended.
//!
//! It is two words. The first counts entries and has the closed mark, the second counts settled
//! entries. A lane makes an entry by one step on the first word and settles it by one step on the
//! second. In between, the entry is a value: only the outcome of its push can settle it. The closer
//! sets the mark. A pass that reads the mark, with as many entries settled as counted, knows that
//! all entries are settled. Each call is one atomic step and never waits.
#![tactic(auto)]

mod entered;
mod gate;
mod handle;
mod record;
mod rule;
mod steps;
mod view;

pub use entered::{Entered, EnteredLate, Pushed};
pub use gate::{Counts, Gate, Witness};
pub use handle::{GateCloser, GateEnd, GateLane, GateMembers, GateNote, GatePass};
pub use record::{LaneEntries, PassReadings, Reading, SettledEntry};
pub use steps::EntryCount;
