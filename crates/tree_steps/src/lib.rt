//! The atomic steps of the lock-free block allocator. Each is one load, store, compare-exchange or
//! fetch on one shared word.
//!
//! Each event of `cube_core` is one such step. Stations step with a *seat* of the table of words: a
//! token without bytes that carries what is known of its stations. No step waits for another.
#![tactic(auto)]

mod events;
mod once;
mod rule;
mod seats;
mod takes;
mod tree;
mod view;
mod why;

pub use rule::TreeRule;
pub use tree::{Seat, Tree};
pub use view::{Entry, Peek, Size, View};
pub use why::Why;
