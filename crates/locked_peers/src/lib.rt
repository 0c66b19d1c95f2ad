//! A bounded queue of jobs (`LockedLine`) and a block allocator (`LockedFloor`) under one lock
//! each, the plainest that meet the contracts `JobLine` and `Floor`.
//!
//! Measurements compare the lock-free ones with them, and tests run a dispatcher over them. The
//! lock (`LockedCell`) is a mutex around a value: threads take the value and give it back, one at a
//! time. The value is in the one slot of a table with one word. A seat takes it by one
//! compare-exchange of that word, and gives it back by one store. By that store the records that
//! the seat carries, which only proofs see, gain what was done. Each user's rule says what the
//! records mean. How a thread waits is decided in the lock alone.
#![tactic(auto)]

mod cell;
mod floor_bits;
mod floor_handle;
mod floor_lock;
mod floor_locked;
mod floor_members;
mod floor_plays;
mod floor_view;
mod line_handle;
mod line_locked;
mod line_members;
mod line_plays;
mod line_view;
mod rule;
mod store;
mod store_lock;

pub use cell::LockedCell;
pub use floor_handle::{FreeMachine, Held, LockedStation};
pub use floor_locked::LockedFloor;
pub use line_locked::LockedLine;
pub use rule::CellRule;
