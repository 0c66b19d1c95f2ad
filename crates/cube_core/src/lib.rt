//! The lock-free block allocator as a pure state machine: a tree of status words that events
//! change. An event is a single atomic step.
//!
//! Each node of the tree of aligned blocks has a status word, and each station has a phase. To take
//! the block of a node, a station makes a Look and a Claim at the node. Then it makes a Sweep and a
//! Raise at each ancestor on the way up. To release the block, it makes a Zero at the node. Then it
//! makes an Unmark, a Mark, a look at both children and a Clear at each ancestor, as long as the
//! ancestors become free.
//!
//! Between two events of a station, other stations may make any events. The proofs hold for every
//! order.
#![tactic(auto)]

mod act;
mod effect;
mod event;
mod phase;
mod world;

pub use act::{Act, Refused};
pub use cube_shape::{MAX_DIM, MAX_STATIONS};
pub use event::{Event, Kind, Note};
pub use phase::{Phase, Seen};
pub use status_word::Word;
pub use world::{World, calls_are_single_events, every_schedule_is_lawful};
