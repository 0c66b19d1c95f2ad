//! A lock-free buddy allocator of aligned power-of-two blocks (subcubes) for many threads.
//!
//! A `Cube` is a machine: a tree of status words that threads share. Each of its stations takes and
//! releases the block of one node at a time. Each atomic step of a call is an event of the pure
//! machine `cube_core`. So what is proved there for every order of events holds for running
//! threads. Blocks that stations hold at the same time do not overlap. Once all stations have
//! retired, every block is free.
#![tactic(auto)]

mod comparison;
mod ends;
mod handles;
mod opening;
mod refusal;
mod refused;
mod search;
mod solo;
mod solo_calls;
mod solo_ends;
mod takes;
mod tries;

pub use comparison::apart;
pub use handles::{Cube, FreeMachine, RetiredStation, StillOut, Subcube, TreeStation};
pub use refusal::Refusal;
pub use refused::{CubeRefused, SoloRefused};
pub use solo::Solo;
pub use tree_steps::Why;
