//! The contract of a block allocator that many threads use at once (`Floor`).
//!
//! Blocks that the stations of a `Floor` hold at the same time are aligned and do not overlap. Each
//! station has a record of the blocks that it was given. Once all stations have come back, every
//! block of the machine is free. The allocators that meet this contract are in crates of their own.
#![tactic(auto)]

mod floor;

pub use floor::Floor;
