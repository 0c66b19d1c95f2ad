//! A lock-free allocator of aligned power-of-two blocks over a tree of bitmaps, for any number of
//! threads.
//!
//! Each level of the tree has one bit for each unit of 64 times the size of the level below. A
//! block is a run of at most 32 bits in one word of one level, so one exchange claims it. A bit
//! that is set is held, or the word under it is open. The bits of an open word say which parts of
//! its unit are held.
//!
//! No call waits, and each call makes a bounded number of steps.
#![tactic(auto)]

mod block_takes;
mod comparison;
mod ends;
mod halves;
mod handles;
mod layout;
mod marks;
mod mask;
mod no_block;
mod opening;
mod parts;
mod permits;
mod releases;
mod rule;
mod scan;
mod search;
mod spares;
mod steps;
mod sweep;
mod takes;
mod view;

pub use cube_shape::{MAX_BITMAP_DIM, Region};
pub use handles::{BitmapTree, HeldBlock, Permit, Refused, Released};
pub use parts::BlockView;
pub use steps::{BlankSeat, BlockSeat, HiddenSeat};
pub use view::Run;
