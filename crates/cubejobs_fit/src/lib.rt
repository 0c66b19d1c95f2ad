//! The exact block allocator over memory of the caller, for C, C++ and Rust. It takes the first fit
//! over aligned power-of-two blocks, and allocates no memory.
//!
//! The caller passes an image to each call: its head, and a room for each node. A bad argument
//! gives a code, and any bytes are safe. `include/cubejobs_fit.h` declares these functions for C
//! and C++, and the package `rust/` wraps them for Rust.
#![tactic(auto)]

mod answer;
mod codes;
mod counts;
mod faults;
mod held;
mod looks;
mod occupancy;
mod open;
mod take;
mod version;

pub use answer::Answer;
pub use codes::{
    BAD_BASE, BAD_DIMENSION, BAD_IMAGE, BAD_SIZE, DONE, NO_ROOM, NOT_HALVES, NOTHING_HELD, TAKEN,
};
pub use counts::{cubejobs_image_free_blocks, cubejobs_image_largest};
pub use held::{cubejobs_image_join, cubejobs_image_release, cubejobs_image_split};
pub use looks::{
    cubejobs_image_block_with, cubejobs_image_first, cubejobs_image_first_apart,
    cubejobs_image_is_free,
};
pub use occupancy::{OccupancyAnswer, cubejobs_image_occupancy};
pub use open::{
    HEAD_BYTES, cubejobs_fit_bytes, cubejobs_image_check, cubejobs_image_open,
    cubejobs_image_repair,
};
pub use take::{cubejobs_image_take, cubejobs_image_take_at};
pub use version::cubejobs_fit_version_number;
