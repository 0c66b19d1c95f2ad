//! The lock-free allocator of the bitmap tree for callers in C, C++ and Rust, as a static library.
#![tactic(auto)]

mod aligned;
mod answer;
mod block_exports;
mod block_handle;
mod codes;
mod common;
mod ends;
mod gives;
mod halves;
mod handle;
mod holding;
mod law;
mod machine;
mod machine_exports;
mod occupancy;
mod opaque_ptr;
mod owner;
mod ownership;
mod places;
mod state;
mod tag;
mod take_exports;
mod takes;
mod version;

pub use answer::{Answer, OccupancyAnswer};
pub use block_exports::{
    cubejobs_regions_block, cubejobs_regions_join, cubejobs_regions_release, cubejobs_regions_split,
};
pub use block_handle::BlockHandle;
pub use codes::{DONE, OPEN, VERSION};
pub use handle::Handle;
pub use law::apart;
pub use machine_exports::{
    cubejobs_regions_free, cubejobs_regions_open_version, cubejobs_regions_share,
};
pub use occupancy::cubejobs_regions_occupancy;
pub use take_exports::{
    cubejobs_regions_take, cubejobs_regions_take_at, cubejobs_regions_take_exact,
};
pub use version::cubejobs_regions_version_number;
