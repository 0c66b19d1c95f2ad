//! A first-fit allocator of aligned power-of-two blocks for one thread (`AllocBits`), over bits.
//!
//! The buddy strategy keeps an allocation bit for each processor. A request for dimension `k` finds
//! the least `m` such that all bits of the aligned block `(m, k)` are clear, and sets them. A
//! release clears them. Source: Chen and Shin, "Processor Allocation in an N-Cube Multiprocessor
//! Using Gray Codes", IEEE Transactions on Computers, 1987.
//!
//! `first_fit`, `set_region` and `clear_region` are these three steps over a slice of bits that the
//! caller keeps. Their contracts speak of all holdings that the bits represent. In an `AllocBits`
//! each block belongs to a station, and only that station can release it.
#![tactic(auto)]

mod alloc_bits;
mod bits;
mod limits;
mod regions;
mod slots;

pub use alloc_bits::{AllocBits, NoSubcube, NothingHeld};
pub use bits::{first_clear, is_clear, write};
pub use cube_shape::{MAX_DIM, MAX_STATIONS, Region};
pub use limits::MAX_BITS_DIM;
pub use regions::{clear_region, first_fit, set_region};
