//! Vectors of a fixed length, in memory of the heap or in words that a caller lends.
#![tactic(auto)]

mod chunk;
mod fixed;
mod home;
mod store;

pub use chunk::Chunk;
pub use fixed::FixedVec;
pub use store::Store;
