//! The occupancy of a machine.

use cube_shape::MAX_DIM;

/// The number of places of `Occupancy::free`: one for each dimension of any machine.
pub const FREE_PLACES: usize = MAX_DIM as usize + 1;

/// The occupancy of a machine: which blocks are free, and how many processors are held.
#[derive(Clone, Copy, Debug, PartialEq, Eq)]
pub struct Occupancy {
    /// The number of free blocks of each dimension, at the index of the dimension. It is 0 above
    /// that of the machine.
    pub free: [u64; FREE_PLACES],
    /// The number of processors in held blocks.
    pub held: u64,
    /// The largest dimension of a free block, if a block is free.
    pub largest: Option<u32>,
}
