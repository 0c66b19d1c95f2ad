//! The head of an image.

use cube_shape::MAX_BITMAP_DIM;

/// The number of places of `Head::maximal`: one for each dimension of any machine.
pub const COUNT_PLACES: usize = MAX_BITMAP_DIM as usize + 1;

/// The first word of a head: the letters `cjf` and the version of the format, `1`.
pub const IMAGE_MARK: u32 = 0x3166_6A63;

/// The words of an image before its rooms, in 96 bytes.
#[repr(C)]
#[derive(Clone, Copy, Debug, PartialEq, Eq)]
pub struct Head {
    /// `IMAGE_MARK`.
    pub mark: u32,
    /// The dimension of the machine.
    pub dim: u32,
    /// The number of maximal free blocks of each dimension, at the index of the dimension. A block
    /// is maximal if it is free and the block above it is not.
    pub maximal: [u32; COUNT_PLACES],
    /// Always 0.
    pub unused: u32,
}
