//! The codes of the answers. The libraries for C share one row of numbers: a number has one meaning
//! in all of them.

/// The call succeeded.
pub const DONE: u32 = 0;

/// A part of each block of this dimension is in use.
pub const NO_ROOM: u32 = 1;

/// The dimension is larger than that of the machine, or that of any machine, or the block has no
/// halves.
pub const BAD_DIMENSION: u32 = 3;

/// No block of the dimension begins at this processor.
pub const BAD_BASE: u32 = 4;

/// A part of the block is in use.
pub const TAKEN: u32 = 5;

/// No such block is held.
pub const NOTHING_HELD: u32 = 6;

/// The two halves are not both held as one block each.
pub const NOT_HALVES: u32 = 9;

/// A machine of this dimension has another number of rooms.
pub const BAD_SIZE: u32 = 50;

/// The bytes are not an image of this dimension.
pub const BAD_IMAGE: u32 = 51;
