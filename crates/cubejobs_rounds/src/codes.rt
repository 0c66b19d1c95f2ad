//! The codes of the answers. The libraries for C share one row of numbers: a number has one meaning
//! in all of them.

/// The call succeeded.
pub const DONE: u32 = 0;

/// No shape has this number.
pub const BAD_SHAPE: u32 = 55;

/// The dimension is not below `DIM_LIMIT`.
pub const BAD_DIMENSION: u32 = 3;

/// The root is no rank of the collective.
pub const BAD_ROOT: u32 = 56;

/// The rank is none of the collective.
pub const BAD_RANK: u32 = 57;

/// The round is not below the dimension.
pub const BAD_ROUND: u32 = 58;

/// The number is not below that of the messages.
pub const BAD_NUMBER: u32 = 59;
