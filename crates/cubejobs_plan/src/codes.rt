//! The codes of the answers, the version of the header, and the tag of a handle.

/// The version of the header that this library is for. Any change of its structs or functions gets
/// another version.
pub const VERSION: u32 = 1;

/// The tag of an open handle of a planner on the heap.
pub const OPEN: u64 = 0x6375_6265_706C_616E;

/// The tag of an open handle of a planner in memory of the caller. A handle with any other tag is
/// shut.
pub const LENT: u64 = 0x6375_6265_706C_656E;

/// The call succeeded.
pub const DONE: u32 = 0;

/// Memory ran out.
pub const OUT_OF_MEMORY: u32 = 11;

/// The handle is not that of an open planner.
pub const NOT_OPEN: u32 = 12;

/// The handle is open already.
pub const ALREADY_OPEN: u32 = 14;

/// The caller's header has another version than this library.
pub const BAD_VERSION: u32 = 15;

/// There is no such job.
pub const NO_JOB: u32 = 19;

/// A number is out of range.
pub const OUT_OF_RANGE: u32 = 45;

/// The planner has as many jobs as it may have.
pub const FULL: u32 = 46;

/// The job waits or runs, or the block is free or in use.
pub const WRONG_STATE: u32 = 47;

/// The time is before that of the last decision.
pub const TIME_BACK: u32 = 48;
