//! The codes of the answers, the version of the header, and the tags of handles.

/// The version of the header that this library is for. Any change of its structs or functions gets
/// another version.
pub const VERSION: u32 = 3;

/// The tag of an open handle of a machine. A handle with any other tag is shut.
pub const OPEN: u64 = 0x6375_6265_7265_6773;

/// The upper half of the tag of a handle that holds a block. The lower half says which one.
pub const HELD: u64 = 0x7265_6769;

/// The call succeeded.
pub const DONE: u32 = 0;

/// No block of this dimension was found free.
pub const NO_ROOM: u32 = 1;

/// No block was taken, and this says nothing of what is free: the take was a quick one, or other
/// calls were faster.
pub const NOT_NOW: u32 = 2;

/// The dimension is larger than that of the machine, or that of any machine. Or the block is one
/// processor, which has no halves.
pub const BAD_DIMENSION: u32 = 3;

/// No block of this dimension begins at this processor.
pub const BAD_BASE: u32 = 4;

/// A part of the block that was asked for was found in use.
pub const TAKEN: u32 = 5;

/// The handle holds no block.
pub const NOTHING_HELD: u32 = 6;

/// The handle holds a block already.
pub const HOLDS_ALREADY: u32 = 7;

/// The block is one of another machine.
pub const OTHER_MACHINE: u32 = 8;

/// The blocks are not the lower and the upper half of one block.
pub const NOT_HALVES: u32 = 9;

/// A block of the machine is held.
pub const STILL_HELD: u32 = 10;

/// Memory ran out.
pub const OUT_OF_MEMORY: u32 = 11;

/// The handle is not that of an open machine.
pub const NOT_OPEN: u32 = 12;

/// The handle is of the other kind: of a machine, or of a block.
pub const OTHER_KIND: u32 = 13;

/// The handle is open already.
pub const ALREADY_OPEN: u32 = 14;

/// The caller's header has another version than this library.
pub const BAD_VERSION: u32 = 15;
