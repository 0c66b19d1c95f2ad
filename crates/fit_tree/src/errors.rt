//! The reasons why a call is refused.

use thiserror::Error;

/// No aligned block of this dimension is free: each overlaps a held block.
#[derive(Clone, Copy, Debug, PartialEq, Eq, Error)]
#[error("no free block of this dimension")]
pub struct NoFitError;

/// The block overlaps a held block.
#[derive(Clone, Copy, Debug, PartialEq, Eq, Error)]
#[error("the block is not free")]
pub struct NotFreeError;

/// The block is not held as one block.
#[derive(Clone, Copy, Debug, PartialEq, Eq, Error)]
#[error("the block is not held")]
pub struct NotHeldError;

/// The reason why a block cannot be split.
#[derive(Clone, Copy, Debug, PartialEq, Eq, Error)]
pub enum SplitError {
    /// The block is not held as one block.
    #[error("the block is not held")]
    NotHeld,
    /// A block of one processor has no halves.
    #[error("a block of one processor has no halves")]
    OneProcessor,
}

/// The reason why the halves of a block cannot be joined.
#[derive(Clone, Copy, Debug, PartialEq, Eq, Error)]
pub enum JoinError {
    /// A half of the block is not held as one block.
    #[error("a half of the block is not held")]
    NotHeld,
    /// A block of one processor has no halves.
    #[error("a block of one processor has no halves")]
    OneProcessor,
}
