//! Exact first fit of aligned power-of-two blocks, in about `2 * n` steps of a tree. The tree is in
//! memory that the caller keeps (`image`), or it is a value (`FitTree`).
//!
//! Each aligned block of a machine of dimension `n` is a node of a binary tree, as in `cube_shape`.
//! The byte of a node is its room. It is `0` if the node was taken as one block, and `1` if no part
//! of it is free. It is `k + 2` if `k` is the largest dimension of a free aligned block within it.
//! Rooms below a taken node are as if it were free. A head has the number of maximal free blocks of
//! each dimension.
#![tactic(auto)]

mod apart;
mod checks;
mod counts;
mod errors;
mod fit;
mod head;
pub mod image;
mod names;
mod repairs;
mod rooms;
mod walks;
mod writes;

pub use cube_shape::{MAX_BITMAP_DIM, Region};
pub use errors::{JoinError, NoFitError, NotFreeError, NotHeldError, SplitError};
pub use fit::FitTree;
pub use head::{COUNT_PLACES, Head, IMAGE_MARK};
