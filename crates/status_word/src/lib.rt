//! The status words of the block allocator's tree: their bits, tests and text.
//!
//! Each node of the tree has a word of 64 bits. Bit 0 (OCC) says that a station has claimed exactly
//! the node's block. Bits 1 and 2 (LEFT and RIGHT) say that something in the left or right half may
//! be in use. Bit `8 + s` is the mark of station `s`. A word is free if OCC, LEFT and RIGHT are
//! clear, whatever its marks are.
#![tactic(auto)]

mod use_bits;
mod word;

pub use cube_shape::{MAX_STATIONS, Side};
pub use use_bits::UseBits;
pub use word::{Word, flags_are_the_bits_of_use};
