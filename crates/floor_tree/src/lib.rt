//! A lock-free block allocator for the workers of a dispatcher (`TreeFloor`): the tree of status
//! words, with a station for each worker.
//!
//! `TreeFloor` implements `Floor`. Its stations are stations of the tree. The grants of a station
//! are read from the events that it made: each take of a node that it came to hold.
#![tactic(auto)]

mod floor_tree;

pub use cube_tree::{FreeMachine, Subcube, TreeStation};
pub use floor_tree::TreeFloor;
