//! What the libraries for C need to hide a box by an address in a handle.
#![tactic(auto)]

mod parts;

pub use parts::Parts;
