//! The tests. Expected values are worked out by hand.

mod listings;
