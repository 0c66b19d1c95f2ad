// The records of lanes, of passes and of the end of a ring: plain data that only contracts see.
use std::collections::LinkedList;

/// The record of a lane: what it is known to have done. No program makes a value of it.
pub struct LaneRecord<T> {
    /// The lane's number.
    pub number: u32,
    /// The pieces that it put in, in order.
    pub accepted: LinkedList<T>,
}

/// The record of a pass: what it is known to have done. No program makes a value of it.
pub struct PassRecord<T> {
    /// The pass's number.
    pub number: u32,
    /// The pieces that it took, in order.
    pub taken: LinkedList<T>,
}

/// What came out at the ring's end. No program makes a value of it.
pub struct RestRecord<T> {
    /// The pieces, in order.
    pub drained: LinkedList<T>,
}
