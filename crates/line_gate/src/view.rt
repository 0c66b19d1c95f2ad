// What a seat of a gate's table knows. No program makes a value of it.
use crate::record::{LaneEntries, PassReadings};
use std::collections::LinkedList;

// The record of the closer: what it is known to have done.
pub(crate) struct CloserRecord {
    pub closed_at: Option<u64>,
}

// The records that the seat carries.
pub(crate) struct View {
    pub lanes: LinkedList<LaneEntries>,
    pub passes: LinkedList<PassReadings>,
    pub closers: LinkedList<CloserRecord>,
}
