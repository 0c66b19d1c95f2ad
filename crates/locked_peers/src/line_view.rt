// What a seat of a locked queue's table knows. No program makes a value of it.
use crate::store::Store;
use job_queue::{LaneRecord, PassRecord, Sizes};
use std::collections::LinkedList;

// The record of the closer: what it is known to have done.
pub(crate) struct CloserRecord {
    pub closed_at: Option<u64>,
}

// The records that the seat carries, and the state that it found if it has taken the slot.
pub(crate) struct View {
    pub about: Sizes,
    pub lanes: LinkedList<LaneRecord>,
    pub passes: LinkedList<PassRecord>,
    pub closers: LinkedList<CloserRecord>,
    pub found: Option<Store>,
}
