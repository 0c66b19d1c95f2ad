// What a seat of a locked allocator's table knows. No program makes a value of it.
use alloc_bits::AllocBits;
use cube_shape::Region;
use std::collections::LinkedList;

// The size of a machine.
#[derive(Clone, Copy)]
pub(crate) struct Size {
    pub dim: u32,
    pub stations: u32,
}

// The record of a station: what it is known to have done.
pub(crate) struct StationRecord {
    pub number: u32,
    // The blocks that it was given, in order.
    pub grants: LinkedList<Region>,
    // The block that it holds.
    pub holds: Option<Region>,
}

// The records that the seat carries, and the allocation that it found if it has taken the slot.
pub(crate) struct View {
    pub about: Size,
    pub stations: LinkedList<StationRecord>,
    pub found: Option<AllocBits>,
}
