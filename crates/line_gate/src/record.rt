// The records of lanes and passes at a gate: plain data that only contracts see.
use std::collections::LinkedList;

/// A settled entry of a lane. No program makes a value of it.
pub struct SettledEntry {
    /// The number of entries that all lanes made before it.
    pub number: u64,
    /// Whether its job was accepted.
    pub accepted: bool,
}

/// The record of a lane at the gate: what it is known to have done. No program makes a value of it.
pub struct LaneEntries {
    /// The lane's number.
    pub number: u32,
    /// Its settled entries, in order.
    pub entries: LinkedList<SettledEntry>,
    /// The number of an entry that is not settled yet.
    pub pending: Option<u64>,
    /// Whether it made an entry after the close and has not undone it.
    pub late: bool,
    /// Each count of entries that it read together with the closed mark, in order.
    pub seen: LinkedList<u64>,
}

/// What a pass read at the gate. No program makes a value of it.
pub struct Reading {
    /// The number of settled entries.
    pub settled: u64,
    /// The number of counted entries, read after `settled`.
    pub counted: u64,
    /// Whether the gate was closed, read with `counted`.
    pub closed: bool,
}

/// The record of a pass at the gate: what it is known to have done. No program makes a value of it.
pub struct PassReadings {
    /// The pass's number.
    pub number: u32,
    /// The number of settled entries that it read, if it has not read the count of entries since.
    pub settled: Option<u64>,
    /// Its readings, in order.
    pub readings: LinkedList<Reading>,
}
