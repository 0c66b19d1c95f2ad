use cube_core::{Event, Phase};
use std::collections::LinkedList;

/// What a peek found: the word of a node, by a load that is no event. No program makes a value of
/// it.
pub struct Peek {
    pub node: u64,
    pub word: u64,
}

/// What a seat knows of a station: its number, its phase, and all its events and peeks, the newest
/// first. No program makes a value of it.
pub struct Entry {
    pub station: u64,
    pub phase: Phase,
    pub trail: LinkedList<Event>,
    pub peeks: LinkedList<Peek>,
}

/// What a seat knows. No program makes a value of it.
pub struct View {
    /// The stations that step with this seat, the one that steps next first.
    pub stations: LinkedList<Entry>,
    /// What its loads of the roll found, the newest first.
    pub loads: LinkedList<u64>,
    /// Whether all stations are known to be with this seat, all except the first of them at rest.
    pub alone: bool,
}

/// The dimension of a machine and the number of its stations.
#[derive(Clone, Copy, Debug, PartialEq, Eq)]
pub struct Size {
    pub dim: u32,
    pub stations: u32,
}
