//! The names of places.

use lanes::Lanes;
use std::snapshot::Snapshot;

/// Which lane or which worker of some lanes a place is for.
#[derive(Drop)]
pub struct PlaceName {
    /// The lanes. Contracts alone see them.
    pub lanes: Snapshot<Lanes>,
    /// The number of the lane, or of the worker.
    pub number: u32,
}
