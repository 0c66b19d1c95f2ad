//! The content of a handle.

use crate::left::Left;
use crate::owner::Owner;
use crate::sides::{LaneSide, WorkerSide};
use crate::sleeper_side::SleeperSide;

/// The content of a handle.
#[derive(Drop)]
pub(crate) enum State {
    /// Lanes.
    Owner(Owner),
    /// A producer.
    Lane(LaneSide),
    /// A worker that is awake.
    Worker(WorkerSide),
    /// A worker that lies down.
    Sleeper(SleeperSide),
    /// The jobs that are left after the end of lanes.
    Left(Left),
    /// None: a call has borrowed the content.
    Away,
}
