//! The content of a handle.

use crate::ownership::Ownership;

/// The content of a handle.
#[derive(Drop)]
pub(crate) enum State {
    /// A scheduler.
    Threads(Ownership),
    /// None: a call has borrowed the scheduler.
    Taken,
}
