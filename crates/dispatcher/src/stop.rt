//! Why a worker has stopped.

/// The reason why a worker has stopped.
#[derive(Clone, Copy, Debug, PartialEq, Eq, Hash)]
pub enum Stop {
    /// The queue has ended: it is closed, and no job is left in it.
    Ended,
    /// Memory ran out before one more reply. No job was taken for it.
    OutOfMemory,
    /// It has as many replies as it was allowed to make. Only `dispatch_some` stops so.
    Enough,
    /// It never ran.
    NotRun,
}
