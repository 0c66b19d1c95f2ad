// Queues and allocators whose handles may go to other threads.
use floors::Floor;
use job_queue::JobLine;

/// A queue that threads may share, and whose handles may be sent to them.
pub trait SharedLine: JobLine<Lane: Send, Pass: Send, End: Send, Closer: Send, Note: Send> + Sync {}

impl<L: JobLine + Sync> SharedLine for L
where
    L::Lane: Send,
    L::Pass: Send,
    L::End: Send,
    L::Closer: Send,
    L::Note: Send,
{}

/// An allocator that threads may share, whose stations may be sent to them, and whose machine may
/// be dropped.
pub trait SharedFloor: Floor<Station: Send, Machine: Drop> + Sync {}

impl<F: Floor + Sync> SharedFloor for F
where
    F::Station: Send,
    F::Machine: Drop,
{}
