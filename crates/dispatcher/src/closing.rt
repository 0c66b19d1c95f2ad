//! The right to close a dispatcher, and the note that shows that it is closed.
ghost use Rattle.std.specs.Prelude.{◌≡◌};

use crate::room::Room;
use floors::Floor;
use job_queue::JobLine;

/// The right to close the dispatcher. Only `Shop::open` makes one.
pub struct Closer<L: JobLine, F: Floor> {
    // The right to close the queue.
    pub(crate) line: L::Closer,
    // Memory reserved for the result of `finish`.
    pub(crate) room: Room<L, F>,
}

/// A token that shows that the dispatcher is closed. Only `Shop::close` makes one.
pub struct CloseNote<L: JobLine, F: Floor> {
    // The queue's own close note.
    pub(crate) line: L::Note,
    // Memory reserved for the result of `finish`.
    pub(crate) room: Room<L, F>,
}

impl<L: JobLine, F: Floor> CloseNote<L, F> {
    ghost use Rattle.dispatcher.specs.Members.{close_number_of};

    /// Returns the close number: how many entries came before the close.
    pub fn number(&self) -> u64
        ensures { result ≡ close_number_of L.JobLine self.now }
    {
        L::close_number(&self.line)
    }
}
