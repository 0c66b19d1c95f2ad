//! Handles of lanes that are dropped by being abandoned.
ghost use Rattle.std.specs.Prelude.{◌≡◌};

use lanes::{Lane, Note, Worker};

/// A lane that no handle has.
pub struct KeptLane {
    pub lane: Lane,
}

/// A worker that no handle has.
pub struct KeptWorker {
    pub worker: Worker,
}

/// The note of the close.
pub struct KeptNote {
    pub note: Note,
}

impl KeptLane {
    /// Returns the lane.
    pub fn into_lane(self) -> Lane
        ensures { result ≡ self.lane }
    {
        let KeptLane { lane } = self;
        lane
    }
}

impl KeptWorker {
    /// Returns the worker.
    pub fn into_worker(self) -> Worker
        ensures { result ≡ self.worker }
    {
        let KeptWorker { worker } = self;
        worker
    }
}

impl KeptNote {
    /// Returns the note.
    pub fn into_note(self) -> Note
        ensures { result ≡ self.note }
    {
        let KeptNote { note } = self;
        note
    }
}

impl Drop for KeptLane {
    fn drop(self) {
        self.into_lane().abandon();
    }
}

impl Drop for KeptWorker {
    fn drop(self) {
        self.into_worker().abandon();
    }
}

impl Drop for KeptNote {
    fn drop(self) {
        self.into_note().abandon();
    }
}
