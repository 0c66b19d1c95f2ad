// The handles of a `RuledLine`. None of them can be dropped: they are consumed by the queue's end.
ghost use Rattle.line_ruled.specs.Inner.Join.{IsJoined};

use job_queue::QueuedJob;
use line_gate::{GateCloser, GateLane, GateNote, GatePass};
use line_ring::{RingEnd, RingLane, RingPass};

/// The right to submit jobs of one lane to a `RuledLine`.
pub struct RuledLane {
    pub(crate) gate: GateLane,
    pub(crate) ring: RingLane<QueuedJob>,
    pub(crate) entries: u64,
    ghost joined: { IsJoined gate.known ring.known entries },
}

/// The right to take jobs of a `RuledLine`.
pub struct RuledPass {
    pub(crate) gate: GatePass,
    pub(crate) ring: RingPass<QueuedJob>,
}

/// The right to close a `RuledLine`. There is one.
pub struct RuledCloser {
    pub(crate) gate: GateCloser,
    pub(crate) ring: RingEnd<QueuedJob>,
}

/// A token that shows that a `RuledLine` is closed.
pub struct RuledNote {
    pub(crate) gate: GateNote,
    pub(crate) ring: RingEnd<QueuedJob>,
}

impl RuledLane {
    ghost use Rattle.std.specs.Prelude.{◌≡◌, length};
    ghost use Rattle.line_ruled.specs.Inner.Handle.{lane_record};

    /// Returns the lane's number.
    pub fn number(&self) -> u32
        ensures { result ≡ (lane_record self.now).number }
    {
        self.ring.number()
    }

    /// Returns the number of entries that the lane has made.
    pub fn entry_count(&self) -> u64
        ensures { result ≡ length (lane_record self.now).entries }
    {
        self.entries
    }
}

impl RuledNote {
    ghost use Rattle.std.specs.Prelude.{◌≡◌};
    ghost use Rattle.line_ruled.specs.Inner.Handle.{note_number};

    /// Returns the close number: how many entries came before the close.
    pub fn number(&self) -> u64
        ensures { result ≡ note_number self.now }
    {
        self.gate.number()
    }
}
