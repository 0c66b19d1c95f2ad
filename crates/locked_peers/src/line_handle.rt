// The handles of a `LockedLine`. None of them can be dropped: they are consumed by the queue's end.
ghost use Rattle.std.specs.Prelude.{◌≡◌, ℕ, [], ◌∷◌, None, Some, length};
ghost use Rattle.locked_peers.specs.InnerLine.View.{pass_view, closer_view};
ghost use Rattle.locked_peers.specs.InnerLine.Step.{IsLaneSeat, pass_in};

use crate::store_lock::Seat;

/// The right to submit jobs of one lane to a `LockedLine`.
pub struct LockedLane {
    pub(crate) seat: Seat,
    pub(crate) number: u32,
    pub(crate) entries: u64,
    ghost known: { IsLaneSeat seat.me number entries },
}

/// The right to take jobs of a `LockedLine`.
pub struct LockedPass {
    pub(crate) seat: Seat,
    ghost known: { seat.me ≡ (pass_view seat.me.0.about (pass_in seat.me.0.passes), []) },
}

/// The right to close a `LockedLine`. There is one.
pub struct LockedCloser {
    pub(crate) seat: Seat,
    ghost known: { seat.me ≡ (closer_view seat.me.0.about None, []) },
}

/// A token that shows that a `LockedLine` is closed.
pub struct LockedNote {
    pub(crate) seat: Seat,
    pub(crate) number: u64,
    ghost known: { seat.me ≡ (closer_view seat.me.0.about (Some number), []) },
}

impl LockedLane {
    ghost use Rattle.locked_peers.specs.InnerLine.Handle.{lane_record};

    /// Returns the lane's number.
    pub fn number(&self) -> u32
        ensures { result ≡ (lane_record self.now).number }
    {
        self.number
    }

    /// Returns the number of entries that the lane has made.
    pub fn entry_count(&self) -> u64
        ensures { result ≡ length (lane_record self.now).entries }
    {
        self.entries
    }
}

impl LockedNote {
    ghost use Rattle.locked_peers.specs.InnerLine.Handle.{note_number};

    /// Returns the close number: how many entries came before the close.
    pub fn number(&self) -> u64
        ensures { result ≡ note_number self.now }
    {
        self.number
    }
}
