// The handles of a ring. None of them can be dropped: they are consumed by the ring's end.
use crate::rule::View;
use crossbeam_queue::Pass;
use std::marker::Model;

/// The right to put in the pieces of one lane.
pub struct RingLane<T> {
    pub(crate) seat: Pass<T, View<T>>,
    pub(crate) number: u32,
    pub(crate) accepted: u64,
}

impl<T> Model for RingLane<T> {
    ghost use Rattle.crossbeam_queue.specs.Passes.{view as known_by};
    ghost use Rattle.line_ring.specs.Ring.{LaneOf};
    ghost use Rattle.line_ring.specs.Inner.View.{lane_in};
    ghost use Rattle.line_ring.specs.Inner.Seat.{ring_of, IsLaneSeat};

    ghost Value = { LaneOf T };

    ghost view = { λ l. record { ring = ring_of l.seat; known = lane_in (known_by l.seat).lanes } };

    ghost invariant = { λ l. IsLaneSeat l.number l.accepted l.seat };
}

/// The right to take pieces out of a ring.
pub struct RingPass<T> {
    pub(crate) seat: Pass<T, View<T>>,
}

impl<T> Model for RingPass<T> {
    ghost use Rattle.crossbeam_queue.specs.Passes.{view as known_by};
    ghost use Rattle.line_ring.specs.Ring.{PassOf};
    ghost use Rattle.line_ring.specs.Inner.View.{pass_in};
    ghost use Rattle.line_ring.specs.Inner.Seat.{ring_of, IsPassSeat};

    ghost Value = { PassOf T };

    ghost view = { λ p. record { ring = ring_of p.seat; known = pass_in (known_by p.seat).passes } };

    ghost invariant = { λ p. IsPassSeat p.seat };
}

/// The right to end a ring. There is one. It gives out lanes and passes, and takes them back.
pub struct RingEnd<T> {
    pub(crate) seat: Pass<T, View<T>>,
    pub(crate) lanes: u32,
    pub(crate) passes: u32,
}

impl<T> Model for RingEnd<T> {
    ghost use Rattle.crossbeam_queue.specs.Passes.{view as known_by};
    ghost use Rattle.line_ring.specs.Ring.{EndOf};
    ghost use Rattle.line_ring.specs.Inner.Seat.{ring_of, end_of, IsEndSeat};

    ghost Value = { EndOf T };

    ghost view = { λ e. end_of (ring_of e.seat) e.lanes e.passes (known_by e.seat) };

    ghost invariant = { λ e. IsEndSeat e.lanes e.passes e.seat };
}

impl<T> RingLane<T> {
    ghost use Rattle.std.specs.Prelude.{◌≡◌, length};

    /// Returns the lane's number.
    pub fn number(&self) -> u32
        ensures { result ≡ self.now.known.number }
    {
        self.number
    }

    /// Returns how many pieces the lane has put in, which is the number (seq) of its next one.
    pub fn accepted(&self) -> u64
        ensures { result ≡ length self.now.known.accepted }
    {
        self.accepted
    }
}
