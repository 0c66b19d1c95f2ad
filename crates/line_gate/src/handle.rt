// The handles of a gate. Only `GateMembers` can be dropped. The others are consumed by the gate's
// end.
use crate::view::View;
use std::marker::Model;

pub(crate) type Seat = atomic_table::Seat<(), View>;

/// The lanes and passes of a new gate that were not given out yet, and its closer.
#[derive(Drop)]
pub struct GateMembers {
    pub(crate) seat: Seat,
}

impl Model for GateMembers {
    ghost use Rattle.line_gate.specs.Gate.{MembersOf};
    ghost use Rattle.line_gate.specs.Inner.Step.{IsMembersSeat};

    ghost Value = { MembersOf };

    ghost view = { λ m. record {
      gate = m.seat.table_id;
      lanes = m.seat.me.0.lanes;
      passes = m.seat.me.0.passes;
    } };

    ghost invariant = { λ m. IsMembersSeat m.seat.me };
}

/// The right to make entries of one lane.
pub struct GateLane {
    pub(crate) seat: Seat,
}

impl Model for GateLane {
    ghost use Rattle.line_gate.specs.Gate.{LaneOf};
    ghost use Rattle.line_gate.specs.Inner.Step.{IsLaneSeat, lane_in};

    ghost Value = { LaneOf };

    ghost view = { λ l. record { gate = l.seat.table_id; known = lane_in l.seat.me.0.lanes } };

    ghost invariant = { λ l. IsLaneSeat l.seat.me };
}

/// The right to read the gate.
pub struct GatePass {
    pub(crate) seat: Seat,
}

impl Model for GatePass {
    ghost use Rattle.line_gate.specs.Gate.{PassOf};
    ghost use Rattle.line_gate.specs.Inner.Step.{IsPassSeat, pass_in};

    ghost Value = { PassOf };

    ghost view = { λ p. record { gate = p.seat.table_id; known = pass_in p.seat.me.0.passes } };

    ghost invariant = { λ p. IsPassSeat p.seat.me };
}

/// The right to close the gate. There is one.
pub struct GateCloser {
    pub(crate) seat: Seat,
}

impl Model for GateCloser {
    ghost use Rattle.line_gate.specs.Gate.{CloserOf};
    ghost use Rattle.line_gate.specs.Inner.Step.{IsCloserSeat};

    ghost Value = { CloserOf };

    ghost view = { λ c. record { gate = c.seat.table_id } };

    ghost invariant = { λ c. IsCloserSeat c.seat.me };
}

/// A token that shows that the gate is closed.
pub struct GateNote {
    pub(crate) seat: Seat,
    pub(crate) number: u64,
}

impl Model for GateNote {
    ghost use Rattle.line_gate.specs.Gate.{NoteOf};
    ghost use Rattle.line_gate.specs.Inner.Step.{IsNoteSeat};

    ghost Value = { NoteOf };

    ghost view = { λ n. record { gate = n.seat.table_id; number = n.number } };

    ghost invariant = { λ n. IsNoteSeat n.seat.me n.number };
}

/// The lanes and passes of a closed gate that were taken back, with the close note.
pub struct GateEnd {
    pub(crate) seat: Seat,
    pub(crate) number: u64,
}

impl Model for GateEnd {
    ghost use Rattle.line_gate.specs.Gate.{EndOf};
    ghost use Rattle.line_gate.specs.Inner.Step.{IsEndSeat};

    ghost Value = { EndOf };

    ghost view = { λ g. record {
      gate = g.seat.table_id;
      lanes = g.seat.me.0.lanes;
      passes = g.seat.me.0.passes;
      number = g.number;
    } };

    ghost invariant = { λ g. IsEndSeat g.seat.me g.number };
}

impl GateMembers {
    ghost use Rattle.std.specs.Prelude.{◌≡◌, []};

    /// Returns the closer, once all lanes and passes were given out.
    pub fn into_closer(self) -> GateCloser
        requires lanes { self.lanes ≡ [] }
        requires passes { self.passes ≡ [] }
        ensures { result.gate ≡ self.gate }
    {
        let GateMembers { seat } = self;
        GateCloser { seat }
    }
}

impl GateNote {
    ghost use Rattle.std.specs.Prelude.{◌≡◌, []};

    /// Returns the close number: how many entries came before the close.
    pub fn number(&self) -> u64
        ensures { result ≡ self.now.number }
    {
        self.number
    }

    /// Begins the end of the gate: no lane and no pass was taken back yet.
    pub fn into_end(self) -> GateEnd
        ensures gate { result.gate ≡ self.gate }
        ensures number { result.number ≡ self.number }
        ensures lanes { result.lanes ≡ [] }
        ensures passes { result.passes ≡ [] }
    {
        let GateNote { seat, number } = self;
        GateEnd { seat, number }
    }
}
