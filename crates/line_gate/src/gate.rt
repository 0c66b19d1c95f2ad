// The gate: opening it, giving out its handles, collecting them again, and its end.
ghost use Rattle.std.specs.Prelude.{◌≡◌, ◌<◌, ◌≤◌, ◌∷◌, ◌++◌, [], length, IfOk};
ghost use Rattle.std.specs.List.{All};
ghost use Rattle.cube_shape.specs.declared.limits.TheConstants.{MAX_LANES};
ghost use Rattle.line_gate.specs.Record.{lanes_from, passes_from, IsSettled};
ghost use Rattle.line_gate.specs.Run.{WholeGate};

use crate::entered::Pushed;
use crate::handle::{GateEnd, GateLane, GateMembers, GatePass};
use crate::rule::{DealLane, DealPass, GateRule, Gather};
use crate::view::View;
use atomic_table::Table;
use std::alloc::{AllocError, Global};
use std::marker::{Model, PhantomData};

// The closed mark of the first word. The bits below it are the count of entries.
pub(crate) const CLOSED: u64 = 1 << 63;

// The index of the first word.
pub(crate) const GATE: usize = 0;

/// The index of the second word, which counts the settled entries.
pub(crate) const SETTLED: usize = 1;

/// The numbers of lanes and passes of a gate.
#[derive(Clone, Copy, Debug, PartialEq, Eq)]
pub struct Counts {
    /// The number of lanes, which are numbered from 0.
    pub lanes: u32,
    /// The number of passes, which are numbered from 0.
    pub passes: u32,
}

/// A token of what a call outside the gate found. One step at the gate consumes it.
pub trait Witness {
    fn spend(self);
}

/// The gate of a queue. The outcome of a push is a token: of type `P` if a job was put in, of type
/// `F` if the queue was full. A pop that found the queue empty gives a token of type `E`.
pub struct Gate<P: Pushed, F: Pushed, E: Witness> {
    pub(crate) table: Table<(), View, Counts, GateRule, Global>,
    marker: PhantomData<(P, F, E)>,
}

impl<P: Pushed, F: Pushed, E: Witness> Model for Gate<P, F, E> {
    ghost use Rattle.std.specs.Prelude.{◌≡◌};
    ghost use Rattle.line_gate.specs.Gate.{GateId};

    ghost Value = { GateId };

    ghost view = { λ g. record { table = g.table.shared.table_id; counts = g.table.shared.key } };

    ghost invariant = { λ g. (g.table.shared.table_id.words ≡ 2)
        × (g.table.shared.table_id.slots ≡ 0) };
}

impl<P: Pushed, F: Pushed, E: Witness> Drop for Gate<P, F, E> {
    fn drop(self) {
        let Gate { table, marker: _ } = self;
        drop(table);
    }
}

impl<P: Pushed, F: Pushed, E: Witness> Gate<P, F, E> {
    /// Opens a gate without entries. Returns it with its lanes, its passes and its closer.
    pub fn open(alloc: Global, counts: Counts) -> Result<(Gate<P, F, E>, GateMembers), AllocError>
        requires { counts.lanes ≤ MAX_LANES }
        ensures counts { IfOk result (λ made. made.0.counts ≡ counts) }
        ensures gate { IfOk result (λ made. made.1.gate ≡ made.0.table) }
        ensures lanes { IfOk result (λ made. made.1.lanes ≡ lanes_from 0 counts.lanes) }
        ensures passes { IfOk result (λ made. made.1.passes ≡ passes_from 0 counts.passes) }
    {
        let (table, seat) = Table::of_words(alloc, &[0, 0], &counts)?;
        let gate = Gate {
            table,
            marker: PhantomData,
        };
        Ok((gate, GateMembers { seat }))
    }

    /// Returns the first lane that was not given out yet.
    pub fn deal_lane(&self, members: &mut GateMembers) -> GateLane
        requires gate { members.old.gate ≡ self.now.table }
        requires more { 0 < length members.old.lanes }
        ensures gates { (members.new.gate ≡ self.now.table) × (result.gate ≡ self.now.table) }
        ensures dealt { members.old.lanes ≡ result.known ∷ members.new.lanes }
        ensures passes { members.new.passes ≡ members.old.passes }
    {
        let seat = self.table.shared.split_seat::<DealLane>(&mut members.seat);
        GateLane { seat }
    }

    /// Returns the first pass that was not given out yet.
    pub fn deal_pass(&self, members: &mut GateMembers) -> GatePass
        requires gate { members.old.gate ≡ self.now.table }
        requires more { 0 < length members.old.passes }
        ensures gates { (members.new.gate ≡ self.now.table) × (result.gate ≡ self.now.table) }
        ensures dealt { members.old.passes ≡ result.known ∷ members.new.passes }
        ensures lanes { members.new.lanes ≡ members.old.lanes }
    {
        let seat = self.table.shared.split_seat::<DealPass>(&mut members.seat);
        GatePass { seat }
    }

    /// Takes a lane back.
    pub fn gather_lane(&self, end: &mut GateEnd, lane: GateLane)
        requires gate { end.old.gate ≡ self.now.table }
        requires lane { lane.gate ≡ self.now.table }
        ensures gate { end.new.gate ≡ self.now.table }
        ensures lanes { end.new.lanes ≡ end.old.lanes ++ lane.known ∷ [] }
        ensures passes { end.new.passes ≡ end.old.passes }
        ensures number { end.new.number ≡ end.old.number }
    {
        let GateLane { seat } = lane;
        self.table.shared.join_seat::<Gather>(&mut end.seat, seat);
    }

    /// Takes a pass back.
    pub fn gather_pass(&self, end: &mut GateEnd, pass: GatePass)
        requires gate { end.old.gate ≡ self.now.table }
        requires pass { pass.gate ≡ self.now.table }
        ensures gate { end.new.gate ≡ self.now.table }
        ensures passes { end.new.passes ≡ end.old.passes ++ pass.known ∷ [] }
        ensures lanes { end.new.lanes ≡ end.old.lanes }
        ensures number { end.new.number ≡ end.old.number }
    {
        let GatePass { seat } = pass;
        self.table.shared.join_seat::<Gather>(&mut end.seat, seat);
    }

    /// Ends a closed gate. It needs as many lanes and passes as the gate has, which are all of
    /// them.
    pub fn end(self, end: GateEnd)
        requires gate { end.gate ≡ self.table }
        requires all_lanes { length end.lanes ≡ self.counts.lanes }
        requires all_passes { length end.passes ≡ self.counts.passes }
        requires settled { All IsSettled end.lanes }
        ensures { WholeGate end.lanes end.passes end.number }
    {
        let Gate { table, marker: _ } = self;
        let GateEnd { seat, number: _ } = end;
        table.close_with(seat).free();
    }
}
