// The calls at a gate. Each is one atomic step.
ghost use Rattle.std.specs.Prelude.{◌≡◌, ◌<◌, Some, true, false, length, MatchOption, MatchResult};
ghost use Rattle.cube_shape.specs.declared.limits.TheConstants.{MAX_ENTRIES};
ghost use Rattle.line_gate.specs.Record.{IsSettled, after_look, after_enter, after_late_enter, after_undo, after_settle, after_read_settled, after_read_gate};

use crate::entered::{Entered, EnteredLate, Pushed};
use crate::gate::{CLOSED, GATE, Gate, SETTLED, Witness};
use crate::handle::{GateCloser, GateLane, GateNote, GatePass};
use crate::rule::{Close, Enter, Look, ReadGate, ReadSettled, SettleAccepted, SettleFull, Undo};

/// What a pass reads in the first word of a gate.
#[derive(Clone, Copy, Debug, PartialEq, Eq)]
pub struct EntryCount {
    /// The count of entries.
    pub entries: u64,
    /// Whether the word has the closed mark.
    pub closed: bool,
}

impl<P: Pushed, F: Pushed, E: Witness> Gate<P, F, E> {
    /// Looks at the gate. Returns the count of entries if the gate is closed, else `None`.
    pub fn look(&self, lane: &mut GateLane) -> Option<u64>
        requires { lane.old.gate ≡ self.now.table }
        ensures gate { lane.new.gate ≡ self.now.table }
        ensures known { MatchOption result (lane.new.known ≡ lane.old.known)
            (λ count. lane.new.known ≡ after_look count lane.old.known) }
    {
        let found = self.table.shared.load::<Look>(&mut lane.seat, GATE);
        if found < CLOSED {
            None
        } else {
            Some(found - CLOSED)
        }
    }

    /// Makes an entry, which is then pending. After the close, returns a late entry.
    pub fn enter(&self, lane: &mut GateLane) -> Result<Entered, EnteredLate>
        requires gate { lane.old.gate ≡ self.now.table }
        requires settled { IsSettled lane.old.known }
        requires unspent { length lane.old.known.entries < MAX_ENTRIES }
        ensures gate { lane.new.gate ≡ self.now.table }
        ensures known { MatchResult result
            (λ entered. lane.new.known ≡ after_enter entered lane.old.known)
            (λ late. lane.new.known ≡ after_late_enter late lane.old.known) }
    {
        let found = self
            .table
            .shared
            .fetch_add::<Enter>(&mut lane.seat, GATE, 1);
        if found < CLOSED {
            Ok(Entered { number: found })
        } else {
            Err(EnteredLate {
                seen: found - CLOSED,
            })
        }
    }

    /// Undoes a late entry. Returns the count that it found.
    pub fn undo(&self, lane: &mut GateLane, late: EnteredLate) -> u64
        requires gate { lane.old.gate ≡ self.now.table }
        requires late { lane.old.known.late ≡ true }
        ensures gate { lane.new.gate ≡ self.now.table }
        ensures known { lane.new.known ≡ after_undo lane.old.known }
        ensures seen { result ≡ late }
    {
        let EnteredLate { seen } = late;
        self.table.shared.fetch_sub::<Undo>(&mut lane.seat, GATE, 1);
        seen
    }

    /// Settles the pending entry, whose job the queue has accepted.
    pub fn settle_accepted(&self, lane: &mut GateLane, put: P)
        requires gate { lane.old.gate ≡ self.now.table }
        requires pending { lane.old.known.pending ≡ Some (P.entry put) }
        ensures gate { lane.new.gate ≡ self.now.table }
        ensures known { lane.new.known ≡ after_settle (P.entry put) true lane.old.known }
    {
        let Entered { number: _ } = put.into_entry();
        self.table
            .shared
            .fetch_add::<SettleAccepted>(&mut lane.seat, SETTLED, 1);
    }

    /// Settles the pending entry, whose job found the queue full.
    pub fn settle_full(&self, lane: &mut GateLane, full: F)
        requires gate { lane.old.gate ≡ self.now.table }
        requires pending { lane.old.known.pending ≡ Some (F.entry full) }
        ensures gate { lane.new.gate ≡ self.now.table }
        ensures known { lane.new.known ≡ after_settle (F.entry full) false lane.old.known }
    {
        let Entered { number: _ } = full.into_entry();
        self.table
            .shared
            .fetch_add::<SettleFull>(&mut lane.seat, SETTLED, 1);
    }

    /// Closes the gate. The note has the count of entries before the close.
    pub fn close(&self, closer: GateCloser) -> GateNote
        requires { closer.gate ≡ self.now.table }
        ensures { result.gate ≡ self.now.table }
    {
        let GateCloser { mut seat } = closer;
        let number = self.table.shared.fetch_or::<Close>(&mut seat, GATE, CLOSED);
        GateNote { seat, number }
    }

    /// Reads how many entries are settled.
    pub fn read_settled(&self, pass: &mut GatePass) -> u64
        requires { pass.old.gate ≡ self.now.table }
        ensures gate { pass.new.gate ≡ self.now.table }
        ensures known { pass.new.known ≡ after_read_settled result pass.old.known }
    {
        self.table
            .shared
            .load::<ReadSettled>(&mut pass.seat, SETTLED)
    }

    /// Reads the count of entries and the closed mark. The pass has found the queue empty and has
    /// read how many entries are settled.
    pub fn read_gate(&self, pass: &mut GatePass, _settled: u64, empty: E) -> EntryCount
        requires gate { pass.old.gate ≡ self.now.table }
        requires half { pass.old.known.settled ≡ Some _settled }
        ensures gate { pass.new.gate ≡ self.now.table }
        ensures known { pass.new.known
            ≡ after_read_gate _settled result.entries result.closed pass.old.known }
    {
        empty.spend();
        let found = self.table.shared.load::<ReadGate>(&mut pass.seat, GATE);
        if found < CLOSED {
            EntryCount {
                entries: found,
                closed: false,
            }
        } else {
            EntryCount {
                entries: found - CLOSED,
                closed: true,
            }
        }
    }
}
