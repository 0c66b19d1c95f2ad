// `RuledLine`, and what its calls do at the gate and in the ring together.
ghost use Rattle.std.specs.Prelude.{◌≡◌, ◌+◌, ◌<◌, ◌++◌, ◌∷◌, ◌^◌, [], Some, None, IsSome, IfOk, IfErr, length};
ghost use Rattle.line_gate.specs.Record.{Seals as SealsGate};
ghost use Rattle.line_gate.specs.declared.record.Reading.{Reading as GateReading};
ghost use Rattle.job_queue.specs.Line.{IsFor, IsMadeFor};
ghost use Rattle.line_ruled.specs.Inner.Join.{Puts};

use job_queue::{QueuedJob, Receipt};
use job_types::{Job, JobId};
use line_gate::{Entered, Gate, GateLane, GatePass, Pushed, Witness};
use line_ring::{DidPut, Ring, RingLane, RingPass, SawEmpty, SawFull, WasEmpty};
use std::sync::Wait;

// The gate of a `RuledLine`.
pub(crate) type LineGate = Gate<RingTook, RingWasFull, RingWasEmpty>;

/// The ring of a `RuledLine`.
pub(crate) type LineRing = Ring<QueuedJob>;

// A token of a push that put a job in. Only it settles the push's entry as accepted.
pub(crate) struct RingTook(DidPut<Entered>);

impl Pushed for RingTook {
    ghost entry = { λ took. took.0 };

    fn into_entry(self) -> Entered {
        let RingTook(put) = self;
        put.into_entry()
    }
}

// A token of a push that found the ring full. Only it settles the push's entry as full.
pub(crate) struct RingWasFull(SawFull<Entered>);

impl Pushed for RingWasFull {
    ghost entry = { λ full. full.0 };

    fn into_entry(self) -> Entered {
        let RingWasFull(saw) = self;
        saw.into_entry()
    }
}

// A token of a pop that found the ring empty. The gate is read only with it.
pub(crate) struct RingWasEmpty(SawEmpty);

impl Witness for RingWasEmpty {
    fn spend(self) {
        let RingWasEmpty(saw) = self;
        saw.spend();
    }
}

// A token of a reading that found the gate sealed. Only `RuledLine::read` makes it, and it cannot
// be dropped.
pub(crate) struct Sealed(());

/// A token that shows that a `RuledLine` has ended. Only a pop makes one, if it found the ring
/// empty after the gate was read as sealed. It has the token of that pop.
#[derive(Debug, Drop)]
pub struct RuledEnd(WasEmpty);

/// A lock-free queue of jobs: a ring in which the jobs wait, and a gate that counts the entries.
pub struct RuledLine {
    pub(crate) gate: LineGate,
    pub(crate) ring: LineRing,
    // Room for the numbers of accepted jobs of the lanes, which the end returns.
    pub(crate) accepted: Vec<u64>,
    ghost slots: { length accepted.items ≡ gate.counts.lanes },
}

impl RuledLine {
    // Puts the job into the ring with its entry, and settles that entry.
    pub(crate) fn put<R: Wait>(
        &self,
        rt: &R,
        gate: &mut GateLane,
        ring: &mut RingLane<QueuedJob>,
        entered: Entered,
        job: Job,
    ) -> Result<Receipt, Job>
        requires gate { gate.old.gate ≡ self.now.gate.table }
        requires ring { ring.old.ring ≡ self.now.ring.id }
        requires pending { gate.old.known.pending ≡ Some entered }
        requires job { IsFor self.now.ring.id.machine ring.old.known.number job }
        requires count { length ring.old.known.accepted + 1 < 2 ^ 64 }
        ensures gate { gate.new.gate ≡ self.now.gate.table }
        ensures ring { ring.new.ring ≡ self.now.ring.id }
        ensures puts { Puts entered job gate.old.known ring.old.known result
            gate.new.known ring.new.known }
    {
        let id = JobId {
            lane: ring.number(),
            seq: ring.accepted(),
        };
        let number = entered.number();
        match self.ring.push(rt, ring, QueuedJob { id, job }, entered) {
            Ok(put) => {
                self.gate.settle_accepted(gate, RingTook(put));
                Ok(Receipt { id, number })
            }
            Err((refused, saw)) => {
                self.gate.settle_full(gate, RingWasFull(saw));
                let QueuedJob { id: _, job } = refused;
                Err(job)
            }
        }
    }

    // Reads the gate after the ring was found empty. Returns a token if the gate is sealed.
    pub(crate) fn read(&self, gate: &mut GatePass, saw: SawEmpty) -> Option<Sealed>
        requires gate { gate.old.gate ≡ self.now.gate.table }
        ensures gate { gate.new.gate ≡ self.now.gate.table }
        ensures reading { (r : GateReading)
            × (gate.new.known.readings ≡ gate.old.known.readings ++ r ∷ [])
            × (IsSome result → SealsGate r) × (result ≡ None → ¬ SealsGate r) }
    {
        let settled = self.gate.read_settled(gate);
        let found = self.gate.read_gate(gate, settled, RingWasEmpty(saw));
        if found.closed && found.entries == settled {
            Some(Sealed(()))
        } else {
            None
        }
    }

    // Takes the job at the front after the gate was read as sealed.
    pub(crate) fn pop_at_last<R: Wait>(
        &self,
        rt: &R,
        ring: &mut RingPass<QueuedJob>,
        sealed: Sealed,
    ) -> Result<QueuedJob, RuledEnd>
        requires { ring.old.ring ≡ self.now.ring.id }
        ensures pass { ring.new.ring ≡ self.now.ring.id }
        ensures number { ring.new.known.number ≡ ring.old.known.number }
        ensures taken { IfOk result (λ q.
            ring.new.known.taken ≡ ring.old.known.taken ++ q ∷ []) }
        ensures machine { IfOk result (IsMadeFor self.now.ring.id.machine) }
        ensures unchanged { IfErr result (λ _. ring.new.known ≡ ring.old.known) }
    {
        let Sealed(()) = sealed;
        match self.ring.pop(rt, ring) {
            Ok(queued) => Ok(queued),
            Err(saw) => Err(RuledEnd(saw.spend())),
        }
    }
}
