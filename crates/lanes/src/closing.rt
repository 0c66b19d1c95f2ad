// The close of all lanes. The closer calls each worker then, so that none sleeps on.
ghost use Rattle.std.specs.Prelude.{◌≡◌, ℕ, ◌<◌, List, [], ◌∷◌, ◌++◌, length};
ghost use Rattle.wake_pool.specs.declared.phase.WakePhase.TheVariants.{Idle};
ghost use Rattle.lanes.specs.Inner.Pool.{known_sat, IsStill};
ghost use Rattle.lanes.specs.Inner.Step.{IsClosing};
ghost use Rattle.lanes.specs.Inner.Caller.{IsCaller};

use crate::handles::{Closer, Note, Seat};
use crate::lanes::Lanes;
use crate::rule::Close;
use crate::sizes::{CLOSED, TAIL};

impl Lanes {
    // Closes the first open lane by one atomic step. Returns how many jobs it has accepted.
    fn close_lane(&self, seat: &mut Seat, lane: u32) -> u64
        requires table { seat.old.table_id ≡ self.now.table }
        requires lane { lane < self.now.plan.sizes.lanes }
        requires closing { (counts : List ℕ) × (length counts ≡ lane)
            × IsClosing self.now.plan counts (known_sat seat.old.me) }
        ensures table { seat.new.table_id ≡ self.now.table }
        ensures closing { (counts : List ℕ) → length counts ≡ lane
            → IsClosing self.now.plan counts (known_sat seat.old.me)
            → IsClosing self.now.plan (counts ++ result ∷ []) (known_sat seat.new.me) }
        ensures still { IsStill seat.old.me seat.new.me }
    {
        let tail = self.word(lane, TAIL);
        self.table.shared.fetch_add::<Close>(seat, tail, CLOSED)
    }

    // Closes all lanes.
    fn close_all(&self, closer: Closer) -> Note
        requires { closer.id ≡ self.now }
        ensures id { result.id ≡ self.now }
        ensures counts { length result.counts ≡ self.now.plan.sizes.lanes }
    {
        let Closer { mut seat, plan } = closer;
        let mut total: u64 = 0;
        for lane in 0..self.plan.sizes.lanes {
            let number = self.close_lane(&mut seat, lane);
            total = total.saturating_add(number);
        }
        Note { seat, plan, total }
    }

    // Calls a worker. If it sleeps, the worker is given its token.
    fn call_worker(&self, note: &mut Note, worker: u32)
        requires id { note.old.id ≡ self.now }
        requires worker { worker < self.now.plan.sleepers }
        ensures { note.new ≡ note.old }
    {
        let workers = self.plan.sleepers;
        wake_calls::call(&self.table.shared, workers, &mut note.seat, worker);
        if wake_calls::ring(&self.table.shared, workers, &mut note.seat, worker) {
            wake_calls::give(&self.table.shared, workers, &mut note.seat, worker);
        }
    }

    // Calls each worker that may sleep.
    fn call_all(&self, note: &mut Note)
        requires { note.old.id ≡ self.now }
        ensures { note.new ≡ note.old }
    {
        for worker in 0..self.plan.sleepers {
            self.call_worker(note, worker);
        }
    }

    /// Closes all lanes, one after another in their order, and then calls each worker that may
    /// sleep. The caller unparks the threads of all workers. A lane accepts no job after its close.
    /// It makes one atomic step for each lane, and at most three for each worker.
    pub fn close(&self, closer: Closer) -> Note
        requires { closer.id ≡ self.now }
        ensures id { result.id ≡ self.now }
        ensures counts { length result.counts ≡ self.now.plan.sizes.lanes }
    {
        let mut note = self.close_all(closer);
        self.call_all(&mut note);
        note
    }
}
