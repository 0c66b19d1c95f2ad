// What the callers of lanes hold. Only the members of new lanes can be dropped: the other handles
// are consumed by the end of the lanes.
use crate::sizes::Plan;
use crate::sleeping::Sleeper;
use crate::view::Both;
use std::marker::Model;

pub type Seat = atomic_table::Seat<(), Both>;

/// The handles of new lanes that are not dealt out yet.
#[derive(Drop)]
pub struct Members {
    pub(crate) seat: Seat,
    pub(crate) plan: Plan,
    pub(crate) dealt_lanes: u32,
    pub(crate) dealt_workers: u32,
}

impl Model for Members {
    ghost use Rattle.std.specs.Prelude.{◌≤◌};
    ghost use Rattle.lanes.specs.Lanes.{MembersOf};
    ghost use Rattle.lanes.specs.Inner.Step.{IsMembersSeat};
    ghost use Rattle.lanes.specs.Inner.Pool.{AreIdle, known_sat};

    ghost Value = { MembersOf };

    ghost view = { λ m. record {
      id = record { table = m.seat.table_id; plan = m.plan };
      dealt_lanes = m.dealt_lanes;
      dealt_workers = m.dealt_workers;
    } };

    ghost invariant = { λ m.
        IsMembersSeat m.plan m.dealt_lanes m.dealt_workers (known_sat m.seat.me)
        × (m.dealt_lanes ≤ m.plan.sizes.lanes)
        × (m.dealt_workers ≤ m.plan.sizes.workers)
        × AreIdle m.plan m.dealt_lanes m.dealt_workers m.seat.me };
}

/// The right to submit jobs to one lane.
pub struct Lane {
    pub(crate) seat: Seat,
    pub(crate) plan: Plan,
    pub(crate) number: u32,
    // The number of jobs that were taken at its latest look, so that it need not look at each job.
    pub(crate) seen: u64,
    // The word of sleepers that it looks at next.
    pub(crate) next: u64,
}

impl Model for Lane {
    ghost use Rattle.std.specs.Prelude.{◌≡◌, ◌≤◌};
    ghost use Rattle.wake_pool.specs.Schedule.{waking};
    ghost use Rattle.wake_pool.specs.Words.{word_count};
    ghost use Rattle.lanes.specs.Lanes.{LaneOf};
    ghost use Rattle.lanes.specs.declared.sizes.TheConstants.{MAX_JOBS};
    ghost use Rattle.lanes.specs.Inner.Step.{IsLane, lane_in};
    ghost use Rattle.lanes.specs.Inner.Pool.{IsProducer, known_sat, phase_in};

    ghost Value = { LaneOf };

    ghost view = { λ l. record {
      id = record { table = l.seat.table_id; plan = l.plan };
      known = lane_in l.seat.me.0.known.lanes;
      next = l.next;
      deeds = l.seat.me.0.deeds;
    } };

    ghost invariant = { λ l. IsLane l.plan l.number l.seen (known_sat l.seat.me)
        × (l.seen ≤ MAX_JOBS)
        × IsProducer l.plan l.number l.seat.me
        × (phase_in l.seat.me.0.others ≡ waking (word_count l.plan.sleepers) l.next) };
}

/// The right to take jobs from every lane.
pub struct Worker {
    pub(crate) sleeper: Sleeper,
}

impl Model for Worker {
    ghost use Rattle.std.specs.Prelude.{◌≡◌};
    ghost use Rattle.lanes.specs.Lanes.{WorkerOf};
    ghost use Rattle.wake_pool.specs.declared.phase.WakePhase.TheVariants.{Idle};

    ghost Value = { WorkerOf };

    ghost view = { λ w. record {
      id = w.sleeper.id;
      known = w.sleeper.known;
      deeds = w.sleeper.deeds;
    } };

    ghost invariant = { λ w. w.sleeper.phase ≡ Idle };
}

/// The right to close all lanes. There is one.
pub struct Closer {
    pub(crate) seat: Seat,
    pub(crate) plan: Plan,
}

impl Model for Closer {
    ghost use Rattle.std.specs.Prelude.{◌≡◌, [], ◌∷◌};
    ghost use Rattle.wake_pool.specs.declared.phase.WakePhase.TheVariants.{Idle};
    ghost use Rattle.lanes.specs.Lanes.{CloserOf};
    ghost use Rattle.lanes.specs.Inner.Caller.{IsCaller};
    ghost use Rattle.lanes.specs.Inner.View.{closer_view, fresh_closer};
    ghost use Rattle.lanes.specs.Inner.Pool.{known_sat};

    ghost Value = { CloserOf };

    ghost view = { λ c. record { id = record { table = c.seat.table_id; plan = c.plan } } };

    ghost invariant = { λ c. (known_sat c.seat.me ≡ (closer_view (fresh_closer c.plan), []))
        × IsCaller c.plan Idle c.seat.me };
}

/// Shows that all lanes are closed.
pub struct Note {
    pub(crate) seat: Seat,
    pub(crate) plan: Plan,
    pub(crate) total: u64,
}

impl Model for Note {
    ghost use Rattle.std.specs.Prelude.{◌≡◌, ◌^◌, ◌-◌, min};
    ghost use Rattle.std.specs.List.{sum};
    ghost use Rattle.wake_pool.specs.declared.phase.WakePhase.TheVariants.{Idle};
    ghost use Rattle.lanes.specs.Lanes.{NoteOf};
    ghost use Rattle.lanes.specs.Inner.Caller.{IsCaller};
    ghost use Rattle.lanes.specs.Inner.Step.{IsNoteSeat, counts_in};
    ghost use Rattle.lanes.specs.Inner.Pool.{known_sat};

    ghost Value = { NoteOf };

    ghost view = { λ n. record {
      id = record { table = n.seat.table_id; plan = n.plan };
      counts = counts_in (known_sat n.seat.me);
    } };

    ghost invariant = { λ n. IsNoteSeat n.plan (known_sat n.seat.me)
        × (n.total ≡ min (sum (counts_in (known_sat n.seat.me))) (2 ^ 64 - 1))
        × IsCaller n.plan Idle n.seat.me };
}

/// The producers and workers of closed lanes that have come back, with the note.
pub struct LanesEnd {
    pub(crate) seat: Seat,
    pub(crate) plan: Plan,
}

impl Model for LanesEnd {
    ghost use Rattle.lanes.specs.Lanes.{EndOf};
    ghost use Rattle.lanes.specs.Inner.Step.{IsEndSeat, counts_in};
    ghost use Rattle.lanes.specs.Inner.Pool.{known_sat};

    ghost Value = { EndOf };

    ghost view = { λ e. record {
      id = record { table = e.seat.table_id; plan = e.plan };
      lanes = e.seat.me.0.known.lanes;
      workers = e.seat.me.0.known.workers;
      counts = counts_in (known_sat e.seat.me);
    } };

    ghost invariant = { λ e. IsEndSeat e.plan (known_sat e.seat.me) };
}

impl Members {
    ghost use Rattle.std.specs.Prelude.{◌≡◌};

    /// Returns the closer, once all lanes and all workers are dealt out.
    #[tactic(auto, using(crate::proofs::DealLemmas::only_closer, crate::proofs::CallerLemmas::only_caller))]
    pub fn into_closer(self) -> Closer
        requires lanes { self.dealt_lanes ≡ self.id.plan.sizes.lanes }
        requires workers { self.dealt_workers ≡ self.id.plan.sizes.workers }
        ensures { result.id ≡ self.id }
    {
        let Members {
            seat,
            plan,
            dealt_lanes: _,
            dealt_workers: _,
        } = self;
        Closer { seat, plan }
    }
}

impl Note {
    ghost use Rattle.std.specs.Prelude.{◌≡◌, ◌^◌, ◌-◌, min, []};
    ghost use Rattle.std.specs.List.{sum};

    /// Returns how many jobs all lanes have accepted, and `2^64 - 1` if there are more.
    pub fn number(&self) -> u64
        ensures { result ≡ min (sum self.now.counts) (2 ^ 64 - 1) }
    {
        self.total
    }

    /// Drops the note. Its lanes cannot end then.
    pub fn abandon(self) {
        let Note {
            seat,
            plan: _,
            total: _,
        } = self;
        drop(seat);
    }

    /// Returns the note with no producer and no worker yet.
    pub fn into_end(self) -> LanesEnd
        ensures id { result.id ≡ self.id }
        ensures counts { result.counts ≡ self.counts }
        ensures lanes { result.lanes ≡ [] }
        ensures workers { result.workers ≡ [] }
    {
        let Note {
            seat,
            plan,
            total: _,
        } = self;
        LanesEnd { seat, plan }
    }
}

impl Lane {
    ghost use Rattle.std.specs.Prelude.{◌≡◌};

    /// Returns the lane's number.
    pub fn number(&self) -> u32
        ensures { result ≡ self.now.known.number }
    {
        self.number
    }

    /// Drops the lane. The lanes cannot end then.
    pub fn abandon(self) {
        let Lane {
            seat,
            plan: _,
            number: _,
            seen: _,
            next: _,
        } = self;
        drop(seat);
    }
}

impl Worker {
    ghost use Rattle.std.specs.Prelude.{◌≡◌};

    /// Returns the worker's number.
    pub fn number(&self) -> u32
        ensures { result ≡ self.now.known.number }
    {
        self.sleeper.number()
    }

    /// Drops the worker. The lanes cannot end then.
    pub fn abandon(self) {
        let Worker { sleeper } = self;
        sleeper.abandon();
    }
}
