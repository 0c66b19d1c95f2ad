// A worker that may sleep: each call of `wake_calls`, of one atomic step, for the seat of a worker.
ghost use Rattle.std.specs.Prelude.{ℕ, ◌≡◌, ◌≢◌, ◌∷◌, ◌+◌, ◌<◌, ◌≤◌, true, false};
ghost use Rattle.wake_pool.specs.declared.phase.WakePhase.TheVariants.{Idle, Waking, Looking, Giving, Calling, Searching, Found, Resting, Returning, Reading, Parked};
ghost use Rattle.wake_pool.specs.Schedule.{waking, looking, resting};
ghost use Rattle.wake_pool.specs.Words.{word_count, world_of};
ghost use Rattle.wake_calls.specs.declared.deed.WakeDeed.TheVariants.{Gave, RoseForCall, TookCall};
ghost use Rattle.wake_calls.specs.declared.sleeping.Back.TheVariants.{Searches, Stays, Again};
ghost use Rattle.wake_calls.specs.declared.sleeping.Asleep.TheVariants.{Call, CallOfSearcher, Woken, Park};
ghost use Rattle.wake_calls.specs.declared.waking.Wake.TheVariants.{Nobody, Worker as WokenWorker, Again as WakeAgain};
ghost use Rattle.lanes.specs.Sleep.{SleeperOf};
ghost use Rattle.atomic_table.specs.Table.{State};
ghost use Rattle.wake_pool.specs.Law.{IsServed};
ghost use Rattle.lanes.specs.Inner.Pool.{KeepsBoth, jobs_in, looked, LooksAt};
ghost use Rattle.lanes.specs.Record.{take_of};
ghost use Rattle.lanes.specs.Lanes.{ChangesOnly, TakesNothing, look_steps};
ghost use Rattle.lanes.specs.declared.sizes.Plan.{Plan as ThePlan};
ghost use Rattle.lanes.specs.declared.view.Both.{Both as TheBoth};
ghost use Rattle.lanes.specs.Inner.Sleeper.{HasHead, StaysInLane};

use crate::handles::{Seat, Worker};
use crate::lanes::Lanes;
use crate::rule::LookOn;
use crate::sizes::{Plan, TAIL};
use crate::takes::{count_and_mark, set_tail};
use std::marker::Model;
use wake_calls::{Asleep, Back, Wake};

/// A worker, and what it does at the moment. It takes jobs as a `Worker` while it is idle.
pub struct Sleeper {
    pub(crate) seat: Seat,
    pub(crate) plan: Plan,
    pub(crate) number: u32,
    pub(crate) tails: Vec<u64>,
}

impl Model for Sleeper {
    ghost use Rattle.lanes.specs.Sleep.{SleeperOf};
    ghost use Rattle.lanes.specs.Inner.Step.{IsWorker, worker_in};
    ghost use Rattle.lanes.specs.Inner.Pool.{IsSleeper, known_sat, phase_in};

    ghost Value = { SleeperOf };

    ghost view = { λ w. record {
      id = record { table = w.seat.table_id; plan = w.plan };
      known = worker_in w.seat.me.0.known.workers;
      phase = phase_in w.seat.me.0.sleepers;
      deeds = w.seat.me.0.deeds;
    } };

    ghost invariant = { λ w. IsWorker w.plan w.number w.tails.items (known_sat w.seat.me)
        × IsSleeper w.plan w.number (phase_in w.seat.me.0.sleepers) w.seat.me };
}

impl Worker {
    /// Returns the worker as one that may sleep. It is idle.
    pub fn into_sleeper(self) -> Sleeper
        ensures id { result.id ≡ self.id }
        ensures known { result.known ≡ self.known }
        ensures deeds { result.deeds ≡ self.deeds }
        ensures idle { result.phase ≡ Idle }
    {
        let Worker { sleeper } = self;
        sleeper
    }
}

impl Sleeper {
    /// Returns the worker's number.
    pub fn number(&self) -> u32
        ensures { result ≡ self.now.known.number }
    {
        let number = self.number;
        number
    }

    // Returns whether its lanes have a word for it.
    pub(crate) fn may_sleep(&self) -> bool
        ensures yes { result ≡ true → self.now.known.number < self.now.id.plan.sleepers }
        ensures no { result ≡ false → self.now.id.plan.sleepers ≤ self.now.known.number }
    {
        self.number < self.plan.sleepers
    }

    /// Drops the worker. The lanes cannot end then.
    pub fn abandon(self) {
        let Sleeper {
            seat,
            plan: _,
            number: _,
            tails: _,
        } = self;
        drop(seat);
    }

    /// Returns the worker, which is idle.
    pub fn into_worker(self) -> Worker
        requires { self.phase ≡ Idle }
        ensures id { result.id ≡ self.id }
        ensures known { result.known ≡ self.known }
        ensures deeds { result.deeds ≡ self.deeds }
    {
        Worker { sleeper: self }
    }
}

impl Lanes {
    /// Makes an idle worker the searcher of its word, if there is none. Returns whether it did.
    pub fn claim(&self, sleeper: &mut Sleeper) -> bool
        requires id { sleeper.old.id ≡ self.now }
        requires may_sleep { sleeper.old.known.number < self.now.plan.sleepers }
        requires phase { sleeper.old.phase ≡ Idle }
        ensures id { sleeper.new.id ≡ self.now }
        ensures deeds { sleeper.new.deeds ≡ sleeper.old.deeds }
        ensures known { sleeper.new.known ≡ sleeper.old.known }
        ensures searches { result ≡ true → sleeper.new.phase ≡ Searching }
        ensures other { result ≡ false → sleeper.new.phase ≡ Idle }
    {
        let workers = self.plan.sleepers;
        wake_calls::claim(
            &self.table.shared,
            workers,
            &mut sleeper.seat,
            sleeper.number,
        )
    }

    /// Sets the bit of an idle worker. It looks at every lane next (`look_before_park`).
    pub fn rest(&self, sleeper: &mut Sleeper)
        requires id { sleeper.old.id ≡ self.now }
        requires may_sleep { sleeper.old.known.number < self.now.plan.sleepers }
        requires phase { sleeper.old.phase ≡ Idle }
        ensures id { sleeper.new.id ≡ self.now }
        ensures deeds { sleeper.new.deeds ≡ sleeper.old.deeds }
        ensures known { sleeper.new.known ≡ sleeper.old.known }
        ensures rests { sleeper.new.phase ≡ resting self.now.plan.sizes.lanes 0 }
    {
        let workers = self.plan.sleepers;
        wake_calls::rest(
            &self.table.shared,
            workers,
            &mut sleeper.seat,
            sleeper.number,
        );
    }

    /// Ends the search of a searcher without work, and sets its bit. It looks at every lane next.
    pub fn lie_down(&self, sleeper: &mut Sleeper)
        requires id { sleeper.old.id ≡ self.now }
        requires may_sleep { sleeper.old.known.number < self.now.plan.sleepers }
        requires phase { sleeper.old.phase ≡ Searching }
        ensures id { sleeper.new.id ≡ self.now }
        ensures deeds { sleeper.new.deeds ≡ sleeper.old.deeds }
        ensures known { sleeper.new.known ≡ sleeper.old.known }
        ensures rests { sleeper.new.phase ≡ resting self.now.plan.sizes.lanes 0 }
    {
        let workers = self.plan.sleepers;
        wake_calls::lie_down(
            &self.table.shared,
            workers,
            &mut sleeper.seat,
            sleeper.number,
        );
    }

    /// Ends the search of a searcher that has work. It looks at every lane next (`look_for_more`).
    pub fn leave(&self, sleeper: &mut Sleeper)
        requires id { sleeper.old.id ≡ self.now }
        requires may_sleep { sleeper.old.known.number < self.now.plan.sleepers }
        requires phase { sleeper.old.phase ≡ Found }
        ensures id { sleeper.new.id ≡ self.now }
        ensures deeds { sleeper.new.deeds ≡ sleeper.old.deeds }
        ensures known { sleeper.new.known ≡ sleeper.old.known }
        ensures looks { sleeper.new.phase ≡ looking self.now.plan.sizes.lanes 0 }
    {
        let workers = self.plan.sleepers;
        wake_calls::leave(
            &self.table.shared,
            workers,
            &mut sleeper.seat,
            sleeper.number,
        );
    }

    // Returns whether no more jobs were accepted than `head`, so that the lane is empty.
    fn look_at(&self, sleeper: &mut Sleeper, lane: u32, head: u64) -> bool
        requires head { HasHead self.now lane head sleeper.old }
        requires looks { LooksAt sleeper.old.phase lane }
        ensures stays { StaysInLane self.now lane sleeper.old sleeper.new }
        ensures phase { sleeper.new.phase ≡ looked self.now.plan sleeper.old.phase result }
        ensures none { TakesNothing 1 (take_of lane sleeper.old.known)
            (take_of lane sleeper.new.known) }
    {
        let tail = self.word(lane, TAIL);
        let found = self.table.shared.load::<LookOn>(&mut sleeper.seat, tail);
        let (count, _) = count_and_mark(found);
        if count == head {
            return true;
        }
        set_tail(&mut sleeper.tails, lane, count);
        false
    }

    /// Looks at a lane, after `rest` or `lie_down`. Returns whether it is empty. If it is not, the
    /// worker takes its bit back (`try_back`).
    #[tactic(auto, using(crate::proofs::CallLemmas::only_again, crate::proofs::FindLemmas::looks_once))]
    pub fn look_before_park(&self, sleeper: &mut Sleeper, lane: u32) -> bool
        requires id { sleeper.old.id ≡ self.now }
        requires lane { lane < self.now.plan.sizes.lanes }
        requires phase { sleeper.old.phase ≡ Resting lane }
        ensures id { sleeper.new.id ≡ self.now }
        ensures deeds { sleeper.new.deeds ≡ sleeper.old.deeds }
        ensures only { ChangesOnly lane sleeper.old.known sleeper.new.known }
        ensures empty { result ≡ true → sleeper.new.phase
            ≡ resting self.now.plan.sizes.lanes (lane + 1) }
        ensures job { result ≡ false → sleeper.new.phase ≡ Returning }
        ensures none { TakesNothing look_steps (take_of lane sleeper.old.known)
            (take_of lane sleeper.new.known) }
    {
        let head = self.head_of(sleeper, lane);
        self.look_at(sleeper, lane, head)
    }

    /// Looks at a lane, after `leave`. Returns whether it is empty. If it is not, the worker wakes
    /// another (`wake`).
    #[tactic(auto, using(crate::proofs::CallLemmas::only_again, crate::proofs::FindLemmas::looks_once))]
    pub fn look_for_more(&self, sleeper: &mut Sleeper, lane: u32) -> bool
        requires id { sleeper.old.id ≡ self.now }
        requires lane { lane < self.now.plan.sizes.lanes }
        requires phase { sleeper.old.phase ≡ Looking lane }
        ensures id { sleeper.new.id ≡ self.now }
        ensures deeds { sleeper.new.deeds ≡ sleeper.old.deeds }
        ensures only { ChangesOnly lane sleeper.old.known sleeper.new.known }
        ensures empty { result ≡ true → sleeper.new.phase
            ≡ looking self.now.plan.sizes.lanes (lane + 1) }
        ensures job { result ≡ false → sleeper.new.phase
            ≡ waking (word_count self.now.plan.sleepers) 0 }
        ensures none { TakesNothing look_steps (take_of lane sleeper.old.known)
            (take_of lane sleeper.new.known) }
    {
        let head = self.head_of(sleeper, lane);
        self.look_at(sleeper, lane, head)
    }

    /// Takes back the bit of a worker that has seen a job, by at most this number of tries.
    pub fn try_back(&self, sleeper: &mut Sleeper, tries: u32) -> Back
        requires id { sleeper.old.id ≡ self.now }
        requires may_sleep { sleeper.old.known.number < self.now.plan.sleepers }
        requires phase { sleeper.old.phase ≡ Returning }
        ensures id { sleeper.new.id ≡ self.now }
        ensures deeds { sleeper.new.deeds ≡ sleeper.old.deeds }
        ensures known { sleeper.new.known ≡ sleeper.old.known }
        ensures searches { result ≡ Searches → sleeper.new.phase ≡ Searching }
        ensures stays { result ≡ Stays → sleeper.new.phase ≡ Reading }
        ensures again { result ≡ Again → sleeper.new.phase ≡ Returning }
    {
        let workers = self.plan.sleepers;
        wake_calls::try_back(
            &self.table.shared,
            workers,
            &mut sleeper.seat,
            sleeper.number,
            tries,
        )
    }

    /// Looks at the mailbox of a worker that has rested or taken its token, and then at its bit.
    pub fn before_park(&self, sleeper: &mut Sleeper) -> Asleep
        requires id { sleeper.old.id ≡ self.now }
        requires may_sleep { sleeper.old.known.number < self.now.plan.sleepers }
        requires phase { sleeper.old.phase ≡ Reading }
        ensures id { sleeper.new.id ≡ self.now }
        ensures rose { result ≡ Call → sleeper.new.deeds ≡ RoseForCall ∷ sleeper.old.deeds }
        ensures deeds { result ≢ Call → sleeper.new.deeds ≡ sleeper.old.deeds }
        ensures known { sleeper.new.known ≡ sleeper.old.known }
        ensures call { result ≡ Call → sleeper.new.phase ≡ Idle }
        ensures call_of_searcher { result ≡ CallOfSearcher → sleeper.new.phase ≡ Found }
        ensures woken { result ≡ Woken → sleeper.new.phase ≡ Searching }
        ensures park { result ≡ Park → sleeper.new.phase ≡ Parked }
    {
        let workers = self.plan.sleepers;
        wake_calls::before_park(
            &self.table.shared,
            workers,
            &mut sleeper.seat,
            sleeper.number,
        )
    }

    /// Takes the token of a worker that may park. Returns whether there was one.
    pub fn wait(&self, sleeper: &mut Sleeper) -> bool
        requires id { sleeper.old.id ≡ self.now }
        requires may_sleep { sleeper.old.known.number < self.now.plan.sleepers }
        requires phase { sleeper.old.phase ≡ Parked }
        ensures id { sleeper.new.id ≡ self.now }
        ensures deeds { sleeper.new.deeds ≡ sleeper.old.deeds }
        ensures known { sleeper.new.known ≡ sleeper.old.known }
        ensures awake { result ≡ true → sleeper.new.phase ≡ Reading }
        ensures not { result ≡ false → sleeper.new.phase ≡ Parked }
    {
        let workers = self.plan.sleepers;
        wake_calls::wait(
            &self.table.shared,
            workers,
            &mut sleeper.seat,
            sleeper.number,
        )
    }

    /// Takes the call of an idle worker.
    pub fn take_call(&self, sleeper: &mut Sleeper)
        requires id { sleeper.old.id ≡ self.now }
        requires may_sleep { sleeper.old.known.number < self.now.plan.sleepers }
        requires phase { sleeper.old.phase ≡ Idle }
        ensures id { sleeper.new.id ≡ self.now }
        ensures deeds { sleeper.new.deeds ≡ TookCall ∷ sleeper.old.deeds }
        ensures known { sleeper.new.known ≡ sleeper.old.known }
        ensures same { sleeper.new.phase ≡ Idle }
    {
        let workers = self.plan.sleepers;
        wake_calls::take_call(
            &self.table.shared,
            workers,
            &mut sleeper.seat,
            sleeper.number,
        );
    }

    /// Takes the call of the searcher, which has work then.
    pub fn find_call(&self, sleeper: &mut Sleeper)
        requires id { sleeper.old.id ≡ self.now }
        requires may_sleep { sleeper.old.known.number < self.now.plan.sleepers }
        requires phase { sleeper.old.phase ≡ Searching }
        ensures id { sleeper.new.id ≡ self.now }
        ensures deeds { sleeper.new.deeds ≡ TookCall ∷ sleeper.old.deeds }
        ensures known { sleeper.new.known ≡ sleeper.old.known }
        ensures found { sleeper.new.phase ≡ Found }
    {
        let workers = self.plan.sleepers;
        wake_calls::find_call(
            &self.table.shared,
            workers,
            &mut sleeper.seat,
            sleeper.number,
        );
    }

    /// Looks at the words of sleepers from `word` on. If none searches, it clears the bit of one
    /// sleeper, by at most this number of tries.
    pub fn wake(&self, sleeper: &mut Sleeper, word: u64, tries: u32) -> Wake
        requires id { sleeper.old.id ≡ self.now }
        requires phase { sleeper.old.phase ≡ (waking (word_count self.now.plan.sleepers) word) }
        ensures id { sleeper.new.id ≡ self.now }
        ensures deeds { sleeper.new.deeds ≡ sleeper.old.deeds }
        ensures known { sleeper.new.known ≡ sleeper.old.known }
        ensures nobody { result ≡ Nobody → sleeper.new.phase ≡ Idle }
        ensures woken { (x : ℕ) → result ≡ WokenWorker x → sleeper.new.phase ≡ Giving x }
        ensures again { (b : ℕ) → result ≡ WakeAgain b → sleeper.new.phase ≡ Waking b }
        ensures left { (b : ℕ) → result ≡ WakeAgain b → b < word_count self.now.plan.sleepers }
        ensures worker { (x : ℕ) → result ≡ WokenWorker x → x < self.now.plan.sleepers }
    {
        let workers = self.plan.sleepers;
        let woken = wake_calls::wake_check(
            &self.table.shared,
            workers,
            &mut sleeper.seat,
            word,
            tries,
        );
        if let Wake::Worker(worker) = woken {
            return Wake::Worker(worker);
        }
        if let Wake::Again(left) = woken {
            return Wake::Again(left);
        }
        Wake::Nobody
    }

    /// Gives a worker its token. The caller unparks that worker then.
    pub fn give(&self, sleeper: &mut Sleeper, to: u32)
        requires id { sleeper.old.id ≡ self.now }
        requires phase { sleeper.old.phase ≡ (Giving to) }
        requires to { to < self.now.plan.sleepers }
        ensures id { sleeper.new.id ≡ self.now }
        ensures deeds { sleeper.new.deeds ≡ Gave to ∷ sleeper.old.deeds }
        ensures known { sleeper.new.known ≡ sleeper.old.known }
        ensures idle { sleeper.new.phase ≡ Idle }
    {
        let workers = self.plan.sleepers;
        wake_calls::give(&self.table.shared, workers, &mut sleeper.seat, to);
    }

    /// Puts a call into the mailbox of a worker. `ring` comes next.
    pub fn call(&self, sleeper: &mut Sleeper, to: u32)
        requires id { sleeper.old.id ≡ self.now }
        requires phase { sleeper.old.phase ≡ Idle }
        requires to { to < self.now.plan.sleepers }
        ensures id { sleeper.new.id ≡ self.now }
        ensures deeds { sleeper.new.deeds ≡ sleeper.old.deeds }
        ensures known { sleeper.new.known ≡ sleeper.old.known }
        ensures calls { sleeper.new.phase ≡ Calling to }
    {
        let workers = self.plan.sleepers;
        wake_calls::call(&self.table.shared, workers, &mut sleeper.seat, to);
    }

    /// Looks at the bit of a worker that was called. Returns whether it sleeps, so that it is to be
    /// given its token.
    pub fn ring(&self, sleeper: &mut Sleeper, to: u32) -> bool
        requires id { sleeper.old.id ≡ self.now }
        requires phase { sleeper.old.phase ≡ (Calling to) }
        requires to { to < self.now.plan.sleepers }
        ensures id { sleeper.new.id ≡ self.now }
        ensures deeds { sleeper.new.deeds ≡ sleeper.old.deeds }
        ensures known { sleeper.new.known ≡ sleeper.old.known }
        ensures sleeps { result ≡ true → sleeper.new.phase ≡ Giving to }
        ensures awake { result ≡ false → sleeper.new.phase ≡ Idle }
    {
        let workers = self.plan.sleepers;
        wake_calls::ring(&self.table.shared, workers, &mut sleeper.seat, to)
    }
}

/// Holds whenever the rule of a table of lanes holds, so between any two steps of its threads. No
/// job and no call waits while all threads that could serve it sleep.
pub fn all_lanes_are_served()
    ensures { (plan : ThePlan) (s : State (Unit {0}) TheBoth) (kept : KeepsBoth plan s)
        → IsServed (world_of plan.sleepers plan.sizes.lanes s.words (jobs_in plan s.words)
        kept.phases) }
{}
