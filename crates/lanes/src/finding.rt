// The loop of a worker that sleeps while there is no job, in rounds.
ghost use Rattle.std.specs.Prelude.{ℕ, ◌≡◌, ◌≢◌, ◌⊎◌, ◌+◌, ◌*◌, ◌-◌, ◌<◌, true, false, None, IfSome};
ghost use Rattle.wake_pool.specs.declared.phase.WakePhase.TheVariants.{Idle, Searching, Found as HasFound, Returning, Reading, Parked};
ghost use Rattle.wake_pool.specs.Schedule.{waking, looking, resting};
ghost use Rattle.wake_pool.specs.Words.{word_count};
ghost use Rattle.lanes.specs.declared.finder.At.TheVariants.{Waking as AtWaking, Parked as AtParked, Reading as AtReading};
ghost use Rattle.lanes.specs.Record.{take_of};
ghost use Rattle.lanes.specs.Deeds.{after_gift, and_given, given_in, has_call};
ghost use Rattle.lanes.specs.Lanes.{look_steps};
ghost use Rattle.lanes.specs.Phases.{phase_of, IsAwake, IsFree};
ghost use Rattle.lanes.specs.Sleep.{FindsNone, Finds, SawOneOpen, StopsAt, IsNone, find_steps};
ghost use Rattle.lanes.specs.Inner.Sleeper.{MaySleepIn};

use crate::finder::{At, Finder, Finding, Found};
use crate::lanes::Lanes;
use crate::rounds::{Looked, TakenAny};
use crate::sleeping::Sleeper;
use wake_calls::{Asleep, Back, Wake};

// The outcome of a round, and where the worker is after it.
#[derive(Drop)]
pub(crate) struct Round {
    pub found: Found,
    pub woken: Option<u32>,
    pub at: At,
}

// Returns a round that found no job. A worker that parks is to wait for its token.
fn again(at: At, woken: Option<u32>) -> Round
    ensures at { result.at ≡ at }
    ensures woken { result.woken ≡ woken }
    ensures found { StopsAt result.found at }
    ensures none { IsNone result.found }
{
    let found = if at == At::Parked {
        Found::Park
    } else {
        Found::Again
    };
    Round { found, woken, at }
}

impl Lanes {
    // Looks at every lane, before the worker parks. Returns where it is then.
    fn look_at_all(&self, sleeper: &mut Sleeper) -> At
        requires id { sleeper.old.id ≡ self.now }
        requires phase { sleeper.old.phase ≡ resting self.now.plan.sizes.lanes 0 }
        ensures id { sleeper.new.id ≡ self.now }
        ensures deeds { sleeper.new.deeds ≡ sleeper.old.deeds }
        ensures phase { sleeper.new.phase ≡ phase_of self.now.plan result }
        ensures awake { IsAwake result }
        ensures none { FindsNone self.now.plan.sizes.lanes look_steps
            sleeper.old.known sleeper.new.known }
    {
        let mut lane = 0;
        while lane < self.plan.sizes.lanes {
            if !self.look_before_park(sleeper, lane) {
                return At::Returning;
            }
            lane += 1;
        }
        At::Reading
    }

    // Looks at every lane, before the worker lies down. Returns whether one was open and empty.
    //
    // If none was, the worker must not lie down. All lanes may be closed, and it may have taken the
    // call of their closer: then nobody would wake it again.
    fn may_lie_down(&self, sleeper: &mut Sleeper) -> bool
        requires id { sleeper.old.id ≡ self.now }
        ensures id { sleeper.new.id ≡ self.now }
        ensures deeds { sleeper.new.deeds ≡ sleeper.old.deeds }
        ensures same { sleeper.new.phase ≡ sleeper.old.phase }
        ensures open { result ≡ true → SawOneOpen self.now.plan.sizes.lanes sleeper.new.known }
        ensures none { FindsNone self.now.plan.sizes.lanes look_steps
            sleeper.old.known sleeper.new.known }
    {
        let mut lane = 0;
        while lane < self.plan.sizes.lanes {
            if let Looked::NoneLeft = self.look_as(sleeper, lane) {
                return true;
            }
            lane += 1;
        }
        false
    }

    // Looks at every lane, after the worker has found work. Returns whether no more is left.
    fn no_more(&self, sleeper: &mut Sleeper) -> bool
        requires id { sleeper.old.id ≡ self.now }
        requires phase { sleeper.old.phase ≡ looking self.now.plan.sizes.lanes 0 }
        ensures id { sleeper.new.id ≡ self.now }
        ensures deeds { sleeper.new.deeds ≡ sleeper.old.deeds }
        ensures idle { result ≡ true → sleeper.new.phase ≡ Idle }
        ensures more { result ≡ false
            → sleeper.new.phase ≡ waking (word_count self.now.plan.sleepers) 0 }
        ensures none { FindsNone self.now.plan.sizes.lanes look_steps
            sleeper.old.known sleeper.new.known }
    {
        let mut lane = 0;
        while lane < self.plan.sizes.lanes {
            if !self.look_for_more(sleeper, lane) {
                return false;
            }
            lane += 1;
        }
        true
    }

    // Wakes another worker, by at most this number of tries. Returns it, and where this one is.
    fn wake_other(&self, sleeper: &mut Sleeper, word: u64, tries: u32) -> (At, Option<u32>)
        requires id { sleeper.old.id ≡ self.now }
        requires phase { sleeper.old.phase ≡ waking (word_count self.now.plan.sleepers) word }
        ensures id { sleeper.new.id ≡ self.now }
        ensures deeds { sleeper.new.deeds ≡ after_gift result.1 sleeper.old.deeds }
        ensures phase { sleeper.new.phase ≡ phase_of self.now.plan result.0 }
        ensures free { IsFree result.0 }
        ensures known { sleeper.new.known ≡ sleeper.old.known }
        ensures woken { IfSome result.1 (λ x. x < self.now.plan.sleepers) }
    {
        match self.wake(sleeper, word, tries) {
            Wake::Nobody => (At::Idle, None),
            Wake::Again(left) => (At::Waking(left), None),
            Wake::Worker(other) => {
                self.give(sleeper, other);
                (At::Idle, Some(other))
            }
        }
    }

    // Ends the search of a worker that has work. If more is left, it wakes another.
    fn end_search(&self, sleeper: &mut Sleeper, tries: u32) -> (At, Option<u32>)
        requires phase { MaySleepIn self.now HasFound sleeper.old }
        ensures id { sleeper.new.id ≡ self.now }
        ensures deeds { sleeper.new.deeds ≡ after_gift result.1 sleeper.old.deeds }
        ensures phase { sleeper.new.phase ≡ phase_of self.now.plan result.0 }
        ensures free { IsFree result.0 }
        ensures none { FindsNone self.now.plan.sizes.lanes look_steps
            sleeper.old.known sleeper.new.known }
        ensures woken { IfSome result.1 (λ x. x < self.now.plan.sleepers) }
    {
        self.leave(sleeper);
        if self.no_more(sleeper) {
            return (At::Idle, None);
        }
        self.wake_other(sleeper, 0, tries)
    }

    // Returns how many jobs after this one the worker knows to be accepted.
    fn left_after(&self, sleeper: &Sleeper, lane: u32, seq: u64) -> u64
        requires id { sleeper.now.id ≡ self.now }
        requires lane { lane < self.now.plan.sizes.lanes }
        ensures { result ≡ (take_of lane sleeper.now.known).tail - (seq + 1) }
    {
        let tail = sleeper.tails[lane as usize];
        tail.saturating_sub(seq).saturating_sub(1)
    }

    // The round of an idle worker: it takes a job, or lies down.
    fn round_idle(&self, sleeper: &mut Sleeper, from: u32) -> Round
        requires from { from < self.now.plan.sizes.lanes }
        requires phase { MaySleepIn self.now Idle sleeper.old }
        ensures id { sleeper.new.id ≡ self.now }
        ensures deeds { sleeper.new.deeds ≡ sleeper.old.deeds }
        ensures phase { sleeper.new.phase ≡ phase_of self.now.plan result.at }
        ensures at { StopsAt result.found result.at }
        ensures finds { Finds self.now.plan.sizes.lanes from find_steps
            sleeper.old.known result.found sleeper.new.known }
        ensures nobody { result.woken ≡ None }
    {
        match self.take_round(sleeper, from, false) {
            TakenAny::AnyJob(lane, job, left) => Round {
                found: Found::Job(lane, job, left),
                woken: None,
                at: At::Idle,
            },
            TakenAny::AllEnded => Round {
                found: Found::Ended,
                woken: None,
                at: At::Idle,
            },
            TakenAny::NoJob => {
                if !self.may_lie_down(sleeper) {
                    return again(At::Idle, None);
                }
                self.rest(sleeper);
                let at = self.look_at_all(sleeper);
                Round {
                    found: Found::Again,
                    woken: None,
                    at,
                }
            }
        }
    }

    // The round of the searcher: it takes a job and wakes another for more, or lies down. Once all
    // lanes have ended, it ends its search.
    fn round_searching(&self, sleeper: &mut Sleeper, from: u32, tries: u32) -> Round
        requires from { from < self.now.plan.sizes.lanes }
        requires phase { MaySleepIn self.now Searching sleeper.old }
        ensures id { sleeper.new.id ≡ self.now }
        ensures given { given_in sleeper.new.deeds
            ≡ and_given result.woken (given_in sleeper.old.deeds) }
        ensures calls { has_call sleeper.old.deeds ≡ false
            → has_call sleeper.new.deeds ≡ false }
        ensures phase { sleeper.new.phase ≡ phase_of self.now.plan result.at }
        ensures at { StopsAt result.found result.at }
        ensures finds { Finds self.now.plan.sizes.lanes from find_steps
            sleeper.old.known result.found sleeper.new.known }
        ensures woken { IfSome result.woken (λ x. x < self.now.plan.sleepers) }
    {
        match self.take_round(sleeper, from, true) {
            TakenAny::AnyJob(lane, job, _) => {
                let (at, woken) = self.end_search(sleeper, tries);
                let left = self.left_after(sleeper, lane, job.seq);
                Round {
                    found: Found::Job(lane, job, left),
                    woken,
                    at,
                }
            }
            TakenAny::AllEnded => {
                self.find_call(sleeper);
                Round {
                    found: Found::Again,
                    woken: None,
                    at: At::HasWork,
                }
            }
            TakenAny::NoJob => {
                if !self.may_lie_down(sleeper) {
                    return again(At::Searching, None);
                }
                self.lie_down(sleeper);
                let at = self.look_at_all(sleeper);
                Round {
                    found: Found::Again,
                    woken: None,
                    at,
                }
            }
        }
    }

    // The round of a worker that has set its bit and seen a job: it takes its bit back.
    fn round_back(&self, sleeper: &mut Sleeper, tries: u32) -> At
        requires phase { MaySleepIn self.now Returning sleeper.old }
        ensures id { sleeper.new.id ≡ self.now }
        ensures deeds { sleeper.new.deeds ≡ sleeper.old.deeds }
        ensures phase { sleeper.new.phase ≡ phase_of self.now.plan result }
        ensures awake { IsAwake result }
        ensures known { sleeper.new.known ≡ sleeper.old.known }
    {
        match self.try_back(sleeper, tries) {
            Back::Searches => At::Searching,
            Back::Stays => At::Reading,
            Back::Again => At::Returning,
        }
    }

    // The round of a worker that has set its bit: it takes its call, or searches, or parks.
    fn round_reading(&self, sleeper: &mut Sleeper) -> At
        requires phase { MaySleepIn self.now Reading sleeper.old }
        ensures id { sleeper.new.id ≡ self.now }
        ensures given { given_in sleeper.new.deeds ≡ given_in sleeper.old.deeds }
        ensures calls { has_call sleeper.old.deeds ≡ false
            → has_call sleeper.new.deeds ≡ false }
        ensures phase { sleeper.new.phase ≡ phase_of self.now.plan result }
        ensures known { sleeper.new.known ≡ sleeper.old.known }
    {
        match self.before_park(sleeper) {
            Asleep::Call => {
                self.take_call(sleeper);
                At::Idle
            }
            Asleep::CallOfSearcher => At::HasWork,
            Asleep::Woken => At::Searching,
            Asleep::Park => At::Parked,
        }
    }

    // Takes the token of a worker that parks. Returns where it is.
    fn round_parked(&self, sleeper: &mut Sleeper) -> At
        requires phase { MaySleepIn self.now Parked sleeper.old }
        ensures id { sleeper.new.id ≡ self.now }
        ensures deeds { sleeper.new.deeds ≡ sleeper.old.deeds }
        ensures phase { sleeper.new.phase ≡ phase_of self.now.plan result }
        ensures at { (result ≡ AtParked) ⊎ (result ≡ AtReading) }
        ensures known { sleeper.new.known ≡ sleeper.old.known }
    {
        if self.wait(sleeper) {
            return At::Reading;
        }
        At::Parked
    }
    // One round of `find`, by where the worker is.
    fn find_round(&self, sleeper: &mut Sleeper, at: At, from: u32, tries: u32) -> Round
        requires from { from < self.now.plan.sizes.lanes }
        requires phase { MaySleepIn self.now (phase_of self.now.plan at) sleeper.old }
        ensures id { sleeper.new.id ≡ self.now }
        ensures given { given_in sleeper.new.deeds
            ≡ and_given result.woken (given_in sleeper.old.deeds) }
        ensures calls { has_call sleeper.old.deeds ≡ false
            → has_call sleeper.new.deeds ≡ false }
        ensures phase { sleeper.new.phase ≡ phase_of self.now.plan result.at }
        ensures at { StopsAt result.found result.at }
        ensures finds { Finds self.now.plan.sizes.lanes from find_steps
            sleeper.old.known result.found sleeper.new.known }
        ensures woken { IfSome result.woken (λ x. x < self.now.plan.sleepers) }
    {
        match at {
            At::Idle => self.round_idle(sleeper, from),
            At::Searching => self.round_searching(sleeper, from, tries),
            At::Waking(word) => {
                let (at, woken) = self.wake_other(sleeper, word, tries);
                again(at, woken)
            }
            At::HasWork => {
                let (at, woken) = self.end_search(sleeper, tries);
                again(at, woken)
            }
            At::Returning => again(self.round_back(sleeper, tries), None),
            At::Reading => again(self.round_reading(sleeper), None),
            At::Parked => again(self.round_parked(sleeper), None),
        }
    }

    // The rounds of `find`, from this place on.
    fn find_from(&self, sleeper: &mut Sleeper, at: At, from: u32, tries: u32) -> Round
        requires from { from < self.now.plan.sizes.lanes }
        requires phase { MaySleepIn self.now (phase_of self.now.plan at) sleeper.old }
        ensures id { sleeper.new.id ≡ self.now }
        ensures given { given_in sleeper.new.deeds
            ≡ and_given result.woken (given_in sleeper.old.deeds) }
        ensures calls { has_call sleeper.old.deeds ≡ false
            → has_call sleeper.new.deeds ≡ false }
        ensures phase { sleeper.new.phase ≡ phase_of self.now.plan result.at }
        ensures at { StopsAt result.found result.at }
        ensures finds { Finds self.now.plan.sizes.lanes from (tries * find_steps)
            sleeper.old.known result.found sleeper.new.known }
        ensures woken { IfSome result.woken (λ x. x < self.now.plan.sleepers) }
    {
        let mut at = at;
        let mut turn = 0;
        while turn < tries {
            let round = self.find_round(sleeper, at, from, tries);
            if round.found != Found::Again || round.woken.is_some() {
                return round;
            }
            at = round.at;
            turn += 1;
        }
        again(at, None)
    }

    /// Finds a job, or lets the worker lie down: it looks for a job in all lanes, from the lane
    /// `from` on. If it finds one after it was woken and more are left, it wakes another. It makes
    /// at most `tries` rounds, with at most `tries` lost exchanges in each. The next call goes on
    /// where this one stopped. If `at` is `Waking` after a job, `wake_more` or the next call goes
    /// on to wake.
    pub fn find(&self, finder: &mut Finder, from: u32, tries: u32) -> Finding
        requires id { finder.old.id ≡ self.now }
        requires from { from < self.now.plan.sizes.lanes }
        ensures id { finder.new.id ≡ self.now }
        ensures given { given_in finder.new.deeds
            ≡ and_given result.woken (given_in finder.old.deeds) }
        ensures calls { has_call finder.old.deeds ≡ false
            → has_call finder.new.deeds ≡ false }
        ensures finds { Finds self.now.plan.sizes.lanes from (tries * find_steps)
            finder.old.known result.found finder.new.known }
        ensures at { StopsAt result.found finder.new.at }
        ensures woken { IfSome result.woken (λ x. x < self.now.plan.sleepers) }
    {
        let round = self.find_from(&mut finder.sleeper, finder.at, from, tries);
        finder.at = round.at;
        Finding {
            found: round.found,
            woken: round.woken,
        }
    }

    /// Goes on to wake another worker, if this one has still to look whether one is to be woken
    /// (`At::Waking`). It looks at most at `tries` words. It returns a worker that was given its
    /// token. The caller unparks the thread of that worker.
    pub fn wake_more(&self, finder: &mut Finder, tries: u32) -> Option<u32>
        requires { finder.old.id ≡ self.now }
        ensures id { finder.new.id ≡ self.now }
        ensures deeds { finder.new.deeds ≡ after_gift result finder.old.deeds }
        ensures known { finder.new.known ≡ finder.old.known }
        ensures free { IsFree finder.old.at → IsFree finder.new.at }
        ensures other { ((word : ℕ) → finder.old.at ≢ AtWaking word)
            → finder.new.at ≡ finder.old.at }
        ensures woken { IfSome result (λ x. x < self.now.plan.sleepers) }
    {
        let At::Waking(word) = finder.at else {
            return None;
        };
        let (at, woken) = self.wake_other(&mut finder.sleeper, word, tries);
        finder.at = at;
        woken
    }

    /// Takes the token of a worker that parks. Returns whether the worker is awake then. The
    /// caller parks the thread if it is not.
    pub fn awake(&self, finder: &mut Finder) -> bool
        requires { finder.old.id ≡ self.now }
        ensures id { finder.new.id ≡ self.now }
        ensures deeds { finder.new.deeds ≡ finder.old.deeds }
        ensures known { finder.new.known ≡ finder.old.known }
        ensures parks { result ≡ false → finder.new.at ≡ AtParked }
        ensures awake { result ≡ true → IsAwake finder.new.at }
        ensures same { finder.old.at ≢ AtParked → finder.new.at ≡ finder.old.at }
    {
        if finder.at != At::Parked {
            return true;
        }
        finder.at = self.round_parked(&mut finder.sleeper);
        finder.at != At::Parked
    }
}
