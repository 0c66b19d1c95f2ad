// A look at one lane, and a round of all lanes.
ghost use Rattle.std.specs.Prelude.{◌≡◌, ◌+◌, ◌<◌};
ghost use Rattle.lanes.specs.Record.{take_of};
ghost use Rattle.lanes.specs.Lanes.{Looks, TakesAny, TakeAnyKeeps, ChangesOnly};
ghost use Rattle.lanes.specs.Inner.Round.{next_lane};
ghost use Rattle.lanes.specs.Inner.Sleeper.{StaysInLane};

use crate::handles::Worker;
use crate::lanes::Lanes;
use crate::record::LaneJob;
use crate::sleeping::Sleeper;

/// The outcome of a look at one lane.
#[derive(Clone, Copy, Debug, PartialEq, Eq)]
pub enum Looked {
    /// The number of accepted jobs that were not taken, as far as the worker knows.
    Jobs(u64),
    /// There was no job.
    NoneLeft,
    /// There was none, and the lane is closed.
    AllTaken,
}

/// The outcome of a round of all lanes.
#[derive(Clone, Copy, Debug, PartialEq, Eq)]
pub enum TakenAny {
    /// The lane, its job at the head, and the number of accepted jobs after it that the worker
    /// knows of.
    AnyJob(u32, LaneJob, u64),
    /// There was none, or other workers took it.
    NoJob,
    /// There was none, and all lanes are closed.
    AllEnded,
}

// Returns the lane after this one, in a round.
pub(crate) fn lane_after(lane: u32, lanes: u32) -> u32
    requires { lane < lanes }
    ensures { result ≡ next_lane lanes lane }
{
    if lane + 1 < lanes { lane + 1 } else { 0 }
}

impl Lanes {
    /// Looks for a job in the lane, without taking it. It makes at most two atomic steps in that
    /// lane, of which the first reads how many jobs were taken.
    pub fn look(&self, worker: &mut Worker, lane: u32) -> Looked
        requires id { worker.old.id ≡ self.now }
        requires lane { lane < self.now.plan.sizes.lanes }
        ensures id { worker.new.id ≡ self.now }
        ensures deeds { worker.new.deeds ≡ worker.old.deeds }
        ensures only { ChangesOnly lane worker.old.known worker.new.known }
        ensures looks { Looks (take_of lane worker.old.known) result
            (take_of lane worker.new.known) }
    {
        self.look_as(&mut worker.sleeper, lane)
    }

    // The same, whatever the worker does at the moment.
    #[tactic(auto, using(crate::proofs::CallLemmas::only_again))]
    pub(crate) fn look_as(&self, sleeper: &mut Sleeper, lane: u32) -> Looked
        requires id { sleeper.old.id ≡ self.now }
        requires lane { lane < self.now.plan.sizes.lanes }
        ensures stays { StaysInLane self.now lane sleeper.old sleeper.new }
        ensures same { sleeper.new.phase ≡ sleeper.old.phase }
        ensures looks { Looks (take_of lane sleeper.old.known) result
            (take_of lane sleeper.new.known) }
    {
        let head = self.head_of(sleeper, lane);
        match self.count_of(sleeper, lane, head) {
            Err(true) => Looked::AllTaken,
            Err(false) => Looked::NoneLeft,
            Ok(count) => Looked::Jobs(count - head),
        }
    }

    /// Takes the job at the head of the first lane where it can, in one round of all lanes from the
    /// lane `from` on. It makes at most five atomic steps in each lane.
    #[inline(always)]
    pub fn take_any(&self, worker: &mut Worker, from: u32) -> TakenAny
        requires id { worker.old.id ≡ self.now }
        requires from { from < self.now.plan.sizes.lanes }
        ensures id { worker.new.id ≡ self.now }
        ensures deeds { worker.new.deeds ≡ worker.old.deeds }
        ensures takes { TakesAny self.now.plan.sizes.lanes from worker.old.known result
            worker.new.known }
        ensures keeps { TakeAnyKeeps self.now.plan.sizes.lanes worker.old.known worker.new.known }
    {
        self.take_round(&mut worker.sleeper, from, false)
    }
}
