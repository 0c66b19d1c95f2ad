// A take of a worker.
ghost use Rattle.std.specs.Prelude.{◌≡◌, ◌+◌, ◌<◌, ◌≤◌, length, slice_set};
ghost use Rattle.lanes.specs.Record.{take_of};
ghost use Rattle.lanes.specs.Lanes.{Takes, ChangesOnly, call_steps};
ghost use Rattle.lanes.specs.Inner.Step.{HasMark};

use crate::handles::Worker;
use crate::lanes::Lanes;
use crate::record::LaneJob;
use crate::sizes::CLOSED;

/// The outcome of a take.
#[derive(Clone, Copy, Debug, PartialEq, Eq)]
pub enum Taken {
    /// The job at the head, and the number of accepted jobs after it that the worker knows of.
    Job(LaneJob, u64),
    /// There was none.
    Empty,
    /// Another worker took the job at the head.
    Lost,
    /// There was none, and the lane is closed.
    Ended,
}

// Writes the count of one lane.
pub(crate) fn set_tail(tails: &mut Vec<u64>, lane: u32, count: u64)
    requires { lane < length tails.old.items }
    ensures { tails.new.items ≡ slice_set tails.old.items lane count }
{
    tails[lane as usize] = count;
}

// Returns the count of accepted jobs in the word, and whether the closed mark is there.
pub(crate) fn count_and_mark(found: u64) -> (u64, bool)
    ensures { HasMark found result.0 result.1 }
{
    if found < CLOSED {
        (found, false)
    } else {
        (found - CLOSED, true)
    }
}

impl Lanes {
    /// Takes the job at the head of the lane. It makes at most five atomic steps in that lane.
    /// `Empty` and `Ended` come from a read of the count of accepted jobs in this call.
    pub fn take(&self, worker: &mut Worker, lane: u32) -> Taken
        requires id { worker.old.id ≡ self.now }
        requires lane { lane < self.now.plan.sizes.lanes }
        ensures id { worker.new.id ≡ self.now }
        ensures deeds { worker.new.deeds ≡ worker.old.deeds }
        ensures only { ChangesOnly lane worker.old.known worker.new.known }
        ensures takes { Takes (take_of lane worker.old.known) result
            (take_of lane worker.new.known) }
        ensures steps { (take_of lane worker.new.known).steps
            ≤ (take_of lane worker.old.known).steps + call_steps }
    {
        self.take_as(&mut worker.sleeper, lane, false)
    }
}
