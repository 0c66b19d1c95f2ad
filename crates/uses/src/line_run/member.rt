// The slots of a run's members: a lane with its jobs, a pass with what it took, or the right to
// close. The type of a slot says what is known of its member, so it may be under a lock.
ghost use Rattle.std.specs.Prelude.{◌≡◌, ℕ, ◌++◌, List, None, Some, IfSome, MatchOption, true, false};
ghost use Rattle.std.specs.List.{All};
ghost use Rattle.job_queue.specs.Record.{accepted_jobs};
ghost use Rattle.job_queue.specs.Line.{IsFor};

use crate::line_run::draining::drain;
use crate::line_run::feeding::feed;
use job_queue::{JobLine, QueuedJob};
use job_types::Job;
use std::collections::VecDeque;
use std::marker::{Brand, Model, PhantomData};
use std::sync::Wait;

/// A name for one run: its queue, and the jobs of each lane.
pub trait Naming {
    ghost use Rattle.std.specs.Prelude.{ℕ, List};
    ghost use Rattle.job_types.specs.Job.{JobData};
    ghost use Rattle.job_queue.specs.Line.{LineId};

    ghost line: { LineId };

    ghost jobs: { ℕ → List JobData };
}

impl Naming for Brand {
    ghost use Rattle.std.specs.Prelude.{[]};
    ghost use Rattle.uses.specs.InnerNaming.{no_line};

    ghost line = { no_line };

    ghost jobs = { λ _. [] };
}

/// A lane, and the jobs that it has still to submit.
pub struct Feeder<J: Naming, L: JobLine> {
    lane: L::Lane,
    left: VecDeque<Job>,
    of: PhantomData<J>,
}

impl<J: Naming, L: JobLine> Model for Feeder<J, L> {
    ghost use Rattle.std.specs.Prelude.{◌≡◌, ◌++◌, List};
    ghost use Rattle.std.specs.List.{All};
    ghost use Rattle.job_queue.specs.Record.{accepted_jobs};
    ghost use Rattle.job_queue.specs.Line.{IsFor};
    ghost use Rattle.job_types.specs.Job.{JobData};
    ghost use Rattle.job_queue.specs.declared.record.LaneRecord.{LaneRecord};

    ghost Value = { LaneRecord × List JobData };

    ghost view = { λ f. (L.lane_record f.lane, f.left.items) };

    ghost invariant = { λ f. L.is_lane J.line f.lane
        × All (IsFor J.line.sizes.machine (L.lane_record f.lane).number) f.left.items
        × (accepted_jobs (L.lane_record f.lane) ++ f.left.items
        ≡ J.jobs (L.lane_record f.lane).number) };
}

impl<J: Naming, L: JobLine> Feeder<J, L> {
    pub fn new(lane: L::Lane, left: VecDeque<Job>) -> Feeder<J, L>
        requires lane { L.is_lane J.line lane }
        requires made_for { All (IsFor J.line.sizes.machine (L.lane_record lane).number)
            left.items }
        requires jobs { accepted_jobs (L.lane_record lane) ++ left.items
            ≡ J.jobs (L.lane_record lane).number }
        ensures { result ≡ (L.lane_record lane, left.items) }
    {
        Feeder {
            lane,
            left,
            of: PhantomData,
        }
    }

    pub fn feed<R: Wait>(&mut self, rt: &R, line: &L)
        requires { L.id line.now ≡ J.line }
    {
        feed(rt, line, &mut self.lane, &mut self.left);
    }

    pub fn into_parts(self) -> (L::Lane, VecDeque<Job>)
        ensures lane { L.is_lane J.line result.0 }
        ensures jobs { accepted_jobs (L.lane_record result.0) ++ result.1.items
            ≡ J.jobs (L.lane_record result.0).number }
        ensures parts { (L.lane_record result.0, result.1.items) ≡ self }
    {
        let Feeder { lane, left, of: _ } = self;
        (lane, left)
    }
}

/// A pass, and the jobs that it took.
pub struct Taker<J: Naming, L: JobLine> {
    pass: L::Pass,
    taken: Vec<QueuedJob>,
    of: PhantomData<J>,
}

impl<J: Naming, L: JobLine> Model for Taker<J, L> {
    ghost use Rattle.std.specs.Prelude.{◌≡◌};
    ghost use Rattle.job_queue.specs.declared.record.PassRecord.{PassRecord};

    ghost Value = { PassRecord };

    ghost view = { λ t. L.pass_record t.pass };

    ghost invariant = { λ t. L.is_pass J.line t.pass
        × ((L.pass_record t.pass).taken ≡ t.taken.items) };
}

impl<J: Naming, L: JobLine> Taker<J, L> {
    pub fn new(pass: L::Pass, taken: Vec<QueuedJob>) -> Taker<J, L>
        requires pass { L.is_pass J.line pass }
        requires taken { (L.pass_record pass).taken ≡ taken.items }
        ensures { result ≡ L.pass_record pass }
    {
        Taker {
            pass,
            taken,
            of: PhantomData,
        }
    }

    pub fn drain<R: Wait>(&mut self, rt: &R, line: &L)
        requires { L.id line.now ≡ J.line }
    {
        drain(rt, line, &mut self.pass, &mut self.taken);
    }

    pub fn into_parts(self) -> (L::Pass, Vec<QueuedJob>)
        ensures pass { L.is_pass J.line result.0 }
        ensures taken { (L.pass_record result.0).taken ≡ result.1.items }
        ensures record { L.pass_record result.0 ≡ self }
    {
        let Taker { pass, taken, of: _ } = self;
        (pass, taken)
    }
}

/// The right to close, or the note of the close.
pub struct CloserSlot<J: Naming, L: JobLine> {
    closer: Option<L::Closer>,
    note: Option<L::Note>,
    of: PhantomData<J>,
}

impl<J: Naming, L: JobLine> Model for CloserSlot<J, L> {
    ghost use Rattle.std.specs.Prelude.{◌≡◌, Bool, None, MatchOption};
    ghost use Rattle.std.specs.Option.{is_some};

    // Whether it is closed.
    ghost Value = { Bool };

    ghost view = { λ d. is_some d.note };

    ghost invariant = { λ d. MatchOption d.closer
        (MatchOption d.note ⊥ (L.is_note J.line)) (λ c. L.is_closer J.line c × (d.note ≡ None)) };
}

impl<J: Naming, L: JobLine> CloserSlot<J, L> {
    pub fn new(closer: L::Closer) -> CloserSlot<J, L>
        requires { L.is_closer J.line closer }
        ensures { result ≡ false }
    {
        CloserSlot {
            closer: Some(closer),
            note: None,
            of: PhantomData,
        }
    }

    pub fn close<R: Wait>(&mut self, rt: &R, line: &L)
        requires { L.id line.now ≡ J.line }
        ensures { self.new ≡ true }
    {
        if let Some(closer) = self.closer.take() {
            match self.note.replace(line.close(rt, closer)) {
                None => {}
                Some(_note) => unreachable!(),
            }
        }
    }

    pub fn into_note<R: Wait>(self, rt: &R, line: &L) -> L::Note
        requires { L.id line.now ≡ J.line }
        ensures { L.is_note J.line result }
    {
        let CloserSlot {
            closer,
            note,
            of: _,
        } = self;
        match (closer, note) {
            (Some(closer), None) => line.close(rt, closer),
            (None, Some(note)) => note,
            (Some(_closer), Some(_note)) => unreachable!(),
            (None, None) => unreachable!(),
        }
    }
}
