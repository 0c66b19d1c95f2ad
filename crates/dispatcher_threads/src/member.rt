// The slots of members: a lane with its jobs, a worker, or the right to close. The type of a slot
// says what is known of its member, so it may be under a lock. A thread that was not started takes
// no member with it.
ghost use Rattle.std.specs.Prelude.{◌≡◌, ◌≢◌, ℕ, ◌+◌, ◌<◌, ◌≤◌, ◌↔◌, ◌++◌, [], List, None, Some, true, false, IsTrue, IsSome, MatchOption, length};
ghost use Rattle.std.specs.List.{All};
ghost use Rattle.std.specs.VecDeque.{deque_len, deque_capacity};
ghost use Rattle.job_queue.specs.Record.{accepted_jobs};
ghost use Rattle.job_queue.specs.Line.{IsFor};
ghost use Rattle.dispatcher.specs.Members.{IsWorkerOf, IsEndOf, IsCloserOf, IsNoteOf, stop_of};
ghost use Rattle.dispatcher.specs.Stop.{given_back};
ghost use Rattle.dispatcher_threads.specs.InnerStop.{IsTakenBack, goes_on, stop_in};
ghost use Rattle.dispatcher_threads.specs.InnerEnd.{HasEnded};

use crate::running::LaneEnd;
use backoff::Pause;
use dispatcher::{
    CloseNote, Closer, FeedStop, Idle, Runner, Shop, Stop, Worker, WorkerEnd, dispatch_with,
};
use floors::Floor;
use job_queue::{JobLine, Refused};
use job_types::Job;
use std::alloc::Global;
use std::collections::VecDeque;
use std::marker::{Brand, Model, PhantomData};
use std::sync::Wait;

// The number of jobs that a worker submits for a lane before it goes to the next lane.
const JOBS_OF_A_TURN: u32 = 8;

/// A name for one run: its dispatcher, and the jobs of each lane.
pub(crate) trait Naming {
    ghost use Rattle.std.specs.Prelude.{ℕ, List};
    ghost use Rattle.job_types.specs.Job.{JobData};
    ghost use Rattle.dispatcher.specs.Shop.{ShopId};

    ghost shop: { ShopId };

    ghost jobs: { ℕ → List JobData };
}

impl Naming for Brand {
    ghost use Rattle.std.specs.Prelude.{[]};
    ghost use Rattle.dispatcher_threads.specs.InnerNaming.{no_shop};

    ghost shop = { no_shop };

    ghost jobs = { λ _. [] };
}

// How far a lane's feed is.
#[derive(Clone, Copy)]
enum Progress {
    // No job of it was submitted.
    NotRun,
    // Some jobs were submitted, and none was refused for good.
    UnderWay,
    // It has stopped.
    Stopped(FeedStop),
}

impl Progress {
    // Returns why the feed has stopped, if it has.
    fn stop(self) -> Option<FeedStop>
        ensures { result ≡ stop_in self }
    {
        match self {
            Progress::NotRun | Progress::UnderWay => None,
            Progress::Stopped(stop) => Some(stop),
        }
    }
}

// What came of a try to submit the next job of a lane.
#[derive(Clone, Copy, PartialEq, Eq)]
pub(crate) enum Offer {
    // The queue has accepted it.
    Accepted,
    // The queue was full, and it is the next one again.
    Full,
    // No job of the lane is left, or the queue refused one for good.
    Stopped,
}

// Some tries to submit the jobs of a lane.
#[derive(Clone, Copy)]
pub(crate) struct Turn {
    // At most as many as were accepted.
    pub accepted: u32,
    // What came of the last try.
    pub last: Offer,
}

/// A lane, and the jobs that it has still to submit.
pub(crate) struct LaneSlot<J: Naming, L: JobLine> {
    lane: L::Lane,
    // The number of jobs that it got at the beginning.
    given: usize,
    back: Option<Job>,
    left: VecDeque<Job>,
    progress: Progress,
    of: PhantomData<J>,
}

impl<J: Naming, L: JobLine> Model for LaneSlot<J, L> {
    ghost use Rattle.std.specs.Prelude.{◌≡◌, ◌++◌, Bool, length};
    ghost use Rattle.std.specs.List.{All};
    ghost use Rattle.job_queue.specs.Record.{accepted_jobs};
    ghost use Rattle.job_queue.specs.Line.{IsFor};
    ghost use Rattle.dispatcher.specs.Stop.{given_back};
    ghost use Rattle.dispatcher_threads.specs.InnerStop.{HasCome, is_under_way};

    // Whether it is under way.
    ghost Value = { Bool };

    ghost view = { λ f. is_under_way f.progress };

    ghost invariant = { λ f. L.is_lane J.shop.line f.lane
        × All (IsFor J.shop.line.sizes.machine (L.lane_record f.lane).number) f.left.items
        × (accepted_jobs (L.lane_record f.lane) ++ given_back f.back ++ f.left.items
        ≡ J.jobs (L.lane_record f.lane).number)
        × HasCome (L.lane_record f.lane) f.back f.left.items f.progress
        × (f.given ≡ length (J.jobs (L.lane_record f.lane).number)) };
}

// Takes back a job that was refused. If the queue was full, the job is the next one again.
// Otherwise it is the job that came back, and the reason to stop is returned.
fn take_back(
    left: &mut VecDeque<Job>,
    back: &mut Option<Job>,
    job: Job,
    refused: Refused,
) -> Option<FeedStop>
    requires { deque_len left.old < deque_capacity left.old }
    ensures { IsTakenBack job left.old.items left.new.items back.old back.new refused result }
{
    let stop = match refused {
        Refused::Full => {
            left.push_front_reserved(job);
            return None;
        }
        Refused::Closed { seen } => FeedStop::Closed { seen },
        Refused::LaneSpent => FeedStop::LaneSpent,
    };
    let _none = back.replace(job);
    Some(stop)
}

// Returns the number of accepted jobs: those given, less the one that came back and those left.
fn accepted_count(given: usize, back: &Option<Job>, left: &VecDeque<Job>) -> u64
    requires { length (given_back back.now ++ left.now.items) ≤ given }
    ensures { result + length (given_back back.now ++ left.now.items) ≡ given }
{
    let handed_in = (given - left.len()) as u64;
    match back {
        Some(_) => handed_in - 1,
        None => handed_in,
    }
}

impl<J: Naming, L: JobLine> LaneSlot<J, L> {
    pub fn new(lane: L::Lane, jobs: VecDeque<Job>) -> LaneSlot<J, L>
        requires lane { L.is_lane J.shop.line lane }
        requires made_for { All (IsFor J.shop.line.sizes.machine (L.lane_record lane).number)
            jobs.items }
        requires jobs { accepted_jobs (L.lane_record lane) ++ jobs.items
            ≡ J.jobs (L.lane_record lane).number }
        requires no_entries { (L.lane_record lane).entries ≡ [] }
    {
        LaneSlot {
            lane,
            given: jobs.len(),
            back: None,
            left: jobs,
            progress: Progress::NotRun,
            of: PhantomData,
        }
    }

    // Submits the next job unless the feed has stopped.
    fn offer<R: Wait, F: Floor>(&mut self, rt: &R, shop: &Shop<L, F>) -> Offer
        requires { shop.now ≡ J.shop }
        ensures { self.new ≡ goes_on result }
    {
        if let Progress::Stopped(_) = self.progress {
            return Offer::Stopped;
        }
        let Some(job) = self.left.pop_front() else {
            self.progress = Progress::Stopped(FeedStop::Done);
            return Offer::Stopped;
        };
        self.progress = Progress::UnderWay;
        let Err((job, refused)) = shop.submit(rt, &mut self.lane, job) else {
            return Offer::Accepted;
        };
        let Some(stop) = take_back(&mut self.left, &mut self.back, job, refused) else {
            return Offer::Full;
        };
        self.progress = Progress::Stopped(stop);
        Offer::Stopped
    }

    // Submits the next few jobs, until the queue is full or the feed has stopped. Returns how many
    // were accepted, and what came of the last try.
    pub fn turn<R: Wait, F: Floor>(&mut self, rt: &R, shop: &Shop<L, F>) -> Turn
        requires { shop.now ≡ J.shop }
        ensures { self.new ≡ goes_on result.last }
    {
        for accepted in 1..JOBS_OF_A_TURN {
            let last = self.offer(rt, shop);
            if last != Offer::Accepted {
                return Turn {
                    accepted: accepted - 1,
                    last,
                };
            }
        }
        Turn {
            accepted: JOBS_OF_A_TURN,
            last: self.offer(rt, shop),
        }
    }

    // Submits what is left, if the feed is under way.
    fn finish<R: Wait, F: Floor>(&mut self, rt: &R, shop: &Shop<L, F>)
        requires { shop.now ≡ J.shop }
        ensures { self.new ≡ false }
    {
        if let Progress::UnderWay = self.progress {
            let mut pause = Pause::new();
            for _ in rt.forever() {
                match self.offer(rt, shop) {
                    Offer::Stopped => return,
                    Offer::Accepted => pause.reset(),
                    Offer::Full => pause.wait(rt),
                }
            }
            unreachable!()
        }
    }

    // Returns the lane and its end. If its feed is under way, it submits the remaining jobs first.
    pub fn into_end<R: Wait, F: Floor>(self, rt: &R, shop: &Shop<L, F>) -> (L::Lane, LaneEnd)
        requires { shop.now ≡ J.shop }
        ensures lane { L.is_lane J.shop.line result.0 }
        ensures end { HasEnded J.jobs (L.lane_record result.0) result.1 }
    {
        let mut feeder = self;
        feeder.finish(rt, shop);
        let LaneSlot {
            lane,
            given,
            back,
            left,
            progress,
            of: _,
        } = feeder;
        let end = LaneEnd {
            lane: L::lane_number(&lane),
            accepted: accepted_count(given, &back, &left),
            entries: L::entry_count(&lane),
            back,
            left,
            stop: progress.stop(),
        };
        (lane, end)
    }
}

/// A worker that has not run, or one that has stopped.
pub(crate) struct WorkerSlot<J: Naming, L: JobLine, F: Floor> {
    worker: Option<Worker<L, F>>,
    end: Option<WorkerEnd<L, F>>,
    of: PhantomData<J>,
}

impl<J: Naming, L: JobLine, F: Floor> Model for WorkerSlot<J, L, F> {
    ghost use Rattle.std.specs.Prelude.{◌≡◌, ◌≢◌, Option, None, MatchOption};
    ghost use Rattle.std.specs.Option.{option_map};
    ghost use Rattle.dispatcher.specs.Members.{IsWorkerOf, IsEndOf, stop_of};
    ghost use Rattle.dispatcher.specs.declared.stop.Stop.{Stop as StopData};
    ghost use Rattle.dispatcher.specs.declared.stop.Stop.TheVariants.{NotRun};

    // Why it has stopped, or `None` if it has not run.
    ghost Value = { Option StopData };

    ghost view = { λ p. option_map stop_of p.end };

    ghost invariant = { λ p. MatchOption p.worker
        (MatchOption p.end ⊥ (λ e. IsEndOf J.shop e × (stop_of e ≢ NotRun)))
        (λ w. IsWorkerOf J.shop w × (p.end ≡ None)) };
}

// Returns whether memory ran out in the worker.
fn ran_out<L: JobLine, F: Floor>(end: &WorkerEnd<L, F>) -> bool
    ensures { IsTrue result ↔ (stop_of end.now ≡ Stop.OutOfMemory) }
{
    end.stop() == Stop::OutOfMemory
}

impl<J: Naming, L: JobLine, F: Floor> WorkerSlot<J, L, F> {
    pub fn new(worker: Worker<L, F>) -> WorkerSlot<J, L, F>
        requires { IsWorkerOf J.shop worker }
        ensures { result ≡ None }
    {
        WorkerSlot {
            worker: Some(worker),
            end: None,
            of: PhantomData,
        }
    }

    // Runs the worker until it stops, unless it has run already. Where it finds the queue empty, it
    // calls `idle`. Returns whether memory ran out in it.
    pub fn dispatch<R: Wait, T: Runner, I: Idle>(
        &mut self,
        rt: &R,
        alloc: Global,
        shop: &Shop<L, F>,
        runner: &T,
        idle: I,
    ) -> bool
        requires { shop.now ≡ J.shop }
        ensures has_run { IsSome self.new }
        ensures once { IsSome self.old → self.new ≡ self.old }
        ensures spent { result ≡ true → self.new ≡ Some Stop.OutOfMemory }
        ensures told { self.old ≡ None → self.new ≡ Some Stop.OutOfMemory → result ≡ true }
    {
        let Some(worker) = self.worker.take() else {
            return false;
        };
        let end = dispatch_with(rt, alloc, shop, worker, runner, idle);
        let spent = ran_out(&end);
        match self.end.replace(end) {
            None => {}
            Some(_end) => unreachable!(),
        }
        spent
    }

    pub fn into_end(self, alloc: Global) -> WorkerEnd<L, F>
        ensures of_shop { IsEndOf J.shop result }
        ensures stop { MatchOption self (stop_of result ≡ Stop.NotRun)
            (λ stop. stop_of result ≡ stop) }
        ensures has_run { IsSome self → stop_of result ≢ Stop.NotRun }
    {
        let WorkerSlot { worker, end, of: _ } = self;
        match (worker, end) {
            (Some(worker), None) => worker.stand_down(alloc),
            (None, Some(end)) => end,
            (Some(_worker), Some(_end)) => unreachable!(),
            (None, None) => unreachable!(),
        }
    }
}

/// The right to close, or the note of the close.
pub(crate) struct CloserSlot<J: Naming, L: JobLine, F: Floor> {
    closer: Option<Closer<L, F>>,
    note: Option<CloseNote<L, F>>,
    of: PhantomData<J>,
}

impl<J: Naming, L: JobLine, F: Floor> Model for CloserSlot<J, L, F> {
    ghost use Rattle.std.specs.Prelude.{◌≡◌, Bool, is_some, None, MatchOption};
    ghost use Rattle.dispatcher.specs.Members.{IsCloserOf, IsNoteOf};

    // Whether the dispatcher was closed.
    ghost Value = { Bool };

    ghost view = { λ d. is_some d.note };

    ghost invariant = { λ d. MatchOption d.closer
        (MatchOption d.note ⊥ (IsNoteOf L.JobLine J.shop))
        (λ c. IsCloserOf L.JobLine J.shop c × (d.note ≡ None)) };
}

impl<J: Naming, L: JobLine, F: Floor> CloserSlot<J, L, F> {
    pub fn new(closer: Closer<L, F>) -> CloserSlot<J, L, F>
        requires { IsCloserOf L.JobLine J.shop closer }
        ensures { result ≡ false }
    {
        CloserSlot {
            closer: Some(closer),
            note: None,
            of: PhantomData,
        }
    }

    // Closes the dispatcher, unless it is closed already.
    pub fn close<R: Wait>(&mut self, rt: &R, shop: &Shop<L, F>)
        requires { shop.now ≡ J.shop }
        ensures { self.new ≡ true }
    {
        if let Some(closer) = self.closer.take() {
            match self.note.replace(shop.close(rt, closer)) {
                None => {}
                Some(_note) => unreachable!(),
            }
        }
    }

    pub fn into_note<R: Wait>(self, rt: &R, shop: &Shop<L, F>) -> CloseNote<L, F>
        requires { shop.now ≡ J.shop }
        ensures { IsNoteOf L.JobLine J.shop result }
    {
        let CloserSlot {
            closer,
            note,
            of: _,
        } = self;
        match (closer, note) {
            (Some(closer), None) => shop.close(rt, closer),
            (None, Some(note)) => note,
            (Some(_closer), Some(_note)) => unreachable!(),
            (None, None) => unreachable!(),
        }
    }
}
