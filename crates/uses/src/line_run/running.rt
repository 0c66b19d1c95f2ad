// A whole run: two lanes and two passes, each on a thread of its own.
ghost use Rattle.std.specs.Prelude.{◌≡◌, ℕ, ◌+◌, ◌++◌, [], ◌∷◌, map, length};
ghost use Rattle.std.specs.List.{All};
ghost use Rattle.ghost_history.specs.Sums.{total};
ghost use Rattle.job_types.specs.Job.{JobData};
ghost use Rattle.job_queue.specs.Record.{fresh_lanes, fresh_passes, job_of};
ghost use Rattle.job_queue.specs.Line.{IsFor};

use crate::line_run::member::{CloserSlot, Feeder, Naming, Taker};
use crate::line_run::pair::{both, two_of};
use dispatcher_threads::SharedLine;
use job_queue::{JobLine, Opened, QueuedJob, Rest};
use job_types::Job;
use std::alloc::Global;
use std::collections::VecDeque;
use std::marker::Brand;
use std::sync::{Mutex, Wait};
use std::thread::{Threads, join};

/// The outcome of all jobs of a run.
#[derive(Drop)]
pub struct Finished {
    /// The jobs that each pass took.
    pub taken: (Vec<QueuedJob>, Vec<QueuedJob>),
    /// The jobs left in the queue.
    pub rest: Rest,
    /// The jobs that each lane did not submit.
    pub unfed: (VecDeque<Job>, VecDeque<Job>),
}

// The members of a run, each in a slot that its thread locks.
struct Members<J: Naming, L: JobLine> {
    feeders: (Mutex<Feeder<J, L>>, Mutex<Feeder<J, L>>),
    takers: (Mutex<Taker<J, L>>, Mutex<Taker<J, L>>),
    closer: Mutex<CloserSlot<J, L>>,
}

// Feeds both lanes and drains both passes at once. Closes the queue after the lanes.
fn run_threads<R: Threads + Wait + Sync, J: Naming + Send + Sync, L: JobLine + SharedLine>(
    rt: &R,
    line: &L,
    members: &Members<J, L>,
)
    requires { L.id line.now ≡ J.line }
{
    join(
        rt,
        ||
            requires { L.id line.now ≡ J.line }
        {
            join(
                rt,
                ||
                    requires { L.id line.now ≡ J.line }
                { members.feeders.0.lock(rt).feed(rt, line) },
                ||
                    requires { L.id line.now ≡ J.line }
                { members.feeders.1.lock(rt).feed(rt, line) },
            );
            members.closer.lock(rt).close(rt, line)
        },
        ||
            requires { L.id line.now ≡ J.line }
        {
            join(
                rt,
                ||
                    requires { L.id line.now ≡ J.line }
                { members.takers.0.lock(rt).drain(rt, line) },
                ||
                    requires { L.id line.now ≡ J.line }
                { members.takers.1.lock(rt).drain(rt, line) },
            );
        },
    );
}

// Does the work of `run`, after the run got a name.
fn run_named<J: Naming + Send + Sync, R: Threads + Wait + Sync, L: JobLine + SharedLine>(
    rt: &R,
    alloc: Global,
    opened: Opened<L, L::Lane, L::Pass, L::Closer>,
    jobs: (VecDeque<Job>, VecDeque<Job>),
) -> Finished
    requires line { L.id opened.line ≡ J.line }
    requires jobs { (jobs.0.items ≡ J.jobs 0) × (jobs.1.items ≡ J.jobs 1) }
    requires lanes { All (L.is_lane (L.id opened.line)) opened.lanes.items }
    requires passes { All (L.is_pass (L.id opened.line)) opened.passes.items }
    requires closer { L.is_closer (L.id opened.line) opened.closer }
    requires two_lanes { ((L.id opened.line).sizes.lanes ≡ 2)
        × (map L.lane_record opened.lanes.items ≡ fresh_lanes 2) }
    requires two_passes { ((L.id opened.line).sizes.passes ≡ 2)
        × (map L.pass_record opened.passes.items ≡ fresh_passes 2) }
    requires first_jobs { All (IsFor (L.id opened.line).sizes.machine 0) jobs.0.items }
    requires second_jobs { All (IsFor (L.id opened.line).sizes.machine 1) jobs.1.items }
    ensures each_once { (weight : JobData → ℕ) → total weight (jobs.0.items ++ jobs.1.items)
        ≡ total weight (map job_of (result.taken.0.items ++ result.taken.1.items
        ++ result.rest.jobs.items))
        + total weight (result.unfed.0.items ++ result.unfed.1.items) }
{
    let Opened {
        line,
        lanes,
        passes,
        closer,
    } = opened;
    let (lane, other, lane_room) = two_of(lanes);
    let (pass, another, pass_room) = two_of(passes);
    let (first_jobs, second_jobs) = jobs;
    let members: Members<J, L> = Members {
        feeders: (
            Mutex::new(Feeder::new(lane, first_jobs)),
            Mutex::new(Feeder::new(other, second_jobs)),
        ),
        takers: (
            Mutex::new(Taker::new(pass, Vec::new(alloc))),
            Mutex::new(Taker::new(another, Vec::new(alloc))),
        ),
        closer: Mutex::new(CloserSlot::new(closer)),
    };
    run_threads(rt, &line, &members);
    let Members {
        feeders,
        takers,
        closer,
    } = members;
    let (lane, unfed) = feeders.0.into_inner().into_parts();
    let (other, others_unfed) = feeders.1.into_inner().into_parts();
    let (pass, taken) = takers.0.into_inner().into_parts();
    let (another, others_taken) = takers.1.into_inner().into_parts();
    let note = closer.into_inner().into_note(rt, &line);
    let lanes = both(lane_room, lane, other);
    let passes = both(pass_room, pass, another);
    let rest = line.into_rest(rt, lanes, passes, note);
    Finished {
        taken: (taken, others_taken),
        rest,
        unfed: (unfed, others_unfed),
    }
}

/// Feeds both lanes of a new queue and drains it by both passes, each on a thread of its own.
/// Closes the queue after the lanes, and ends it.
///
/// However jobs are weighed, those passed in weigh as much as those taken, left and not accepted
/// together. So each is there once.
pub fn run<R: Threads + Wait + Sync, L: JobLine + SharedLine>(
    rt: &R,
    alloc: Global,
    opened: Opened<L, L::Lane, L::Pass, L::Closer>,
    jobs: (VecDeque<Job>, VecDeque<Job>),
) -> Finished
    requires lanes { All (L.is_lane (L.id opened.line)) opened.lanes.items }
    requires passes { All (L.is_pass (L.id opened.line)) opened.passes.items }
    requires closer { L.is_closer (L.id opened.line) opened.closer }
    requires two_lanes { ((L.id opened.line).sizes.lanes ≡ 2)
        × (map L.lane_record opened.lanes.items ≡ fresh_lanes 2) }
    requires two_passes { ((L.id opened.line).sizes.passes ≡ 2)
        × (map L.pass_record opened.passes.items ≡ fresh_passes 2) }
    requires first_jobs { All (IsFor (L.id opened.line).sizes.machine 0) jobs.0.items }
    requires second_jobs { All (IsFor (L.id opened.line).sizes.machine 1) jobs.1.items }
    ensures each_once { (weight : JobData → ℕ) → total weight (jobs.0.items ++ jobs.1.items)
        ≡ total weight (map job_of (result.taken.0.items ++ result.taken.1.items
        ++ result.rest.jobs.items))
        + total weight (result.unfed.0.items ++ result.unfed.1.items) }
{
    run_named::<Brand, R, L>(rt, alloc, opened, jobs)
}
