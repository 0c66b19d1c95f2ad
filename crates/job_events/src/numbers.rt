// The numbers of events, and the runner that counts them.
ghost use Rattle.std.specs.Prelude.{◌<◌};

use dispatcher::Runner;
use job_types::{Job, JobId, Region, Reply};
use std::alloc::{AllocError, Global};
use std::collections::VecDeque;
use std::sync::Wait;
use std::sync::atomic::{AtomicU64, Ordering};

// The numbers of the two events of a job, once they have happened.
#[derive(Drop)]
struct JobNumbers {
    take: AtomicU64,
    free: AtomicU64,
}

/// The numbers of a run's events.
///
/// The threads of a run share one counter. Each event takes the next number, so an earlier event
/// has a smaller number. No contract says which number a job gets.
#[derive(Drop)]
pub struct EventNumbers {
    next: AtomicU64,
    // By lane, and by the job's number in the lane.
    lanes: Vec<Vec<JobNumbers>>,
}

// Returns places for the numbers of the jobs of a lane.
fn lane_numbers(alloc: Global, jobs: usize) -> Result<Vec<JobNumbers>, AllocError> {
    let mut numbers = Vec::with_capacity(alloc, jobs)?;
    for _ in 0..jobs {
        numbers.push(JobNumbers {
            take: AtomicU64::new(0),
            free: AtomicU64::new(0),
        })?;
    }
    Ok(numbers)
}

impl EventNumbers {
    /// Reserves a number for the begin and for the end of each job. The list of each lane is at its
    /// number.
    pub fn new(alloc: Global, jobs: &[VecDeque<Job>]) -> Result<Self, AllocError> {
        let mut lanes = Vec::new(alloc);
        for list in jobs {
            lanes.push(lane_numbers(alloc, list.len())?)?;
        }
        Ok(EventNumbers {
            next: AtomicU64::new(0),
            lanes,
        })
    }

    // Returns the places for the numbers of a job.
    fn of(&self, id: JobId) -> Option<&JobNumbers> {
        let lane = self.lanes.get(id.lane as usize)?;
        lane.get(id.seq as usize)
    }

    // Returns the next number.
    fn next(&self) -> u64 {
        self.next.fetch_add(1, Ordering::SeqCst)
    }

    // Keeps the numbers of the two events of a job, both at once: its place is in the cache then.
    fn keep(&self, id: JobId, take: u64, free: u64) {
        if let Some(numbers) = self.of(id) {
            numbers.take.store(take, Ordering::SeqCst);
            numbers.free.store(free, Ordering::SeqCst);
        }
    }

    /// Returns the numbers of the two events of a job, of which the first is smaller.
    pub(crate) fn pair(&self, id: JobId) -> (u64, u64)
        ensures { result.0 < result.1 }
    {
        let (take, free) = match self.of(id) {
            Some(numbers) => (
                numbers.take.load(Ordering::SeqCst),
                numbers.free.load(Ordering::SeqCst),
            ),
            None => (0, 0),
        };
        // The first counted number is far below the largest.
        let take = take.min(u64::MAX - 1);
        (take, free.max(take + 1))
    }
}

/// A runner that runs jobs by another one, and numbers the begin and the end of each.
///
/// A job has its block from before its begin until after its end. So two jobs that hold a
/// processor one after the other have their events in this order too.
#[derive(Drop)]
pub struct Numbered<'a, 'b, T> {
    /// The runner that runs the jobs.
    pub runner: &'a T,
    /// The numbers.
    pub numbers: &'b EventNumbers,
}

impl<T: Runner> Runner for Numbered<'_, '_, T> {
    fn run<R: Wait>(&self, rt: &R, id: JobId, region: Region, job: Job) -> Reply {
        let take = self.numbers.next();
        let reply = self.runner.run(rt, id, region, job);
        self.numbers.keep(id, take, self.numbers.next());
        reply
    }
}
