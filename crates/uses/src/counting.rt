//! A caller of `dispatcher`, with a runner of its own.

use dispatcher::Runner;
use job_types::{Job, JobId, Region, Reply};
use std::sync::Wait;
use std::sync::atomic::{AtomicU64, Ordering};

/// A runner that runs jobs by another runner and counts them. Threads may share it.
#[derive(Drop)]
pub struct Counting<T> {
    runner: T,
    answered: AtomicU64,
}

impl<T> Counting<T> {
    /// Makes a runner that has run no job.
    pub fn new(runner: T) -> Counting<T> {
        Counting {
            runner,
            answered: AtomicU64::new(0),
        }
    }

    /// Returns how many jobs ran, modulo `2^64`. No contract says it: that of a runner is about
    /// replies.
    pub fn answered(&self) -> u64 {
        self.answered.load(Ordering::Relaxed)
    }
}

impl<T: Runner> Runner for Counting<T> {
    fn run<R: Wait>(&self, rt: &R, id: JobId, region: Region, job: Job) -> Reply {
        let reply = self.runner.run(rt, id, region, job);
        self.answered.fetch_add(1, Ordering::Relaxed);
        reply
    }
}
