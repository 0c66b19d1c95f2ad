//! Runners that keep jobs until others have entered.
use crate::waiting::wait_for;
use dispatcher::Runner;
use job_types::{Job, JobId, Region, Reply};
use std::sync::Wait;
use std::sync::atomic::AtomicU64;
use std::sync::atomic::Ordering::SeqCst;

// How often a job looks for another one before it goes on alone.
const TURNS: u32 = 1_000_000;

/// A runner that keeps each job until the wanted number of jobs have entered, or until it has
/// looked 1,000,000 times.
#[derive(Drop)]
pub struct Meeting {
    wanted: u64,
    came: AtomicU64,
    alone: AtomicU64,
}

impl Meeting {
    /// Makes a meeting of this number of jobs.
    pub fn of(wanted: u64) -> Meeting {
        Meeting {
            wanted,
            came: AtomicU64::new(0),
            alone: AtomicU64::new(0),
        }
    }

    /// Returns whether they have met: all have entered, and none went on alone.
    pub fn has_met(&self) -> bool {
        self.came.load(SeqCst) >= self.wanted && self.alone.load(SeqCst) == 0
    }

    /// Waits until a job has entered, or until it has looked 1,000,000 times. Returns whether one
    /// has.
    pub fn wait_for_one(&self) -> bool {
        wait_for(&self.came, 1, TURNS)
    }

    /// Returns how many jobs have entered.
    pub fn came(&self) -> u64 {
        self.came.load(SeqCst)
    }
}

impl Runner for Meeting {
    fn run<R: Wait>(&self, _rt: &R, id: JobId, region: Region, job: Job) -> Reply {
        self.came.fetch_add(1, SeqCst);
        if !wait_for(&self.came, self.wanted, TURNS) {
            self.alone.fetch_add(1, SeqCst);
        }
        job.answer(id, region)
    }
}

/// A runner that keeps each job of one lane until one of another lane has entered, or until it has
/// looked `turns` times.
#[derive(Drop)]
pub struct Keeper {
    lane: u32,
    turns: u32,
    others: AtomicU64,
    before: AtomicU64,
}

impl Keeper {
    /// Makes a runner that keeps the jobs of this lane, each of which looks at most `turns` times.
    pub fn new(lane: u32, turns: u32) -> Keeper {
        Keeper {
            lane,
            turns,
            others: AtomicU64::new(0),
            before: AtomicU64::new(0),
        }
    }

    /// Returns how many jobs of the lane entered before each job of another lane.
    pub fn before(&self) -> u64 {
        self.before.load(SeqCst)
    }

    /// Returns how many jobs of other lanes entered.
    pub fn others(&self) -> u64 {
        self.others.load(SeqCst)
    }
}

impl Runner for Keeper {
    fn run<R: Wait>(&self, _rt: &R, id: JobId, region: Region, job: Job) -> Reply {
        if id.lane != self.lane {
            self.others.fetch_add(1, SeqCst);
        } else if !wait_for(&self.others, 1, 1) {
            self.before.fetch_add(1, SeqCst);
            wait_for(&self.others, 1, self.turns);
        }
        job.answer(id, region)
    }
}
