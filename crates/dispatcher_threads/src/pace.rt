// How fast the jobs of a run are submitted, and which workers take part. It decides about speed
// alone.
use std::sync::Wait;
use std::sync::atomic::{AtomicU64, Ordering};
use std::time::Duration;

// How long a worker sleeps between two looks, in microseconds.
const LOOK: u64 = 1_000;

// The number of jobs between two looks, for each worker that takes part, from which on no further
// worker takes part. Such small jobs end no earlier if more workers contend for them.
const ENOUGH: u64 = 200;

/// The jobs that were submitted so far, and the workers that take part.
#[derive(Drop)]
pub(crate) struct Pace {
    submitted: AtomicU64,
    workers: AtomicU64,
    // 1 once the dispatcher is closed. The workers that do not take part sleep on this word.
    ended: AtomicU64,
}

impl Pace {
    /// Starts with the one worker that always takes part.
    pub fn new() -> Self {
        Pace {
            submitted: AtomicU64::new(0),
            workers: AtomicU64::new(1),
            ended: AtomicU64::new(0),
        }
    }

    /// Notes that jobs were submitted.
    pub fn add(&self, jobs: u64) {
        self.submitted.fetch_add(jobs, Ordering::Relaxed);
    }

    /// Notes that the dispatcher is closed, and wakes the workers that sleep.
    pub fn end(&self) {
        self.ended.store(1, Ordering::SeqCst);
        self.ended.wake_all();
    }

    // Returns whether the dispatcher is closed.
    fn has_ended(&self) -> bool {
        self.ended.load(Ordering::SeqCst) != 0
    }

    // Sleeps for the time between two looks. Returns whether another worker is of use.
    fn look<R: Wait>(&self, rt: &R) -> bool {
        let before = self.submitted.load(Ordering::Relaxed);
        self.ended.park_timeout(rt, 0, Duration::from_micros(LOOK));
        let jobs = self.submitted.load(Ordering::Relaxed).wrapping_sub(before);
        let enough = self.workers.load(Ordering::Relaxed).saturating_mul(ENOUGH);
        jobs < enough || self.has_ended()
    }

    /// Sleeps until another worker is of use, and takes part then. Returns whether this took only
    /// one look.
    pub fn join_in<R: Wait>(&self, rt: &R) -> bool {
        let mut at_once = true;
        for _ in rt.forever() {
            if self.has_ended() || self.look(rt) {
                self.workers.fetch_add(1, Ordering::Relaxed);
                return at_once;
            }
            at_once = false;
        }
        unreachable!()
    }

    /// Takes part no longer.
    pub fn leave(&self) {
        self.workers.fetch_sub(1, Ordering::Relaxed);
    }
}
