// The pause between two tries.
ghost use Rattle.std.specs.Prelude.{◌≤◌};

use crossbeam_utils::Backoff;
use std::sync::Wait;
use std::thread::{Parker, yield_now};
use std::time::Duration;

// The number of first pauses that are snoozes. A try follows each of them, and a try at a full
// queue slows others.
const SNOOZES: u32 = 3;

// The number of yields in the first burst. Each burst is twice as long as the one before.
const FIRST_BURST: u32 = 2;

/// The largest number of yields in a burst. Then the caller sleeps. All bursts together are meant
/// to take about as long as one sleep costs.
pub const LONGEST_BURST: u32 = 64;

// The first sleep, in microseconds.
const FIRST_SLEEP: u64 = 50;

// The longest sleep, in microseconds.
const LONGEST_SLEEP: u64 = 800;

/// A back-off that grows until a try succeeds: a few snoozes of a `Backoff`, then bursts of yields,
/// and then sleeps. Nothing wakes a caller that sleeps, but no sleep is long.
#[derive(Drop)]
pub struct Pause {
    // The spinner of the snoozes, each of which takes some nanoseconds.
    backoff: Backoff,
    // The number of snoozes that are left.
    snoozes: u32,
    // The number of yields in the next burst. There is none after the longest.
    burst: u32,
    // The next sleep, in microseconds.
    sleep: u64,
    // The parker on which the caller sleeps. Nothing wakes it, so each sleep takes its time.
    sleeper: Parker,
}

impl Pause {
    /// Creates the back-off of a caller that has not tried yet.
    pub fn new() -> Self {
        Pause {
            backoff: Backoff::new(),
            snoozes: SNOOZES,
            burst: FIRST_BURST,
            sleep: FIRST_SLEEP,
            sleeper: Parker::new(),
        }
    }

    /// Begins anew, since a try succeeded.
    pub fn reset(&mut self) {
        self.backoff.reset();
        self.snoozes = SNOOZES;
        self.burst = FIRST_BURST;
        self.sleep = FIRST_SLEEP;
    }

    /// Returns how often the caller has to yield before its next try. Returns 0 if the pause is
    /// over: the first pauses are snoozes and the last are sleeps, which this call makes itself. A
    /// caller may stop yielding as soon as it sees that a try may succeed.
    pub fn next_burst<R: Wait>(&mut self, rt: &R) -> u32
        ensures { result ≤ LONGEST_BURST }
    {
        if self.snoozes > 0 {
            self.snoozes -= 1;
            self.backoff.snooze();
            return 0;
        }
        let burst = self.burst;
        if burst <= LONGEST_BURST {
            self.burst = burst.saturating_mul(2);
            return burst;
        }
        let sleep = Duration::from_micros(self.sleep);
        self.sleeper.park_timeout(rt, sleep);
        self.sleep = self.sleep.saturating_mul(2).min(LONGEST_SLEEP);
        0
    }

    /// Waits for the length of one pause.
    pub fn wait<R: Wait>(&mut self, rt: &R) {
        for _ in 0..self.next_burst(rt) {
            yield_now();
        }
    }
}
