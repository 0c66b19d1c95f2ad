//! Waiting for another thread, for a limited number of turns.
use std::sync::atomic::AtomicU64;
use std::sync::atomic::Ordering::SeqCst;
use std::thread::yield_now;

/// Waits until the count is at least this number, for this number of turns at most. Returns whether
/// it is.
pub fn wait_for(count: &AtomicU64, number: u64, turns: u32) -> bool {
    for _ in 0..turns {
        if count.load(SeqCst) >= number {
            return true;
        }
        yield_now();
    }
    false
}
