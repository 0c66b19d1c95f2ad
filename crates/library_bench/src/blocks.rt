//! A crowd of threads at one machine.
use crate::BenchError;
use std::alloc::Global;
use std::thread::Threads;
use tests_kit::run_trial;

/// Runs the crowd that the arguments ask for, and prints its outcome.
pub(crate) fn run<R: Threads + Sync + Print>(
    rt: &R,
    alloc: Global,
    words: &[String],
) -> Result<(), BenchError> {
    let [threads, takes] = words else {
        return Err(BenchError::BadWords);
    };
    let (Ok(threads), Ok(takes)) = (threads.parse::<u64>(), takes.parse::<u64>()) else {
        return Err(BenchError::BadWords);
    };
    let Ok(outcome) = run_trial(rt, alloc, threads, takes) else {
        return Err(BenchError::Failed);
    };
    match println!(rt; "{} {} {}", outcome.given, outcome.faults, outcome.is_whole) {
        Ok(()) => Ok(()),
        Err(_) => Err(BenchError::Failed),
    }
}
