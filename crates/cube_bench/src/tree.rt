//! Takes and releases blocks of a running tree of dimension 10 so that it can be timed. The
//! arguments are `SIZES THREADS TURNS [half | bitmaps]`.
ghost use Rattle.cube_bench.specs.TreeWords.{HasLanes};

mod alone;
mod bitmaps;
mod lanes;
mod turns;
mod words;

use crate::outcome::{MeasureError, Measured};
use alone::{given_by_bits, given_by_solo};
use bitmaps::given_by_bitmaps;
use lanes::given_in;
use std::alloc::Global;
use std::sync::Wait;
use std::thread::Threads;
use words::{TreeRun, parse_words};

// Returns how many takes succeed in this run.
fn given_takes<R: Threads + Wait + Sync>(rt: &R, alloc: Global, run: TreeRun) -> Option<u64>
    requires { HasLanes run }
{
    match run {
        TreeRun::Threads(threads, workload) => given_in(rt, alloc, threads, workload).ok(),
        TreeRun::Bitmaps(threads, workload) => {
            given_by_bitmaps(rt, alloc, threads, workload).ok()
        }
        TreeRun::Solo(workload) => given_by_solo(alloc, workload).ok(),
        TreeRun::Bits(workload) => given_by_bits(alloc, workload).ok(),
    }
}

/// Makes the run that the arguments ask for, and counts how many takes succeeded.
pub(crate) fn measure<R: Threads + Wait + Sync>(
    rt: &R,
    alloc: Global,
    words: &[String],
) -> Result<Measured, MeasureError> {
    let Some(run) = parse_words(words) else {
        return Err(MeasureError::BadWords);
    };
    let Some(given) = given_takes(rt, alloc, run) else {
        return Err(MeasureError::Failed);
    };
    Ok(Measured::counted(alloc, given))
}
