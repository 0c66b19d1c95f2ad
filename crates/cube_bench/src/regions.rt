//! Takes and releases blocks of a bitmap tree so that it can be timed. The arguments are
//! `SCENARIO N LOW HIGH LOAD THREADS [exact] [times]`.
ghost use Rattle.std.specs.Prelude.{◌≡◌};
ghost use Rattle.std.specs.List.{All};
ghost use Rattle.bitmap_tree.specs.Handles.{dim_of, permits_of};
ghost use Rattle.cube_bench.specs.RegionLanes.{IsLaneOf};
ghost use Rattle.cube_bench.specs.RegionWords.{IsPossible};

mod ending;
mod filling;
mod lanes;
mod random;
mod running;
mod turns;
mod words;

use crate::outcome::{MeasureError, Measured, percentile};
use bitmap_tree::BitmapTree;
use ending::{end_lanes, free_words, is_whole, release_all};
use filling::fill;
use lanes::Lane;
use random::Random;
use running::{open_lanes, refused_of_all, run_all, times_of_all};
use std::alloc::Global;
use std::io;
use std::rt::Clock;
use std::thread::Threads;
use words::{Invocation, MAX_THREADS, parse_words};

// Returns the number of the next line of standard input, if it has one.
fn next_turns<R: Input>(rt: &R, alloc: Global) -> Option<u64> {
    let mut line = String::new(alloc);
    let _length = rt.read_line(&mut line).ok()?;
    line.as_str().trim_end().parse::<u64>().ok()
}

// Prints the median, 99 % and 99.9 % of sorted times, if there are any.
fn print_times<R: Print>(rt: &R, times: &[u64]) -> io::Result<()> {
    if times.is_empty() {
        return Ok(());
    }
    rt.println(percentile(times, 500))?;
    rt.println(percentile(times, 990))?;
    rt.println(percentile(times, 999))
}

// Makes the turns that standard input asks for, line by line. Prints how many takes were refused,
// and the times of the turns if they are timed.
fn serve<R: Threads + Clock + Sync + Input + Print>(
    rt: &R,
    alloc: Global,
    tree: &BitmapTree,
    lanes: &mut [Lane],
) -> Option<()>
    requires { All (IsLaneOf tree.now) lanes.old }
    ensures { All (IsLaneOf tree.now) lanes.new }
{
    for _ in 0..u64::MAX {
        let Some(turns) = next_turns(rt, alloc) else {
            return Some(());
        };
        run_all(rt, tree, turns, lanes);
        rt.println(refused_of_all(lanes)).ok()?;
        print_times(rt, &times_of_all(alloc, lanes)?).ok()?;
    }
    Some(())
}

// Fills a new machine, makes the turns, and releases all. Returns how many words were free at the
// end of the turns.
fn free_after<R: Threads + Clock + Sync + Input + Print>(
    rt: &R,
    alloc: Global,
    tree: &BitmapTree,
    invocation: Invocation,
) -> Option<u64>
    requires possible { IsPossible invocation }
    requires anyone { permits_of tree.now ≡ 0 }
    requires dim { invocation.dim ≡ dim_of tree.now }
{
    let mut blocks = Vec::new(alloc);
    let mut lanes = Vec::new(alloc);
    let mut random = Random::of_lane(MAX_THREADS as u64);
    let is_filled = fill(tree, &mut random, invocation, &mut blocks);
    open_lanes(tree, alloc, invocation, &mut blocks, &mut lanes);
    let served = if is_filled && rt.println("ready").is_ok() {
        serve(rt, alloc, tree, &mut lanes)
    } else {
        None
    };
    let free = free_words(alloc, invocation.dim, &blocks, &lanes);
    end_lanes(tree, lanes);
    release_all(tree, blocks);
    served?;
    free
}

/// Makes the turns that standard input asks for. Its count is that of the words that are free after
/// them. It fails if the machine is not whole at the end.
pub(crate) fn measure<R: Threads + Clock + Sync + Input + Print>(
    rt: &R,
    alloc: Global,
    words: &[String],
) -> Result<Measured, MeasureError> {
    let Some(invocation) = parse_words(words) else {
        return Err(MeasureError::BadWords);
    };
    let Ok(tree) = BitmapTree::open(alloc, invocation.dim) else {
        return Err(MeasureError::Failed);
    };
    match free_after(rt, alloc, &tree, invocation) {
        Some(free) if is_whole(&tree) => Ok(Measured::counted(alloc, free)),
        _ => Err(MeasureError::Failed),
    }
}
