//! The arguments of a measurement of the tree.
ghost use Rattle.std.specs.Prelude.{IfSome};
ghost use Rattle.cube_bench.specs.TreeWords.{HasLanes};

use crate::tree::turns::Sizes;
use cube_shape::MAX_STATIONS;

/// The run that is to be measured.
#[derive(Clone, Copy)]
pub(crate) enum TreeRun {
    /// The tree, with a station on each of this many threads.
    Threads(u32, Workload),
    /// The tree of bitmaps, with this many threads.
    Bitmaps(u32, Workload),
    /// The tree, with all stations with one caller.
    Solo(Workload),
    /// The allocation bits.
    Bits(Workload),
}

/// The work of each station.
#[derive(Clone, Copy)]
pub(crate) struct Workload {
    pub sizes: Sizes,
    /// The number of turns that each station makes.
    pub turns: u64,
    /// Whether one more station holds half of the machine all the while.
    pub beside_half: bool,
}

// Returns the sizes of this name.
fn sizes_named(name: &str) -> Option<Sizes> {
    match name {
        "leaf" => Some(Sizes::Leaf),
        "mixed" => Some(Sizes::Mixed),
        "wide" => Some(Sizes::Wide),
        _ => None,
    }
}

// Returns whether the arguments after the third one ask for a half that is held.
fn asks_for_half(words: &[String]) -> Option<bool> {
    match words {
        [] => Some(false),
        [word] if word.as_str() == "half" => Some(true),
        _ => None,
    }
}

// Returns the run of a tree on threads: of the tree of bitmaps, or of the tree of status words.
fn on_threads(threads: &str, workload: Workload, has_bitmaps: bool) -> Option<TreeRun>
    ensures { IfSome result HasLanes }
{
    let threads = threads.parse::<u32>().ok()?;
    if threads == 0 || threads >= MAX_STATIONS {
        return None;
    }
    if has_bitmaps {
        return Some(TreeRun::Bitmaps(threads, workload));
    }
    Some(TreeRun::Threads(threads, workload))
}

// Returns the work of each station by these arguments.
fn workload_of(sizes: &str, turns: &str, rest: &[String]) -> Option<Workload> {
    let found = (
        sizes_named(sizes),
        turns.parse::<u64>(),
        asks_for_half(rest),
    );
    let (Some(sizes), Ok(turns), Some(beside_half)) = found else {
        return None;
    };
    Some(Workload {
        sizes,
        turns,
        beside_half,
    })
}

/// Returns the run that the arguments ask for, if they are well formed.
pub(crate) fn parse_words(words: &[String]) -> Option<TreeRun>
    ensures { IfSome result HasLanes }
{
    let [sizes, threads, turns, rest @ ..] = words else {
        return None;
    };
    if let [word] = rest
        && word.as_str() == "bitmaps"
    {
        return on_threads(threads, workload_of(sizes, turns, &[])?, true);
    }
    let workload = workload_of(sizes, turns, rest)?;
    match threads.as_str() {
        "solo" => Some(TreeRun::Solo(workload)),
        "bits" => Some(TreeRun::Bits(workload)),
        threads => on_threads(threads, workload, false),
    }
}
