//! The arguments of a measurement of the bitmap tree.
ghost use Rattle.std.specs.Prelude.{IfSome};
ghost use Rattle.cube_bench.specs.RegionWords.{IsPossible};

use bitmap_tree::MAX_BITMAP_DIM;

/// The largest number of threads.
pub(crate) const MAX_THREADS: u32 = 32;

/// What is held while the threads work.
#[derive(Clone, Copy, PartialEq, Eq)]
pub(crate) enum Scenario {
    /// Nothing.
    Pairs,
    /// Half of the machine.
    Half,
    /// Most processors, one by one.
    Holes,
    /// All processors, one by one.
    Full,
    /// One processor of each word.
    Fragments,
    /// Blocks of random dimensions, which the threads release and take.
    Churn,
}

/// The run that the arguments ask for.
#[derive(Clone, Copy)]
pub(crate) struct Invocation {
    pub scenario: Scenario,
    /// The dimension of the machine.
    pub dim: u32,
    /// The smallest and the largest dimension of a block.
    pub low: u32,
    pub high: u32,
    /// The thousandths of the machine that are held.
    pub load: u64,
    pub threads: u32,
    /// Whether a take looks at each word before it refuses.
    pub is_exact: bool,
    pub times_turns: bool,
}

// Returns the scenario of this name.
fn scenario_named(name: &str) -> Option<Scenario> {
    match name {
        "pairs" => Some(Scenario::Pairs),
        "half" => Some(Scenario::Half),
        "holes" => Some(Scenario::Holes),
        "full" => Some(Scenario::Full),
        "fragments" => Some(Scenario::Fragments),
        "churn" => Some(Scenario::Churn),
        _ => None,
    }
}

// Returns the number that a word is.
fn number(word: &str) -> Option<u32> {
    word.parse::<u32>().ok()
}

// Returns whether the words have this one.
fn has(words: &[String], wanted: &str) -> bool {
    words.iter().any(|word| word.as_str() == wanted)
}

// Returns the run of these arguments, possible or not.
fn invocation_of(words: &[String]) -> Option<Invocation> {
    let [scenario, dim, low, high, load, threads, rest @ ..] = words else {
        return None;
    };
    let found = (scenario_named(scenario), number(dim), number(low));
    let (Some(scenario), Some(dim), Some(low)) = found else {
        return None;
    };
    let (Some(high), Some(load), Some(threads)) = (number(high), number(load), number(threads))
    else {
        return None;
    };
    Some(Invocation {
        scenario,
        dim,
        low,
        high,
        load: load as u64,
        threads,
        is_exact: has(rest, "exact"),
        times_turns: has(rest, "times"),
    })
}

/// Returns the run that the arguments ask for, if they are well formed.
pub(crate) fn parse_words(words: &[String]) -> Option<Invocation>
    ensures { IfSome result IsPossible }
{
    let invocation = invocation_of(words)?;
    let Invocation {
        dim,
        low,
        high,
        threads,
        ..
    } = invocation;
    if dim < 6 || dim > MAX_BITMAP_DIM || low > high || high > dim {
        return None;
    }
    if invocation.load > 1000 || threads == 0 || threads > MAX_THREADS {
        return None;
    }
    Some(invocation)
}
