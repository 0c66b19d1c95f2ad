//! Repeats one collective on `2^DIM` places so that it can be timed. The arguments are
//! `COLLECTIVE DIM TIMES`.
ghost use Rattle.std.specs.Prelude.{◌≡◌, ◌^◌, ◌<◌, ◌≤◌, All, IfSome, length};
ghost use Rattle.collectives.specs.Operations.{IsU64};

use crate::outcome::{MeasureError, Measured};
use collectives::{Add, all_reduce, broadcast, exscan, reduce, scan};
use std::alloc::{AllocError, Global};

// The largest dimension of a run.
const MAX_DIM: u32 = 20;

// A collective that can be timed.
#[derive(Clone, Copy)]
enum Collective {
    Broadcast,
    Reduce,
    AllReduce,
    Scan,
    ExScan,
}

// Returns a number that all places determine.
fn digest(items: &[Add]) -> u64 {
    let mut digest: u64 = 0;
    for item in items {
        digest = digest.wrapping_mul(31).wrapping_add(item.number());
    }
    digest
}

// Runs a collective once.
fn run(collective: Collective, dim: u32, items: &mut [Add], scratch: &mut [Add])
    requires dim { dim ≤ MAX_DIM }
    requires places { length items.old ≡ 2 ^ dim }
    requires scratch { length scratch.old ≡ 2 ^ dim }
    requires values { All IsU64 items.old }
    ensures places { length items.new ≡ 2 ^ dim }
    ensures scratch { length scratch.new ≡ 2 ^ dim }
    ensures values { All IsU64 items.new }
{
    let root = items.len() - 1;
    let _tally = match collective {
        Collective::Broadcast => broadcast(items, dim, root),
        Collective::Reduce => reduce(items, dim, root),
        Collective::AllReduce => all_reduce(items, dim),
        Collective::Scan => scan(items, scratch, dim),
        Collective::ExScan => exscan(items, scratch, dim),
    };
}

// Puts its rank at each rank's place.
fn number(items: &mut [Add])
    requires values { All IsU64 items.old }
    ensures places { length items.new ≡ length items.old }
    ensures values { All IsU64 items.new }
{
    for rank in 0..items.len() {
        items[rank] = Add::new(rank as u64);
    }
}

// Runs a collective `times` times, each run on the items that the run before it left.
fn repeat(collective: Collective, dim: u32, times: u64, items: &mut [Add], scratch: &mut [Add])
    requires dim { dim ≤ MAX_DIM }
    requires places { length items.old ≡ 2 ^ dim }
    requires scratch { length scratch.old ≡ 2 ^ dim }
    requires values { All IsU64 items.old }
{
    for _ in 0..times {
        run(collective, dim, items, scratch);
    }
}

// Returns the collective of this name.
fn collective_named(name: &str) -> Option<Collective> {
    match name {
        "broadcast" => Some(Collective::Broadcast),
        "reduce" => Some(Collective::Reduce),
        "allreduce" => Some(Collective::AllReduce),
        "scan" => Some(Collective::Scan),
        "exscan" => Some(Collective::ExScan),
        _ => None,
    }
}

// The run that the arguments ask for.
#[derive(Clone, Copy)]
struct Invocation {
    collective: Collective,
    dim: u32,
    times: u64,
}

// Returns the run that the arguments ask for, if they are well formed.
fn parse_words(words: &[String]) -> Option<Invocation>
    ensures { IfSome result (λ invocation. invocation.dim ≤ MAX_DIM) }
{
    let [name, dim, times] = words else {
        return None;
    };
    let found = (
        collective_named(name),
        dim.parse::<u32>(),
        times.parse::<u64>(),
    );
    let (Some(collective), Ok(dim), Ok(times)) = found else {
        return None;
    };
    if dim > MAX_DIM {
        return None;
    }
    Some(Invocation {
        collective,
        dim,
        times,
    })
}

// Returns the digest of the items after `times` runs of a collective. The first items are the
// ranks.
fn digest_after(alloc: Global, invocation: Invocation) -> Result<u64, AllocError>
    requires { invocation.dim ≤ MAX_DIM }
{
    let Invocation {
        collective,
        dim,
        times,
    } = invocation;
    let places = 1usize << dim;
    let mut items = vec![in alloc; Add::new(0); places]?;
    let mut scratch = vec![in alloc; Add::new(0); places]?;
    number(&mut items);
    repeat(collective, dim, times, &mut items, &mut scratch);
    Ok(digest(&items))
}

/// Repeats the collective that the arguments ask for. Its count is a number that all places
/// determine in the end.
pub(crate) fn measure(alloc: Global, words: &[String]) -> Result<Measured, MeasureError> {
    let Some(invocation) = parse_words(words) else {
        return Err(MeasureError::BadWords);
    };
    let Ok(digest) = digest_after(alloc, invocation) else {
        return Err(MeasureError::Failed);
    };
    Ok(Measured::counted(alloc, digest))
}
