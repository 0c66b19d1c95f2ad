//! Runs a dispatcher on threads so that it can be timed. The arguments are
//! `SHOP ITEMS LANES DISPATCHERS CAPACITY JOBS`.
ghost use Rattle.std.specs.Prelude.{◌≤◌};

mod lists;
mod words;

use crate::outcome::{MeasureError, Measured, nanos_since};
use cube_shape::{MAX_DIM, MAX_LANES};
use dispatcher::{Finished, Plain, ShopRefused};
use dispatcher_threads::{RunEnd, SharedFloor, SharedLine, run};
use floor_tree::TreeFloor;
use floors::Floor;
use job_queue::JobLine;
use job_types::Job;
use line_ruled::RuledLine;
use lists::jobs_of_all;
use locked_peers::{LockedFloor, LockedLine};
use std::alloc::Global;
use std::collections::VecDeque;
use std::rt::Clock;
use std::sync::Wait;
use std::thread::Threads;
use std::time::Instant;
use words::{Invocation, ShopName, parse_words};

// Returns how many replies there are.
fn reply_count<M>(finished: &Finished<M>) -> u64 {
    let mut count = finished.rest.len() as u64;
    for replies in finished.by_worker.iter() {
        count = count.wrapping_add(replies.len() as u64);
    }
    count
}

// Returns what was measured of a run, if there was memory for it and a clock.
fn measured_of<M>(
    alloc: Global,
    ran: &Result<RunEnd<M>, (ShopRefused, Vec<VecDeque<Job>>)>,
    nanos: Option<u128>,
) -> Option<Measured> {
    let (Ok(end), Some(nanos)) = (ran, nanos) else {
        return None;
    };
    Some(Measured::timed(alloc, reply_count(&end.finished), nanos))
}

// Runs a new dispatcher over this queue and this allocator. Returns how many jobs have a reply, and
// the nanoseconds from its opening to its end.
fn run_shop<R: Threads + Wait + Sync + Clock, L: JobLine + SharedLine, F: Floor + SharedFloor>(
    rt: &R,
    alloc: Global,
    invocation: Invocation,
) -> Option<Measured>
    requires lanes { invocation.lanes ≤ MAX_LANES }
    requires dim { invocation.sizes.dim ≤ MAX_DIM }
{
    let lists = jobs_of_all(alloc, invocation)?;
    let start = Instant::now(rt);
    let ran = run::<R, L, F, Plain>(rt, alloc, invocation.sizes, &Plain, lists);
    let nanos = nanos_since(rt, start);
    measured_of(alloc, &ran, nanos)
}

// Runs the dispatcher that is asked for.
fn measure_shop<R: Threads + Wait + Sync + Clock>(
    rt: &R,
    alloc: Global,
    invocation: Invocation,
) -> Option<Measured>
    requires lanes { invocation.lanes ≤ MAX_LANES }
    requires dim { invocation.sizes.dim ≤ MAX_DIM }
{
    match invocation.shop {
        ShopName::Free => run_shop::<R, RuledLine, TreeFloor>(rt, alloc, invocation),
        ShopName::Locked => run_shop::<R, LockedLine, LockedFloor>(rt, alloc, invocation),
    }
}

/// Runs the dispatcher that the arguments ask for. Counts its replies, and times it.
pub(crate) fn measure<R: Threads + Wait + Sync + Clock>(
    rt: &R,
    alloc: Global,
    words: &[String],
) -> Result<Measured, MeasureError> {
    let Some(invocation) = parse_words(words) else {
        return Err(MeasureError::BadWords);
    };
    let Some(measured) = measure_shop(rt, alloc, invocation) else {
        return Err(MeasureError::Failed);
    };
    Ok(measured)
}
