//! How a planner is made, and how many bytes it needs.

ghost use Rattle.std.specs.Prelude.{◌≡◌, ◌+◌, ◌*◌, ◌/◌, ◌^◌, ◌≤◌, IfSome, IsSome};
ghost use Rattle.fixed_vec.specs.Spending.{HasWords};
ghost use Rattle.sched_core.specs.Shows.{core_words};
ghost use Rattle.cubejobs_plan.specs.Handle.{OnCore, core_of};
ghost use Rattle.cubejobs_plan.specs.Options.{IsInRange, IsNew};
ghost use Rattle.cubejobs_plan.specs.Sizes.{bytes_of};

use crate::handle::Handle;
use crate::opaque_ptr::OpaquePtr;
use crate::options::Options;
use crate::planner::Planner;
use fixed_vec::{Chunk, Store};
use sched_core::Scheduler;
use std::alloc::Global;

/// The most bytes of a job.
pub const JOB_BYTES: u64 = 96;

/// The bytes of a node in the trees of a machine.
pub const NODE_BYTES: u64 = 14;

/// The most bytes that do not depend on the options.
pub const OTHER_BYTES: u64 = 4000;

/// The words of 8 bytes for the parts of a planner that are no vectors.
pub const PLACE_WORDS: usize = 128;

// Returns how many bytes a planner needs.
pub(crate) fn bytes(options: Options) -> u64
    requires { IsInRange options }
    ensures { result ≡ bytes_of options.dim options.jobs }
{
    OTHER_BYTES + NODE_BYTES * (1 << (options.dim + 1)) + JOB_BYTES * options.jobs as u64
}

// Makes a planner on the heap. Returns `None` if memory ran out.
pub(crate) fn opened(alloc: Global, options: Options) -> Option<Handle>
    requires { IsInRange options }
    ensures { IfSome result (λ made. OnCore (IsNew options) (core_of made)) }
{
    let mut store = Store::heap(alloc);
    let Some(planner) = planner_in(&mut store, options) else {
        return None;
    };
    match Box::new(alloc, planner) {
        Ok(place) => Some(Handle::of(place)),
        Err(failed) => {
            drop(failed);
            None
        }
    }
}

// Makes a planner in words that the caller lends. Returns `None` if they are too few.
pub(crate) fn opened_in(alloc: Global, options: Options, words: Chunk) -> Option<Handle>
    requires { IsInRange options }
    ensures made { IfSome result (λ made. OnCore (IsNew options) (core_of made)) }
    ensures enough { bytes_of options.dim options.jobs / 8 ≤ words.words → IsSome result }
{
    let (there, words) = words.measured();
    if there < PLACE_WORDS {
        return None;
    }
    let (place, rest) = words.split(PLACE_WORDS);
    let mut store = Store::lent(alloc, rest);
    let Some(planner) = planner_in(&mut store, options) else {
        return None;
    };
    Some(Handle::of_lent(OpaquePtr::in_words(place, planner, alloc)))
}

// Makes a planner in memory of a store. Returns `None` if that ran out.
fn planner_in(store: &mut Store, options: Options) -> Option<Planner>
    requires { IsInRange options }
    ensures made { IfSome result (λ made. IsNew options made.scheduler) }
    ensures enough { HasWords (core_words options.dim options.jobs) store.old → IsSome result }
{
    let made = Scheduler::new(store, options.dim, options.jobs as usize, options.patience);
    match made {
        Ok(scheduler) => Some(Planner { scheduler }),
        Err(_) => None,
    }
}
