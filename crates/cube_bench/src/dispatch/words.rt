//! The arguments of a measurement of a dispatcher.
ghost use Rattle.std.specs.Prelude.{◌≤◌, IfSome};

use cube_shape::{MAX_DIM, MAX_LANES};
use dispatcher::{ShopSizes, refusal};

// The dimension of the machine.
const DIM: u32 = 10;

/// A choice of the queue and the allocator.
#[derive(Clone, Copy)]
pub(crate) enum ShopName {
    /// The lock-free queue and the lock-free allocator.
    Free,
    /// The queue and the allocator under one lock each.
    Locked,
}

/// The run that is to be measured.
#[derive(Clone, Copy)]
pub(crate) struct Invocation {
    /// The queue and the allocator of the dispatcher.
    pub shop: ShopName,
    /// The number of items of each job: at most one for each processor.
    pub items: usize,
    pub lanes: u32,
    pub sizes: ShopSizes,
    /// The number of jobs of each lane.
    pub jobs: usize,
}

// Returns the dispatcher of this name.
fn shop_named(name: &str) -> Option<ShopName> {
    match name {
        "free" => Some(ShopName::Free),
        "locked" => Some(ShopName::Locked),
        _ => None,
    }
}

// Returns the run that the arguments ask for, whatever its sizes are.
fn asked_for(words: &[String]) -> Option<Invocation>
    ensures { IfSome result (λ it. it.sizes.dim ≤ MAX_DIM) }
{
    let [shop, items, lanes, dispatchers, capacity, jobs] = words else {
        return None;
    };
    let shop = shop_named(shop)?;
    let sizes = (
        items.parse::<usize>(),
        capacity.parse::<usize>(),
        jobs.parse::<usize>(),
    );
    let (Ok(items), Ok(capacity), Ok(jobs)) = sizes else {
        return None;
    };
    let counts = (lanes.parse::<u32>(), dispatchers.parse::<u32>());
    let (Ok(lanes), Ok(dispatchers)) = counts else {
        return None;
    };
    Some(Invocation {
        shop,
        items,
        lanes,
        sizes: ShopSizes {
            dim: DIM,
            dispatchers,
            capacity,
        },
        jobs,
    })
}

// Returns whether a dispatcher of these sizes can be opened, and its machine has a processor for
// each item of a job.
fn can_run(run: &Invocation) -> bool {
    let ShopSizes {
        dim,
        dispatchers,
        capacity,
    } = run.sizes;
    run.items > 0
        && run.items <= 1 << DIM
        && refusal(dim, run.lanes, dispatchers, capacity).is_none()
}

/// Returns the run that the arguments ask for, if they are well formed and a dispatcher of these
/// sizes can be opened.
pub(crate) fn parse_words(words: &[String]) -> Option<Invocation>
    ensures lanes { IfSome result (λ it. it.lanes ≤ MAX_LANES) }
    ensures dim { IfSome result (λ it. it.sizes.dim ≤ MAX_DIM) }
{
    if words.len() != 6 {
        return None;
    }
    let run = asked_for(words)?;
    if run.lanes > MAX_LANES || !can_run(&run) {
        return None;
    }
    Some(run)
}
