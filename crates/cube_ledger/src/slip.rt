//! Slips: what a reply adds to the totals.
ghost use Rattle.std.specs.Prelude.{◌≡◌, ◌-◌, ◌^◌, ◌<◌, ◌≤◌, length};
ghost use Rattle.job_types.specs.Dim.{dim_of};
ghost use Rattle.cube_ledger.specs.Ledger.{slip_of};

use cube_shape::{MAX_DIM, Region};
use job_types::{JobId, Reply, Request};

/// The entry of one reply in a ledger: its job, the block that this ran on, and the idle
/// processors.
#[derive(Clone, Copy, Debug, PartialEq, Eq, Hash)]
pub struct Slip {
    /// The id of the job.
    pub id: JobId,
    /// The block that the job ran on.
    pub region: Region,
    /// The number of the block's processors that had no item of the job.
    pub idle: u64,
}

// Returns how many processors of the job's block have none of its items.
fn idle_processors(job: &Request<'_>) -> u64
    ensures value { result ≡ 2 ^ dim_of (length job.now.items) - length job.now.items }
    ensures few { result < 2 ^ dim_of (length job.now.items) }
{
    (1 << job.dim()) - job.items().len() as u64
}

impl Slip {
    /// Makes the slip of a reply.
    pub fn of(reply: &Reply) -> Slip
        ensures value { result ≡ slip_of reply.now }
        ensures limit { result.region.dim ≤ MAX_DIM }
        ensures few { result.idle < 2 ^ result.region.dim }
    {
        let region = reply.region();
        let within = region.dim <= reply.job().machine() && reply.job().machine() <= MAX_DIM;
        prove!(within);
        Slip {
            id: reply.id(),
            region,
            idle: idle_processors(&reply.job()),
        }
    }
}
