// Running one job on a block of its own.
ghost use Rattle.std.specs.Prelude.{◌≡◌, ◌++◌, [], ◌∷◌};
ghost use Rattle.job_queue.specs.Record.{queued};
ghost use Rattle.dispatcher.specs.Reply.{answered, region_of, IsRight};

use crate::runner::Runner;
use floors::Floor;
use job_types::{Job, JobId, Reply};
use std::sync::Wait;

// Takes a block of the job's dimension, runs the job on it, and releases the block.
pub(crate) fn serve<R: Wait, F: Floor, T: Runner>(
    rt: &R,
    floor: &F,
    runner: &T,
    station: F::Station,
    id: JobId,
    job: Job,
) -> (F::Station, Reply)
    requires station { F.is_station (F.id floor.now) station }
    requires machine { job.machine ≡ (F.id floor.now).dim }
    ensures station { F.is_station (F.id floor.now) result.0 }
    ensures answers { answered result.1 ≡ queued id job }
    ensures granted { F.grants result.0 ≡ F.grants station ++ region_of result.1 ∷ [] }
    ensures right { IsRight (F.id floor.now).dim result.1 }
{
    let held = floor.take(rt, station, job.dim());
    let region = F::region(&held);
    let reply = runner.run(rt, id, region, job);
    (floor.release(rt, held), reply)
}
