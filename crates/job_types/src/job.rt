//! Jobs: how they are made and run.

ghost use Rattle.std.specs.Prelude.{◌≡◌, ◌≢◌, ℕ, ◌^◌, ◌<◌, ◌≤◌, length, IfOk, IfErr, OnOk, Some, None};
ghost use Rattle.cube_shape.specs.Region.{IsAligned};
ghost use Rattle.job_types.specs.Dim.{IsLeastDim, dim_of};
ghost use Rattle.job_types.specs.Job.{refusal_of};

use crate::items::Items;
use crate::kind::Kind;
use crate::packed_kind::PackedKind;
use crate::reply::{JobId, Reply};
use crate::request::{JobRefused, refusal};
use crate::work::Work;
use cube_shape::{MAX_DIM, MAX_LANES, Region};
use std::alloc::Global;
use std::marker::Model;

/// A job that has not run yet: a request, and the memory for its result.
#[derive(Debug, Drop)]
pub struct Job {
    work: Box<Work>,
}

impl Model for Job {
    ghost use Rattle.job_types.specs.Job.{JobData};
    ghost use Rattle.job_types.specs.Inner.Work.{IsMade, job_in};

    ghost Value = { JobData };

    ghost view = { λ j. job_in j.work.value };

    ghost invariant = { λ j. IsMade j.work.value };
}

impl Job {
    /// Makes a job of 1 to `2^n` items, for a machine of dimension `n` and one of its lanes.
    /// Reserves the memory for its result, so running it needs none.
    ///
    /// # Errors
    ///
    /// Returns the items unchanged, with the first reason of `JobRefused` that holds. Returns
    /// `OutOfMemory` only if a reservation failed.
    pub fn new(
        alloc: Global,
        n: u32,
        lane: u32,
        kind: Kind,
        items: Vec<u64>,
    ) -> Result<Self, (Vec<u64>, JobRefused)>
        requires machine { n ≤ MAX_DIM }
        requires lane { lane < MAX_LANES }
        ensures made { IfOk result (λ job.
            job ≡ record { machine = n; lane = lane; kind = kind; items = items.items }) }
        ensures accepted { OnOk result (refusal_of n kind items.items ≡ None) }
        ensures refused { IfErr result (λ r.
            r.1 ≢ JobRefused.OutOfMemory → refusal_of n kind items.items ≡ Some r.1) }
        ensures memory_last { IfErr result (λ r.
            r.1 ≡ JobRefused.OutOfMemory → refusal_of n kind items.items ≡ None) }
        ensures gives_back { IfErr result (λ r. r.0.items ≡ items.items) }
    {
        if let Some(refused) = refusal(n, kind, &items) {
            return Err((items, refused));
        }
        let Ok(mut work) = Box::new(alloc, Work::blank(n, lane)) else {
            return Err((items, JobRefused::OutOfMemory));
        };
        match Items::new(kind, items) {
            Ok(items) => {
                work.kind = PackedKind::new(kind);
                work.items = items;
                Ok(Job { work })
            }
            Err(items) => Err((items, JobRefused::OutOfMemory)),
        }
    }

    /// Returns the dimension of the machine.
    pub fn machine(&self) -> u32
        ensures value { result ≡ self.now.machine }
        ensures limit { result ≤ MAX_DIM }
    {
        self.work.machine()
    }

    /// Returns the lane that the job was made for.
    pub fn lane(&self) -> u32
        ensures value { result ≡ self.now.lane }
        ensures below { result < MAX_LANES }
    {
        self.work.lane()
    }

    /// Returns the collective.
    pub fn kind(&self) -> Kind
        ensures { result ≡ self.now.kind }
    {
        self.work.kind()
    }

    /// Returns the least dimension that holds the items: that of the smallest block with a
    /// processor for each.
    pub fn dim(&self) -> u32
        ensures least { IsLeastDim (length self.now.items) result }
        ensures value { result ≡ dim_of (length self.now.items) }
        ensures within { result ≤ self.now.machine }
        ensures limit { self.now.machine ≤ MAX_DIM }

        // What `dim_of` means, for any number of items.
        ensures means { (p : ℕ) → IsLeastDim p (dim_of p) }
    {
        self.work.dim()
    }

    /// Returns the items. The `i`-th one is on the `i`-th processor of the block.
    pub fn items(&self) -> &[u64]
        ensures value { result.now ≡ self.now.items }
        ensures some { 0 < length result.now }
        ensures fits { length result.now ≤ 2 ^ self.now.machine }
    {
        self.work.items()
    }

    /// Runs the job on a block of its machine: the smallest with a processor for each item. Needs
    /// no memory: the rounds work on the stack, and the memory for the result was reserved before.
    pub fn answer(self, id: JobId, region: Region) -> Reply
        requires aligned { IsAligned self.machine region }
        requires dimension { region.dim ≡ dim_of (length self.items) }
        ensures { result ≡ record { id = id; job = self; region = region } }
    {
        let Job { mut work } = self;
        work.run();
        work.put_run(id.lane, region.base);
        Reply::new(id.seq, work)
    }
}
