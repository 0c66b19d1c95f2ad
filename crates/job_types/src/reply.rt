//! Replies to jobs.

ghost use Rattle.std.specs.Prelude.{◌≡◌, length};
ghost use Rattle.cube_shape.specs.Region.{IsAligned};
ghost use Rattle.collectives.specs.Shape.{tally_of};
ghost use Rattle.job_types.specs.Collective.{result_at, shape_of};
ghost use Rattle.job_types.specs.Dim.{dim_of};
ghost use Rattle.job_types.specs.Inner.Reply.{IsAnswer, region_at};
ghost use Rattle.job_types.specs.Inner.Work.{job_in, ran_as};

use crate::kind::Kind;
use crate::request::Request;
use crate::work::Work;
use collectives::Tally;
use cube_shape::Region;
use std::marker::Model;

/// The id of a job: its lane, and its number in that lane.
#[derive(Clone, Copy, Debug, PartialEq, Eq, PartialOrd, Ord, Hash)]
pub struct JobId {
    /// The lane.
    pub lane: u32,
    /// The job's number among those of its lane, from 0 on.
    pub seq: u64,
}

/// The reply to a job: the block that the job ran on, the collective's result on its items, and the
/// number of rounds and messages.
#[derive(Debug, Drop)]
pub struct Reply {
    seq: u64,
    work: Box<Work>,
}

impl Model for Reply {
    ghost use Rattle.job_types.specs.Reply.{ReplyData};
    ghost use Rattle.job_types.specs.Inner.Reply.{IsAnswer, region_at};
    ghost use Rattle.job_types.specs.Inner.Work.{job_in, ran_as};

    ghost Value = { ReplyData };

    ghost view = { λ r. record {
      id = record { lane = ran_as r.work.value; seq = r.seq };
      job = job_in r.work.value;
      region = region_at (job_in r.work.value) r.work.value.base;
    } };

    ghost invariant = { λ r. IsAnswer r.work.value };
}

impl Reply {
    // Makes the reply of a job that has run, under this number.
    pub(crate) fn new(seq: u64, work: Box<Work>) -> Self
        requires { IsAnswer work.value }
        ensures { result ≡ record {
          id = record { lane = ran_as work.value; seq = seq };
          job = job_in work.value;
          region = region_at (job_in work.value) work.value.base;
        } }
    {
        Reply { seq, work }
    }

    /// Returns the id of the job.
    pub fn id(&self) -> JobId
        ensures { result ≡ self.now.id }
    {
        JobId {
            lane: self.work.items.id_lane(),
            seq: self.seq,
        }
    }

    /// Returns what the job asked for.
    pub fn job(&self) -> Request<'_>
        ensures { result ≡ self.now.job }
    {
        Request::of(&self.work)
    }

    /// Returns the block that the job ran on, the smallest with a processor for each item.
    pub fn region(&self) -> Region
        ensures value { result ≡ self.now.region }
        ensures aligned { IsAligned self.now.job.machine result }
        ensures dimension { result.dim ≡ dim_of (length self.now.job.items) }
    {
        Region {
            base: u64::from(self.work.base),
            dim: self.work.dim(),
        }
    }

    /// Returns the rounds and messages of the collective, on all processors of the block.
    pub fn tally(&self) -> Tally
        ensures { result ≡
            tally_of (shape_of self.now.job.kind) (dim_of (length self.now.job.items)) }
    {
        self.work.kind().shape().tally(self.work.dim())
    }

    /// Returns what the processor of this rank holds at the end. Returns `None` for a rank without
    /// an item, even if the block has a processor of this rank. For a reduction it returns `None`
    /// at every rank except the root.
    pub fn at(&self, rank: u64) -> Option<u64>
        ensures { result ≡ result_at self.now.job.kind self.now.job.items rank }
    {
        if rank >= self.work.items().len() as u64 {
            return None;
        }
        match self.work.kind() {
            Kind::Reduce { root, .. } if rank != root => None,
            _ => self.work.kept_at(rank),
        }
    }
}
