//! What a job asks for, and why a request is refused.

ghost use Rattle.std.specs.Prelude.{◌≡◌, ℕ, ◌^◌, ◌<◌, ◌≤◌, length};
ghost use Rattle.job_types.specs.Dim.{IsLeastDim, dim_of};
ghost use Rattle.job_types.specs.Job.{refusal_of};
ghost use Rattle.job_types.specs.Inner.Work.{IsMade, job_in};

use crate::kind::Kind;
use crate::work::Work;
use cube_shape::{MAX_DIM, MAX_LANES};
use std::marker::Model;
use thiserror::Error;

/// The reason why there is no job for a request. If several reasons hold, the first one is
/// reported.
#[derive(Clone, Copy, Debug, PartialEq, Eq, Hash, Error)]
pub enum JobRefused {
    /// There are no items.
    #[error("no items")]
    Empty,
    /// There are more items than processors.
    #[error("more items than processors")]
    TooLarge,
    /// The root is not the place of an item. Places are counted from 0.
    #[error("the root is not the place of an item")]
    BadRoot,
    /// The allocator had no memory for the job.
    #[error("out of memory")]
    OutOfMemory,
}

/// What the job of a reply asked for. It has at least one item, and its machine has blocks of the
/// least dimension that holds its items.
#[derive(Debug, Drop)]
pub struct Request<'a> {
    work: &'a Work,
}

impl<'a> Model for Request<'a> {
    ghost use Rattle.job_types.specs.Job.{JobData};
    ghost use Rattle.job_types.specs.Inner.Work.{IsMade, job_in};

    ghost Value = { JobData };

    ghost view = { λ r. job_in r.work.now };

    ghost invariant = { λ r. IsMade r.work.now };
}

// Returns why a machine of dimension `n` refuses these items: the first reason, in the order of
// `JobRefused`.
pub(crate) fn refusal(n: u32, kind: Kind, items: &[u64]) -> Option<JobRefused>
    requires { n ≤ MAX_DIM }
    ensures { result ≡ refusal_of n kind items.now }
{
    let len = items.len();
    if len == 0 {
        return Some(JobRefused::Empty);
    }
    if len > 1 << n {
        return Some(JobRefused::TooLarge);
    }
    if kind.has_bad_root(len as u64) {
        return Some(JobRefused::BadRoot);
    }
    None
}

// Returns the least dimension that holds this many items.
pub(crate) fn least_dim(count: usize) -> u32
    requires { 0 < count }
    ensures least { IsLeastDim count result }
    ensures value { result ≡ dim_of count }
{
    usize::BITS - (count - 1).leading_zeros()
}

impl<'a> Request<'a> {
    // Returns the request of a job.
    pub(crate) fn of(work: &'a Work) -> Self
        requires { IsMade work.now }
        ensures { result ≡ job_in work.now }
    {
        Request { work }
    }

    /// Returns the dimension of the machine.
    pub fn machine(&self) -> u32
        ensures value { result ≡ self.now.machine }
        ensures limit { result ≤ MAX_DIM }
    {
        self.work.machine()
    }

    /// Returns the lane that the job was made for.
    pub fn lane(&self) -> u32
        ensures value { result ≡ self.now.lane }
        ensures below { result < MAX_LANES }
    {
        self.work.lane()
    }

    /// Returns the collective.
    pub fn kind(&self) -> Kind
        ensures { result ≡ self.now.kind }
    {
        self.work.kind()
    }

    /// Returns the least dimension that holds the items: that of the smallest block with a
    /// processor for each.
    pub fn dim(&self) -> u32
        ensures least { IsLeastDim (length self.now.items) result }
        ensures value { result ≡ dim_of (length self.now.items) }
        ensures within { result ≤ self.now.machine }
        ensures limit { self.now.machine ≤ MAX_DIM }

        // What `dim_of` means, for any number of items.
        ensures means { (p : ℕ) → IsLeastDim p (dim_of p) }
    {
        self.work.dim()
    }

    /// Returns the items. The `i`-th one is on the `i`-th processor of the block.
    pub fn items(&self) -> &'a [u64]
        ensures value { result.now ≡ self.now.items }
        ensures some { 0 < length result.now }
        ensures fits { length result.now ≤ 2 ^ self.now.machine }
    {
        self.work.items()
    }
}
