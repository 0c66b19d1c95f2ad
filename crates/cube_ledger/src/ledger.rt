//! The totals of a finished dispatcher.
ghost use Rattle.std.specs.Prelude.{◌≡◌, ℕ, ◌+◌, ◌<◌, ◌≤◌, ◌++◌, ◌^◌, [], ◌∷◌, IfOk, OnOk, cond, length, map, slice_index_or, slice_set};
ghost use Rattle.std.specs.List.{All};
ghost use Rattle.ghost_history.specs.Sums.{below};
ghost use Rattle.job_types.specs.Reply.{ReplyData};
ghost use Rattle.cube_ledger.specs.Ledger.{HasAllSlips, is_any, is_of_dim, is_of_lane, processors_of, slip_of, totals_of};
ghost use Rattle.cube_ledger.specs.Inner.Tables.{HasFewIdle, HasRoom, HasSmallDim, and_slip};

use crate::log::Log;
use crate::slip::Slip;
use cube_shape::{MAX_DIM, MAX_LANES};
use dispatcher::Finished;
use job_types::Reply;
use std::alloc::{AllocError, Global};
use std::fmt;
use std::marker::Model;

// The number of lanes that have an entry in the table of lanes.
const LANES: usize = MAX_LANES as usize;

// The number of dimensions of blocks.
const DIMS: usize = MAX_DIM as usize + 1;

/// The number of jobs, of the processors of their blocks, and of those among them that were idle.
#[derive(Clone, Copy, Debug, PartialEq, Eq)]
pub struct Totals {
    /// The number of jobs.
    pub jobs: u64,
    /// The sum of the processors of their blocks. A processor counts once for each job.
    pub processors: u128,
    /// The number of these processors that had no item of their job.
    pub idle: u128,
}

// The totals of no slips.
const NONE: Totals = Totals {
    jobs: 0,
    processors: 0,
    idle: 0,
};

/// The slips of all replies of a finished dispatcher, summed by lane, by dimension and in all.
///
/// A contract sees the list of the slips. The ledger keeps the slips of lanes from `MAX_LANES` on,
/// and of others their sums alone. A total allocates no memory.
#[derive(Drop)]
pub struct Ledger {
    lanes: [Totals; LANES],
    dims: [Totals; DIMS],
    total: Totals,
    // The slips of the lanes that have no entry.
    others: Vec<Slip>,
    slips: Log<Slip>,
}

impl Model for Ledger {
    ghost use Rattle.std.specs.Prelude.{List};
    ghost use Rattle.cube_ledger.specs.declared.slip.Slip.{Slip as SlipData};
    ghost use Rattle.cube_ledger.specs.Inner.Tables.{HasTables};

    ghost Value = { List SlipData };

    ghost view = { λ l. l.slips.items };

    ghost invariant = { λ l. HasTables l.lanes l.dims l.total l.others.items l.slips.items };
}

impl fmt::Debug for Ledger {
    fn fmt<W: fmt::Write>(&self, f: &mut fmt::Formatter<W>) -> fmt::Result {
        f.debug_struct("Ledger")
            .field("lanes", &self.lanes)
            .field("dims", &self.dims)
            .field("total", &self.total)
            .finish_non_exhaustive()
    }
}

// Returns the number of processors of the block.
fn processors(slip: &Slip) -> u128
    requires { HasSmallDim slip.now }
    ensures value { result ≡ processors_of slip.now }
    ensures small { result ≤ 2 ^ MAX_DIM }
{
    1 << slip.region.dim
}

// Adds one slip to the totals, if it counts.
fn add_if(totals: Totals, slip: &Slip, counts: bool) -> Totals
    requires jobs { totals.jobs + 1 < 2 ^ 64 }
    requires processors { totals.processors + 2 ^ MAX_DIM < 2 ^ 128 }
    requires idle { totals.idle + 2 ^ 64 < 2 ^ 128 }
    requires dim { HasSmallDim slip.now }
    ensures jobs { result.jobs ≡ totals.jobs + cond counts 1 0 }
    ensures processors { result.processors
        ≡ totals.processors + cond counts (processors_of slip.now) 0 }
    ensures idle { result.idle ≡ totals.idle + cond counts slip.now.idle 0 }
    ensures few { result.jobs ≤ totals.jobs + 1 }
    ensures small { result.processors ≤ totals.processors + 2 ^ MAX_DIM }
    ensures small_idle { result.idle ≤ totals.idle + 2 ^ 64 }
{
    if !counts {
        return totals;
    }
    Totals {
        jobs: totals.jobs + 1,
        processors: totals.processors + processors(slip),
        idle: totals.idle + slip.idle as u128,
    }
}

// Adds one slip to an entry of the table.
fn add_at(table: &mut [Totals], at: usize, slip: &Slip)
    requires at { at < length table.old }
    requires room { (d : Totals) → HasRoom (slice_index_or table.old at d) }
    requires dim { HasSmallDim slip.now }
    ensures { (d : Totals) → table.new
        ≡ slice_set table.old at (and_slip (slice_index_or table.old at d) slip.now) }
{
    table[at] = add_if(table[at], slip, true);
}

// Returns the totals of the slips of a lane.
#[tactic(auto, using(crate::proofs::TotalLemmas::total_more))]
fn sum(slips: &[Slip], lane: u32) -> Totals
    requires { All HasSmallDim slips.now }
    ensures { result ≡ totals_of (is_of_lane lane) slips.now }
{
    let mut totals = NONE;
    for slip in slips {
        totals = add_if(totals, slip, slip.id.lane == lane);
    }
    totals
}

impl Ledger {
    // Makes the ledger of no replies.
    fn empty(alloc: Global) -> Ledger
        ensures { result ≡ [] }
    {
        Ledger {
            lanes: [NONE; LANES],
            dims: [NONE; DIMS],
            total: NONE,
            others: Vec::new(alloc),
            slips: Log::new(),
        }
    }

    // Adds a slip.
    fn add(&mut self, slip: &Slip) -> Result<(), AllocError>
        requires dim { HasSmallDim slip.now }
        requires idle { HasFewIdle slip.now }
        ensures { OnOk result (self.new ≡ self.old ++ slip.now ∷ []) }
    {
        if self.total.jobs == u64::MAX {
            return Err(AllocError);
        }
        let lane = slip.id.lane as usize;
        if lane < LANES {
            add_at(&mut self.lanes, lane, slip);
        } else {
            self.others.push(*slip)?;
        }
        add_at(&mut self.dims, slip.region.dim as usize, slip);
        self.total = add_if(self.total, slip, true);
        self.slips = self.slips.and(slip);
        Ok(())
    }

    // Adds the slips of the replies.
    fn add_all(&mut self, replies: &[Reply]) -> Result<(), AllocError>
        ensures { OnOk result (self.new ≡ self.old ++ map slip_of replies.now) }
    {
        for reply in replies {
            self.add(&Slip::of(reply))?;
        }
        Ok(())
    }

    /// Makes the ledger of all replies of a dispatcher: those of its workers and those of the rest.
    ///
    /// # Errors
    ///
    /// Memory ran out. It is only taken for slips of lanes from `MAX_LANES` on, which no dispatcher
    /// has. More than `u64::MAX` replies, which no memory holds, are refused in this way too.
    pub fn of<M>(alloc: Global, finished: &Finished<M>) -> Result<Ledger, AllocError>
        ensures { IfOk result (λ ledger. HasAllSlips
            (map (λ replies. replies.items) finished.now.by_worker.items)
            finished.now.rest.items ledger) }
    {
        let mut ledger = Ledger::empty(alloc);
        for replies in &finished.by_worker {
            ledger.add_all(replies)?;
        }
        ledger.add_all(&finished.rest)?;
        Ok(ledger)
    }

    /// Returns the totals of a lane. They are 0 for a lane without replies, and for a number that
    /// is no lane's.
    pub fn lane(&self, lane: u32) -> Totals
        ensures { result ≡ totals_of (is_of_lane lane) self.now }
    {
        match self.lanes.get(lane as usize) {
            Some(totals) => *totals,
            None => sum(&self.others, lane),
        }
    }

    /// Returns the totals of the jobs that ran on a block of this dimension. They are 0 if there
    /// was none.
    pub fn dim(&self, dim: u32) -> Totals
        ensures { result ≡ totals_of (is_of_dim dim) self.now }
    {
        match self.dims.get(dim as usize) {
            Some(totals) => *totals,
            None => NONE,
        }
    }

    /// Returns the totals of all jobs. The totals of the lanes add up to them, and so do those of
    /// the dimensions.
    pub fn total(&self) -> Totals
        ensures value { result ≡ totals_of is_any self.now }
        ensures lanes_sum { (lanes : ℕ) → All (λ s. s.id.lane < lanes) self.now →
            (below (λ l. (totals_of (is_of_lane l) self.now).jobs) lanes ≡ result.jobs)
            × (below (λ l. (totals_of (is_of_lane l) self.now).processors) lanes
            ≡ result.processors)
            × (below (λ l. (totals_of (is_of_lane l) self.now).idle) lanes ≡ result.idle) }
        ensures dims_sum { (below (λ k. (totals_of (is_of_dim k) self.now).jobs) (MAX_DIM + 1)
            ≡ result.jobs)
            × (below (λ k. (totals_of (is_of_dim k) self.now).processors) (MAX_DIM + 1)
            ≡ result.processors)
            × (below (λ k. (totals_of (is_of_dim k) self.now).idle) (MAX_DIM + 1)
            ≡ result.idle) }
    {
        self.total
    }
}
