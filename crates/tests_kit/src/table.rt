//! The processors that are in use at one moment.
use cube_shape::MAX_DIM;
use dispatcher::Runner;
use job_types::{Job, JobId, Region, Reply};
use std::alloc::{AllocError, Global};
use std::sync::Wait;
use std::sync::atomic::AtomicU64;
use std::sync::atomic::Ordering::SeqCst;

/// A counter for each processor of a machine, which is up while its block is in use. Threads may
/// share it.
#[derive(Drop)]
pub struct Table {
    counts: Vec<AtomicU64>,
    clashes: AtomicU64,
}

// Returns whether the processor is one of the block's. No dimension is above the largest one.
fn is_in(region: Region, processor: u64) -> bool {
    region.base <= processor && processor - region.base < 1 << region.dim.min(MAX_DIM)
}

impl Table {
    /// Creates a table of this number of processors, none of which is in use.
    pub fn new(alloc: Global, processors: usize) -> Result<Table, AllocError> {
        let mut counts = Vec::new(alloc);
        for _ in 0..processors {
            counts.push(AtomicU64::new(0))?;
        }
        Ok(Table {
            counts,
            clashes: AtomicU64::new(0),
        })
    }

    /// Counts up on the processors of a block that is held. It is a clash if one of them was in
    /// use.
    pub fn enter(&self, region: Region) {
        let mut found = 0u64;
        for (processor, count) in self.counts.iter().enumerate() {
            if is_in(region, processor as u64) {
                found |= count.fetch_add(1, SeqCst);
            }
        }
        if found > 0 {
            self.clashes.fetch_add(1, SeqCst);
        }
    }

    /// Counts down again on the processors of a block.
    pub fn leave(&self, region: Region) {
        for (processor, count) in self.counts.iter().enumerate() {
            if is_in(region, processor as u64) {
                count.fetch_sub(1, SeqCst);
            }
        }
    }

    /// Returns how many blocks were entered of which a processor was in use.
    pub fn clashes(&self) -> u64 {
        self.clashes.load(SeqCst)
    }
}

/// A runner that runs jobs by another one, and counts up on a job's processors while it is inside.
#[derive(Drop)]
pub struct Tabled<T> {
    runner: T,
    table: Table,
}

impl<T> Tabled<T> {
    /// Creates such a runner for a machine of this number of processors.
    pub fn new(alloc: Global, processors: usize, runner: T) -> Result<Tabled<T>, AllocError>
    where
        T: Drop,
    {
        Ok(Tabled {
            runner,
            table: Table::new(alloc, processors)?,
        })
    }

    /// Returns the other runner.
    pub fn runner(&self) -> &T {
        &self.runner
    }

    /// Returns how many jobs entered on a block of which a processor was in use.
    pub fn clashes(&self) -> u64 {
        self.table.clashes()
    }
}

impl<T: Runner> Runner for Tabled<T> {
    fn run<R: Wait>(&self, rt: &R, id: JobId, region: Region, job: Job) -> Reply {
        self.table.enter(region);
        let reply = self.runner.run(rt, id, region, job);
        self.table.leave(region);
        reply
    }
}
