//! The rows of a report.
ghost use Rattle.std.specs.Prelude.{◌≡◌, ℕ, ◌+◌, ◌≤◌, ◌++◌, [], ◌∷◌, List, IfOk, OnOk, IsPermutation, length, map};
ghost use Rattle.std.specs.List.{All, range_with_len};
ghost use Rattle.floors.specs.Floor.{IsWhollyFree};
ghost use Rattle.cube_shape.specs.declared.limits.TheConstants.{MAX_LANES};
ghost use Rattle.job_queue.specs.declared.record.QueuedJob.{QueuedJob};
ghost use Rattle.dispatcher.specs.Reply.{answered, IsRight};
ghost use Rattle.dispatcher.specs.Answers.{all_replies};
ghost use Rattle.cube_ledger.specs.Occupancy.{IsEmptyMachine};
ghost use Rattle.cli_commands.specs.ReportRows.{free_row, rows_of};
ghost use Rattle.cli_commands.specs.Inner.ReportRows.{dim_row_in, lane_row_in, total_row_in};

use cube_ledger::{Ledger, Occupancy, Totals, occupancy};
use cube_shape::MAX_DIM;
use dispatcher::Finished;
use floors::Floor;
use jobs_csv::ReportRow;
use std::alloc::{AllocError, Global};

// Adds a row for each of the first lanes.
fn push_lanes(ledger: &Ledger, lanes: u32, rows: &mut Vec<ReportRow>) -> Result<(), AllocError>
    ensures { OnOk result (rows.new.items
        ≡ rows.old.items ++ map (lane_row_in ledger.now) (range_with_len 0 lanes)) }
{
    for lane in 0..lanes {
        let Totals {
            jobs,
            processors,
            idle,
        } = ledger.lane(lane);
        rows.push(ReportRow::Lane {
            lane,
            jobs,
            processors,
            idle,
        })?;
    }
    Ok(())
}

// Adds a row for each of the first dimensions.
fn push_dims(ledger: &Ledger, dims: u32, rows: &mut Vec<ReportRow>) -> Result<(), AllocError>
    ensures { OnOk result (rows.new.items
        ≡ rows.old.items ++ map (dim_row_in ledger.now) (range_with_len 0 dims)) }
{
    for dim in 0..dims {
        let Totals {
            jobs,
            processors,
            idle,
        } = ledger.dim(dim);
        rows.push(ReportRow::Dim {
            dim,
            jobs,
            processors,
            idle,
        })?;
    }
    Ok(())
}

// Returns the row of the free blocks of a dimension, for a machine in which every block is free.
fn free_row(n: u32, occupancy: &Occupancy, dim: u32) -> ReportRow
    requires limit { n ≤ MAX_DIM }
    requires dim { dim ≤ n }
    requires empty { IsEmptyMachine n occupancy.now }
    ensures { result ≡ free_row n dim }
{
    let regions = occupancy.free[dim as usize];
    ReportRow::Free {
        dim,
        regions,
        processors: u128::from(regions) << dim,
    }
}

// Adds a row for the free blocks of each of the first dimensions.
fn push_free(
    n: u32,
    occupancy: &Occupancy,
    dims: u32,
    rows: &mut Vec<ReportRow>,
) -> Result<(), AllocError>
    requires limit { n ≤ MAX_DIM }
    requires dims { dims ≤ n + 1 }
    requires empty { IsEmptyMachine n occupancy.now }
    ensures { OnOk result (rows.new.items
        ≡ rows.old.items ++ map (free_row n) (range_with_len 0 dims)) }
{
    for dim in 0..dims {
        rows.push(free_row(n, occupancy, dim))?;
    }
    Ok(())
}

// Adds the row of all jobs.
fn push_total(ledger: &Ledger, rows: &mut Vec<ReportRow>) -> Result<(), AllocError>
    ensures { OnOk result (rows.new.items
        ≡ rows.old.items ++ total_row_in ledger.now ∷ []) }
{
    let Totals {
        jobs,
        processors,
        idle,
    } = ledger.total();
    rows.push(ReportRow::Total {
        jobs,
        processors,
        idle,
    })?;
    Ok(())
}

/// Makes the report of a finished dispatcher, over a machine of dimension `n`. It has a row for
/// each lane, for each dimension, for the free blocks of each dimension, and for all jobs.
///
/// The rows count the jobs that the replies answer. The machine is wholly free.
///
/// # Errors
///
/// Memory ran out.
pub fn report_rows<F: Floor>(
    alloc: Global,
    n: u32,
    finished: &Finished<F::Machine>,
) -> Result<Vec<ReportRow>, AllocError>
    requires limit { n ≤ MAX_DIM }
    requires lanes { length finished.now.accepted.items ≤ MAX_LANES }
    requires free { IsWhollyFree n (F.machine_words finished.now.machine) }
    ensures { IfOk result (λ rows. (jobs : List QueuedJob) →
        IsPermutation jobs (map answered (all_replies
        (map (λ replies. replies.items) finished.now.by_worker.items) finished.now.rest.items)) →
        All (IsRight n) (all_replies
        (map (λ replies. replies.items) finished.now.by_worker.items) finished.now.rest.items) →
        rows.items ≡ rows_of n (length finished.now.accepted.items) jobs) }
{
    let ledger = Ledger::of(alloc, finished)?;
    let occupancy = occupancy(n, F::words(&finished.machine));
    let mut rows = Vec::new(alloc);
    push_lanes(&ledger, finished.accepted.len() as u32, &mut rows)?;
    push_dims(&ledger, n + 1, &mut rows)?;
    push_free(n, &occupancy, n + 1, &mut rows)?;
    push_total(&ledger, &mut rows)?;
    Ok(rows)
}
