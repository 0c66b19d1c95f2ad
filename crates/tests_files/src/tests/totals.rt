//! The totals and the report of a dispatcher that has run three jobs, and the words of a few
//! machines.

ghost use Rattle.std.specs.Prelude.{◌≡◌, ◌^◌, ◌+◌, ◌≤◌, IfOk, length};
ghost use Rattle.floors.specs.Floor.{IsWhollyFree};

use crate::tests::facts::expect_true;
use crate::tests::failing_devices::push;
use crate::tests::jobs::replies_to;
use cli_commands::report_rows;
use cube_ledger::{FREE_PLACES, Ledger, Occupancy, Slip, Totals, occupancy};
use cube_shape::{MAX_DIM, Region};
use dispatcher::Finished;
use floors::Floor;
use job_types::{JobId, Kind, Op, Reply};
use jobs_csv::ReportRow;
use locked_peers::LockedFloor;
use std::alloc::{AllocError, Global};
use std::process::Abort;

// The collective that is asked for: the greatest of some numbers.
const GREATEST: Kind = Kind::Scan { op: Op::Max };

// Returns the replies of each worker.
fn by_worker(
    rt: &(impl AllocGlobal + Abort),
    workers: &[&[(u32, u64, &[u64])]],
) -> Vec<Vec<Reply>> {
    let mut by_worker = Vec::new(rt.alloc());
    for rows in workers {
        push(rt, &mut by_worker, replies_to(rt, GREATEST, rows));
    }
    by_worker
}

// Returns one reply of the first worker, one of the third and one of the rest.
fn finished(rt: &(impl AllocGlobal + Abort)) -> Finished<()> {
    let workers: &[&[(u32, u64, &[u64])]] = &[&[(1, 0, &[5, 6])], &[], &[(0, 0, &[2, 9, 4])]];
    Finished {
        by_worker: by_worker(rt, workers),
        rest: replies_to(rt, GREATEST, &[(1, 1, &[8, 1, 3, 3, 5])]),
        accepted: Vec::new(rt.alloc()),
        machine: (),
    }
}

// Returns whether these totals count this number of jobs on this number of processors, with this
// number of idle ones.
fn are(totals: Totals, jobs: u64, processors: u128, idle: u128) -> bool {
    totals
        == Totals {
            jobs,
            processors,
            idle,
        }
}

// The part that a ledger counts: a lane, a dimension, or all.
#[derive(Clone, Copy)]
enum Part {
    Lane(u32),
    Dim(u32),
    All,
}

// Returns what a ledger counts of a part.
fn counted(ledger: &Ledger, part: Part) -> Totals {
    match part {
        Part::Lane(lane) => ledger.lane(lane),
        Part::Dim(dim) => ledger.dim(dim),
        Part::All => ledger.total(),
    }
}

// Expects that each of these parts of a ledger has its numbers of jobs, of processors and of idle
// ones.
fn expect_totals(rt: &impl Abort, ledger: &Ledger, rows: &[(Part, u64, u128, u128)]) {
    for (part, jobs, processors, idle) in rows {
        expect_true(rt, are(counted(ledger, *part), *jobs, *processors, *idle));
    }
}

// Returns the ledger of a finished dispatcher.
fn ledger_of(rt: &(impl AllocGlobal + Abort), finished: &Finished<()>) -> Ledger {
    Ledger::of(rt.alloc(), finished).expect(rt, "no memory")
}

// Returns whether the slip of a reply has this id, this block and this number of idle processors.
fn is_slip(reply: &Reply, id: JobId, region: Region, idle: u64) -> bool {
    let slip = Slip::of(reply);
    (slip.id == id) & (slip.region == region) & (slip.idle == idle)
}

// Expects that the first of these replies is the second of lane 1, on the whole machine, with three
// idle processors.
fn expect_slip(rt: &impl Abort, replies: &[Reply]) {
    let reply = replies.first().expect(rt, "a reply");
    let (id, region) = (JobId { lane: 1, seq: 1 }, Region { base: 0, dim: 3 });
    expect_true(rt, is_slip(reply, id, region, 3));
}

// The totals of three jobs.
static TOTALS: [(Part, u64, u128, u128); 10] = [
    (Part::Lane(0), 1, 4, 1),
    (Part::Lane(1), 2, 10, 3),
    (Part::Lane(2), 0, 0, 0),
    (Part::Lane(u32::MAX), 0, 0, 0),
    (Part::Dim(0), 0, 0, 0),
    (Part::Dim(1), 1, 2, 0),
    (Part::Dim(2), 1, 4, 1),
    (Part::Dim(3), 1, 8, 3),
    (Part::Dim(u32::MAX), 0, 0, 0),
    (Part::All, 3, 14, 4),
];

#[test]
fn totals_of_three_replies(rt: HostRuntime) {
    let finished = finished(&rt);
    expect_slip(&rt, &finished.rest);
    expect_totals(&rt, &ledger_of(&rt, &finished), &TOTALS);
}

// Returns what these words say of the blocks of their machine.
fn said(n: u32, words: &[u64]) -> Occupancy
    requires machine { n ≤ MAX_DIM }
    requires words { length words.now ≡ 2 ^ (n + 1) }
{
    occupancy(n, words)
}

// Returns whether this number of free blocks of a dimension is that of its place in a list, and 0
// past its end.
fn is_free(count: u64, free: &[u64], dim: usize) -> bool {
    count == free.get(dim).copied().unwrap_or(0)
}

// Expects that the machine with these words has these free blocks, by dimension, and none of a
// higher dimension.
fn expect_occupancy(
    rt: &impl Abort,
    n: u32,
    words: &[u64],
    free: &[u64],
    held: u64,
    largest: Option<u32>,
)
    requires machine { n ≤ MAX_DIM }
    requires words { length words.now ≡ 2 ^ (n + 1) }
{
    let said = said(n, words);
    for dim in 0..FREE_PLACES {
        expect_true(rt, is_free(said.free[dim], free, dim));
    }
    expect_true(rt, (said.held == held) & (said.largest == largest));
}

#[test]
fn occupancy_of_small_machines(rt: HostRuntime) {
    expect_occupancy(
        &rt,
        3,
        &[0, 2, 6, 0, 519, 2, 0, 0, 0, 0, 7, 0, 0, 0, 0, 0],
        &[5, 2, 1, 0],
        3,
        Some(2),
    );
    expect_occupancy(&rt, 0, &[0, 0], &[1], 0, Some(0));
    expect_occupancy(&rt, 1, &[0, 7, 0, 0], &[0, 0], 2, None);
    expect_occupancy(&rt, 1, &[1, 7, 7, 256], &[0, 0], 2, None);
    expect_occupancy(&rt, 1, &[u64::MAX, 256, 0, 256], &[2, 1], 0, Some(1));
}

// Returns what is left of an allocator that gave nothing out.
fn free_machine<F: Floor>(alloc: Global, n: u32) -> Result<F::Machine, AllocError>
    requires { n ≤ MAX_DIM }
    ensures { IfOk result (λ machine. IsWhollyFree n (F.machine_words machine)) }
{
    let (floor, stations) = F::open(alloc, n, 1)?;
    Ok(floor.close(stations))
}

// Returns the rows of a dispatcher with two lanes and an allocator that gave nothing out, and with
// these replies.
fn rows_of<F: Floor>(
    rt: &(impl AllocGlobal + Abort),
    by_worker: Vec<Vec<Reply>>,
    rest: Vec<Reply>,
) -> Vec<ReportRow>
where
    F::Machine: Drop,
{
    let alloc = rt.alloc();
    let finished = Finished {
        by_worker,
        rest,
        accepted: Vec::from_slice(alloc, &[1, 2]).expect(rt, "no memory"),
        machine: free_machine::<F>(alloc, 3).expect(rt, "no memory"),
    };
    report_rows::<F>(alloc, 3, &finished).expect(rt, "no memory")
}

// Returns the rows of a dispatcher with two lanes. Its workers ran two jobs, and one ran at its
// end.
fn rows(rt: &(impl AllocGlobal + Abort)) -> Vec<ReportRow> {
    let by_worker = by_worker(rt, &[&[(1, 0, &[5, 6]), (0, 0, &[2, 9, 4])]]);
    let rest = replies_to(rt, GREATEST, &[(1, 1, &[8, 1])]);
    rows_of::<LockedFloor>(rt, by_worker, rest)
}

// Expects that the rows are these.
fn expect_rows(rt: &(impl AllocGlobal + Abort), wanted: &[ReportRow]) {
    expect_true(rt, rows(rt).as_slice() == wanted);
}

// The rows of three jobs in two lanes.
static ROWS: [ReportRow; 11] = [
    ReportRow::Lane {
        lane: 0,
        jobs: 1,
        processors: 4,
        idle: 1,
    },
    ReportRow::Lane {
        lane: 1,
        jobs: 2,
        processors: 4,
        idle: 0,
    },
    ReportRow::Dim {
        dim: 0,
        jobs: 0,
        processors: 0,
        idle: 0,
    },
    ReportRow::Dim {
        dim: 1,
        jobs: 2,
        processors: 4,
        idle: 0,
    },
    ReportRow::Dim {
        dim: 2,
        jobs: 1,
        processors: 4,
        idle: 1,
    },
    ReportRow::Dim {
        dim: 3,
        jobs: 0,
        processors: 0,
        idle: 0,
    },
    ReportRow::Free {
        dim: 0,
        regions: 8,
        processors: 8,
    },
    ReportRow::Free {
        dim: 1,
        regions: 4,
        processors: 8,
    },
    ReportRow::Free {
        dim: 2,
        regions: 2,
        processors: 8,
    },
    ReportRow::Free {
        dim: 3,
        regions: 1,
        processors: 8,
    },
    ReportRow::Total {
        jobs: 3,
        processors: 8,
        idle: 1,
    },
];

#[test]
fn rows_of_two_lanes(rt: HostRuntime) {
    expect_rows(&rt, &ROWS);
}
