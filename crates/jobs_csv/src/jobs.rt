// Reading a file of jobs.
ghost use Rattle.std.specs.Prelude.{◌≡◌, ◌≢◌, ◌<◌, ◌≤◌, ◌-◌, ◌^◌, [], ◌∷◌, List, length, min, All, IfOk, IfErr, IfSome, IfNone};
ghost use Rattle.std.specs.Cmp.Lexicographic.{pointwise};
ghost use Rattle.std.specs.Str.{bytes_eq};
ghost use Rattle.csv.specs.Records.{fields_of};
ghost use Rattle.job_types.specs.Job.{JobData};
ghost use Rattle.cube_shape.specs.declared.limits.TheConstants.{MAX_DIM};
ghost use Rattle.jobs_csv.specs.Columns.{header_of};
ghost use Rattle.jobs_csv.specs.Fault.{IsInputFault};
ghost use Rattle.jobs_csv.specs.Jobs.{accept_job, job_of, parse_jobs};
ghost use Rattle.jobs_csv.specs.Lanes.{AreLanes, ReturnsLanes};
ghost use Rattle.jobs_csv.specs.Inner.Columns.{job_columns};
ghost use Rattle.jobs_csv.specs.Inner.Parse.{ReturnsParse};
ghost use Rattle.jobs_csv.specs.Outcome.{ReturnsFile, ReturnsRows};

use crate::fault::{Fault, FaultKind};
use crate::format::{self, Format};
use crate::lanes::Lanes;
use crate::observer::{Observed, Observer, RecordCount};
use crate::{columns, job_fields};
use csv::ByteRecord;
use cube_shape::{MAX_DIM, MAX_LANES};
use devices::Device;
use job_types::{Job, JobRefused, Kind};
use std::alloc::Global;
use std::collections::VecDeque;
use std::io::Read;

// The format of jobs, for a machine of this dimension.
#[derive(Clone, Copy)]
pub(crate) struct Jobs {
    pub n: u32,
    ghost limit: { n ≤ MAX_DIM },
}

// The number of fields of a job's record.
const COLUMNS: usize = 5;

// Returns whether the five fields of a record are those of the header.
#[tactic(auto, using(crate::proofs::JobLemmas::five))]
fn are_job_columns(row: &ByteRecord) -> bool
    requires { length (fields_of row.now) ≡ 5 }
    ensures { result ≡ pointwise bytes_eq (fields_of row.now) job_columns }
{
    let lane = columns::field(row, 0);
    let kind = columns::field(row, 1);
    let op = columns::field(row, 2);
    let root = columns::field(row, 3);
    let items = columns::field(row, 4);
    lane == b"lane".as_slice()
        && kind == b"kind".as_slice()
        && op == b"op".as_slice()
        && root == b"root".as_slice()
        && items == b"items".as_slice()
}

// Reads the job of a record of five fields, from left to right. The first bad field is the error.
#[tactic(auto, using(crate::proofs::JobLemmas::five), unfolding(crate::specs::Jobs::job_of))]
fn read_fields(alloc: Global, n: u32, row: &ByteRecord) -> Result<Job, FaultKind>
    requires five { length (fields_of row.now) ≡ 5 }
    requires limit { n ≤ MAX_DIM }
    ensures machine { IfOk result (λ job. job.machine ≡ n) }
    ensures parse { ReturnsParse (λ job. job) (job_of n (fields_of row.now)) result }
{
    let lane = columns::field(row, 0);
    let kind = columns::field(row, 1);
    let op = columns::field(row, 2);
    let root = columns::field(row, 3);
    let items = columns::field(row, 4);
    let lane = job_fields::lane(lane)?;
    let kind = job_fields::read_collective(kind, op, root)?;
    let items = job_fields::items(alloc, items)?;
    let has_superfluous = job_fields::has_superfluous_root(kind, root);
    accept(alloc, n, lane, kind, items, has_superfluous)
}

// Makes the job, unless a rule refuses it. The rules of every job are first. The last one is that a
// collective with no root has root 0.
#[tactic(auto, unfolding(crate::specs::Jobs::accept_job))]
fn accept(
    alloc: Global,
    n: u32,
    lane: u32,
    kind: Kind,
    items: Vec<u64>,
    has_superfluous: bool,
) -> Result<Job, FaultKind>
    requires machine { n ≤ MAX_DIM }
    requires lane { lane < MAX_LANES }
    ensures machine { IfOk result (λ job. job.machine ≡ n) }
    ensures parse { ReturnsParse (λ job. job) (accept_job
        (record { machine = n; lane = lane; kind = kind; items = items.items })
        has_superfluous) result }
{
    match Job::new(alloc, n, lane, kind, items) {
        Ok(job) => {
            if has_superfluous {
                return Err(FaultKind::Job(JobRefused::BadRoot));
            }
            Ok(job)
        }
        Err((_, JobRefused::OutOfMemory)) => {
            if has_superfluous {
                return Err(FaultKind::Job(JobRefused::BadRoot));
            }
            return Err(FaultKind::OutOfMemory);
        }
        Err((_, refused)) => return Err(FaultKind::Job(refused)),
    }
}

impl Format for Jobs {
    type Row = Job;

    ghost header_of = { header_of job_columns };

    ghost row_of = { λ jobs. job_of jobs.n };

    ghost is_row = { λ jobs job. job.machine ≡ jobs.n };

    #[tactic(auto, using(crate::proofs::ColumnLemmas::no_header, crate::proofs::ColumnLemmas::header_by_texts))]
    fn header(&self, row: &ByteRecord) -> Result<(), FaultKind> {
        if row.len() != COLUMNS {
            return Err(FaultKind::Fields);
        }
        if are_job_columns(row) {
            Ok(())
        } else {
            Err(FaultKind::Word)
        }
    }

    #[tactic(auto, using(crate::proofs::JobLemmas::no_job))]
    fn row(&self, alloc: Global, row: &ByteRecord) -> Result<Job, FaultKind> {
        if row.len() != COLUMNS {
            return Err(FaultKind::Fields);
        }
        read_fields(alloc, self.n, row)
    }
}

/// Reads the jobs of a whole file, for a machine of dimension `n`.
///
/// Reads at most `MAX_RECORDS + 1` records after the header.
///
/// # Errors
///
/// A refusal is the first fault of the file. Returns `Read` only if the reader's count of failed
/// calls rose in this call, or was `u64::MAX` before it. Any other failure is `OutOfMemory`.
pub fn read_jobs<R: Read + Device>(alloc: Global, n: u32, reader: &mut R) -> Result<Vec<Job>, Fault>
    requires { n ≤ MAX_DIM }
    ensures parse { IfSome (R.remaining reader.old) (λ bytes.
        ReturnsFile (parse_jobs n bytes) result) }
    ensures machine { IfOk result (λ jobs. All (λ job. job.machine ≡ n) jobs.items) }
    ensures failed { IfErr result (IsInputFault (R.failures reader.old) (R.failures reader.new)) }
{
    format::read_list(alloc, &Jobs { n }, reader)
}

/// Reads the jobs of a whole file, as `read_jobs` does, into a queue for each lane. The jobs of a
/// lane are in the order of the file.
pub fn read_lanes<R: Read + Device>(
    alloc: Global,
    n: u32,
    reader: &mut R,
) -> Result<Vec<VecDeque<Job>>, Fault>
    requires { n ≤ MAX_DIM }
    ensures parse { IfSome (R.remaining reader.old) (λ bytes.
        ReturnsLanes (parse_jobs n bytes) result) }
    ensures lanes { IfOk result (λ lanes. (jobs : List JobData) × AreLanes lanes.items jobs
        × All (λ job. job.machine ≡ n) jobs) }
    ensures failed { IfErr result (IsInputFault (R.failures reader.old) (R.failures reader.new)) }
{
    let (lanes, _count) = read_lanes_with(alloc, n, RecordCount::new(), reader)?;
    Ok(lanes)
}

/// Reads the jobs of a whole file, as `read_lanes` does. The observer, which has seen no record
/// yet, sees each record that becomes a job. Returns the observer with the lanes.
pub fn read_lanes_with<O: Observer, R: Read + Device>(
    alloc: Global,
    n: u32,
    observer: O,
    reader: &mut R,
) -> Result<(Vec<VecDeque<Job>>, O), Fault>
    requires limit { n ≤ MAX_DIM }
    requires fresh { O.seen observer ≡ 0 }
    ensures parse { IfSome (R.remaining reader.old) (λ bytes.
        ReturnsRows (λ read jobs. AreLanes read.0.items jobs) (parse_jobs n bytes) result) }
    ensures lanes { IfOk result (λ read. (jobs : List JobData) × AreLanes read.0.items jobs
        × All (λ job. job.machine ≡ n) jobs
        × (O.seen read.1 ≡ min (length jobs) (2 ^ 64 - 1))) }
    ensures failed { IfErr result (IsInputFault (R.failures reader.old) (R.failures reader.new)) }
{
    let failures = reader.failures();
    let Ok(lanes) = Lanes::new(alloc) else {
        return Err(Fault::attribute(FaultKind::Read, failures, failures));
    };
    let rows = Observed {
        rows: lanes,
        observer,
    };
    let Observed { rows, observer } = format::read_file(alloc, &Jobs { n }, rows, reader)?;
    Ok((rows.jobs, observer))
}
