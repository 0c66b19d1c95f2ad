//! Jobs, and lists of them for each lane of a queue.
ghost use Rattle.std.specs.Prelude.{◌≡◌, ℕ, ◌<◌, ◌≤◌, [], IfOk, map, length, slice_index_or};
ghost use Rattle.std.specs.List.{All};
ghost use Rattle.job_queue.specs.Line.{IsFor};

use cube_shape::{MAX_DIM, MAX_LANES};
use job_types::{Job, JobRefused, Kind, Op};
use std::alloc::{AllocError, Global};
use std::collections::VecDeque;

/// The collective of most jobs: an all-reduce that adds.
pub const SUM: Kind = Kind::AllReduce { op: Op::Add };

/// Makes a job of this kind on these numbers.
pub fn job(
    alloc: Global,
    machine: u32,
    lane: u32,
    kind: Kind,
    numbers: &[u64],
) -> Result<Job, JobRefused>
    requires machine { machine ≤ MAX_DIM }
    requires lane { lane < MAX_LANES }
    ensures { IfOk result (IsFor machine lane) }
{
    let Ok(items) = Vec::from_slice(alloc, numbers) else {
        return Err(JobRefused::OutOfMemory);
    };
    match Job::new(alloc, machine, lane, kind, items) {
        Ok(job) => Ok(job),
        Err((_, refused)) => Err(refused),
    }
}

// Adds one more job of its lane to a list.
fn add(
    alloc: Global,
    jobs: &mut VecDeque<Job>,
    machine: u32,
    lane: u32,
    kind: Kind,
    numbers: &[u64],
) -> Result<(), JobRefused>
    requires machine { machine ≤ MAX_DIM }
    requires lane { lane < MAX_LANES }
    requires made_for { All (IsFor machine lane) jobs.old.items }
    ensures { IfOk result (λ done. All (IsFor machine lane) jobs.new.items) }
{
    let made = job(alloc, machine, lane, kind, numbers)?;
    let Ok(()) = jobs.push_back(made) else {
        return Err(JobRefused::OutOfMemory);
    };
    Ok(())
}

/// The collective of a job, and its numbers.
pub type Row<'a> = (Kind, &'a [u64]);

/// Returns the jobs of a lane, row by row.
pub fn listed(
    alloc: Global,
    machine: u32,
    lane: u32,
    rows: &[Row],
) -> Result<VecDeque<Job>, JobRefused>
    requires machine { machine ≤ MAX_DIM }
    requires lane { lane < MAX_LANES }
    ensures { IfOk result (λ jobs. All (IsFor machine lane) jobs.items) }
{
    let mut jobs = VecDeque::new(alloc);
    for (kind, numbers) in rows {
        add(alloc, &mut jobs, machine, lane, *kind, numbers)?;
    }
    Ok(jobs)
}

/// The jobs of each lane.
#[derive(Clone, Copy)]
pub enum Plan {
    /// Jobs of several kinds, on three lanes.
    Kinds,
    /// This number of sums of 1 and 2.
    Same(u32),
    /// This number of sums: of the lane's number and 0, of it and 1, and so on.
    Sums(u32),
    /// This number of sums on one lane, and one on each other.
    OneHas {
        /// The lane.
        lane: u32,
        /// The number of its jobs.
        count: u32,
    },
    /// This number of sums, of 1, 2, 4, 8 or 16 numbers in turn. The first lane begins with 1
    /// number, the next one with 2, and so on.
    Sizes(u32),
}

// Returns the jobs of several kinds of a lane.
fn kinds(alloc: Global, machine: u32, lane: u32) -> Result<VecDeque<Job>, JobRefused>
    requires machine { machine ≤ MAX_DIM }
    requires lane { lane < MAX_LANES }
    ensures { IfOk result (λ jobs. All (IsFor machine lane) jobs.items) }
{
    let max = Kind::Scan { op: Op::Max };
    let xor = Kind::AllReduce { op: Op::Xor };
    let or = Kind::Reduce {
        op: Op::Or,
        root: 1,
    };
    match lane {
        0 => listed(alloc, machine, lane, &[(max, &[2, 9, 4, 7])]),
        1 => listed(alloc, machine, lane, &[(xor, &[5, 6]), (or, &[8, 1])]),
        _ => listed(alloc, machine, lane, &[(SUM, &[1, 2])]),
    }
}

// Returns how many sums a lane has.
fn count_of(plan: Plan, lane: u32) -> u32 {
    match plan {
        Plan::Kinds => 0,
        Plan::OneHas { lane: one, count } => { if lane == one { count } else { 1 } }
        Plan::Same(count) | Plan::Sums(count) | Plan::Sizes(count) => count,
    }
}

// Returns the numbers 1, 2 and so on: `2^dim` of them.
fn first_numbers(alloc: Global, dim: u32) -> Result<Vec<u64>, AllocError>
    requires { dim ≤ MAX_DIM }
{
    let mut numbers = Vec::new(alloc);
    for number in 0..1u64 << dim {
        numbers.push(number + 1)?;
    }
    Ok(numbers)
}

// Returns the numbers of one of a lane's sums.
fn numbers_of(alloc: Global, plan: Plan, lane: u32, seq: u32) -> Result<Vec<u64>, AllocError>
    requires { lane < MAX_LANES }
{
    match plan {
        Plan::Sums(_) => Vec::from_slice(alloc, &[u64::from(lane), u64::from(seq)]),
        Plan::Sizes(_) => first_numbers(alloc, (lane + seq % 5) % 5),
        Plan::Kinds | Plan::Same(_) | Plan::OneHas { .. } => Vec::from_slice(alloc, &[1, 2]),
    }
}

// Returns the sums of a lane.
fn sums(alloc: Global, machine: u32, lane: u32, plan: Plan) -> Result<VecDeque<Job>, JobRefused>
    requires machine { machine ≤ MAX_DIM }
    requires lane { lane < MAX_LANES }
    ensures { IfOk result (λ jobs. All (IsFor machine lane) jobs.items) }
{
    let mut jobs = VecDeque::new(alloc);
    for seq in 0..count_of(plan, lane) {
        let Ok(numbers) = numbers_of(alloc, plan, lane, seq) else {
            return Err(JobRefused::OutOfMemory);
        };
        add(alloc, &mut jobs, machine, lane, SUM, &numbers)?;
    }
    Ok(jobs)
}

/// Returns the jobs of a lane.
pub fn jobs(alloc: Global, machine: u32, lane: u32, plan: Plan) -> Result<VecDeque<Job>, JobRefused>
    requires machine { machine ≤ MAX_DIM }
    requires lane { lane < MAX_LANES }
    ensures { IfOk result (λ jobs. All (IsFor machine lane) jobs.items) }
{
    match plan {
        Plan::Kinds => kinds(alloc, machine, lane),
        _ => sums(alloc, machine, lane, plan),
    }
}

/// Returns the jobs of all lanes.
pub fn lists(
    alloc: Global,
    machine: u32,
    lanes: u32,
    plan: Plan,
) -> Result<Vec<VecDeque<Job>>, JobRefused>
    requires machine { machine ≤ MAX_DIM }
    requires lanes { lanes ≤ MAX_LANES }
    ensures length { IfOk result (λ lists. length lists.items ≡ lanes) }
    ensures made_for { IfOk result (λ lists. (k : ℕ) → k < length lists.items →
        All (IsFor machine k) (slice_index_or (map (λ js. js.items) lists.items) k [])) }
{
    let mut lists = Vec::new(alloc);
    for lane in 0..lanes {
        let list = jobs(alloc, machine, lane, plan)?;
        let Ok(()) = lists.push(list) else {
            return Err(JobRefused::OutOfMemory);
        };
    }
    Ok(lists)
}
