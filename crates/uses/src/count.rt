//! A caller of `jobs_csv`.

ghost use Rattle.std.specs.Prelude.{◌≡◌, ◌≤◌, IfErr, IfOk, List, Ok, length, true};
ghost use Rattle.job_types.specs.Job.{JobData};
ghost use Rattle.jobs_csv.specs.Fault.{is_refusal};
ghost use Rattle.jobs_csv.specs.Jobs.{parse_jobs};

use cube_shape::MAX_DIM;
use jobs_csv::{Counted, Fault, read_jobs};
use std::alloc::Global;

/// Returns how many jobs a file has, for a machine of dimension `n`, or the first fault of the
/// file.
pub fn count_jobs(alloc: Global, n: u32, file: &[u8]) -> Result<usize, Fault>
    requires { n ≤ MAX_DIM }
    ensures counted { IfOk result (λ count.
        (jobs : List JobData) × (parse_jobs n file.now ≡ Ok jobs) × (count ≡ length jobs)) }
    ensures refused { IfErr result (λ fault.
        is_refusal fault.what ≡ true → parse_jobs n file.now ≡ Err fault) }
{
    let mut reader = Counted::new(file);
    let jobs = read_jobs(alloc, n, &mut reader)?;
    Ok(jobs.len())
}
