// Finding the first refused record of a file.
ghost use Rattle.std.specs.Prelude.{◌≡◌, ◌∷◌, [], ◌+◌, ◌≤◌, ℕ, List, Option, IfErr, IfOk, IfSome, option_map, slice_get, take};
ghost use Rattle.csv.specs.Reading.{default_config, records, strip_bom};
ghost use Rattle.jobs_csv.specs.Fault.{attribute};
ghost use Rattle.jobs_csv.specs.Files.{Record};
ghost use Rattle.jobs_csv.specs.Inner.Input.{HasGiven, IsPlain};
ghost use Rattle.jobs_csv.specs.Refusals.{FindsCommand, FindsJob, FindsLine, FindsRefusal, refusal_in, refusals_from, refusals_in};

use crate::check::{CheckError, Checked, end_of_record, header_refusal, refusal_at};
use crate::end_seen::{EndSeen, SeesEnd};
use crate::fault::{Fault, FaultKind};
use crate::input::{self, MAX_RECORDS};
use crate::jobs::Jobs;
use crate::line_number;
use crate::place::Commands;
use crate::refusal_rows::RefusalRow;
use crate::schedule::Schedule;
use csv::{ByteRecord, Reader};
use cube_shape::MAX_DIM;
use devices::Device;
use std::alloc::Global;
use std::io::Read;

// Returns the row of the first refused record after a good header, if there is one.
fn find_row<F: Checked, R: Read + SeesEnd>(
    alloc: Global,
    format: &F,
    reader: &mut Reader<R>,
    record: &mut ByteRecord,
) -> Result<Option<RefusalRow>, CheckError>
    requires { IsPlain reader.old }
    ensures { IfOk result (λ found. (text : Option (List ℕ)) (header : Record)
        → HasGiven R.remaining text (header ∷ []) reader.old
        → IfSome text (λ bytes. (front : List Record)
        × (records default_config (strip_bom bytes) ≡ header ∷ front)
        × (option_map refusal_in found ≡ slice_get (refusals_from (F.row_of format.now) F.bad_field
        1 (take (MAX_RECORDS + 1) front)) 0))) }
{
    let feeds = line_number::ends_with_feed(record, reader.position().line());
    for number in 1..MAX_RECORDS + 2 {
        let Ok(is_found) = input::next_record(reader, record) else {
            return Err(CheckError::Input);
        };
        if !is_found {
            return Ok(None);
        }
        let end = end_of_record(reader, feeds);
        let refusal = refusal_at(alloc, format, number, record, end)?;
        if let Some(row) = refusal {
            return Ok(Some(row));
        }
    }
    Ok(None)
}

// Returns the row of the first refused record of a text, if there is one.
fn find_in<F: Checked, R: Read + SeesEnd + Drop>(
    alloc: Global,
    format: &F,
    text: R,
) -> Result<Option<RefusalRow>, CheckError>
    ensures { IfOk result (λ found. IfSome (R.remaining text) (λ bytes.
        option_map refusal_in found ≡ slice_get (refusals_in F.header_of F.bad_column
        (F.row_of format.now) F.bad_field (records default_config (strip_bom bytes))) 0)) }
{
    let mut reader = input::open_reader(alloc, text);
    let mut record = ByteRecord::new(alloc);
    let refusal = header_refusal(alloc, format, &mut reader, &mut record)?;
    if let Some(row) = refusal {
        return Ok(Some(row));
    }
    find_row(alloc, format, &mut reader, &mut record)
}

// Returns the row of the first refused record, from a borrowed reader.
fn first_refused<F: Checked, R: Read + Device>(
    alloc: Global,
    format: &F,
    reader: &mut R,
) -> Result<Option<RefusalRow>, Fault>
    ensures found { FindsRefusal F.header_of F.bad_column (F.row_of format.now) F.bad_field
        (R.remaining reader.old) result }
    ensures failed { IfErr result (λ fault.
        fault ≡ attribute FaultKind.Read (R.failures reader.old) (R.failures reader.new)) }
{
    let failures_before = reader.failures();
    match find_in(alloc, format, EndSeen::new(&mut *reader)) {
        Ok(found) => Ok(found),
        Err(_) => {
            let failures = reader.failures();
            Err(Fault::attribute(FaultKind::Read, failures_before, failures))
        }
    }
}

/// Returns the row of the first refused record of a file of jobs, for a machine of dimension `n`.
/// Returns `None` if no record is refused.
///
/// The row is the first one that `check_jobs` lists. Its fault is the one that `read_jobs` returns.
///
/// # Errors
///
/// Returns `Read` exactly if the reader's count of failed calls rose in this call, or was
/// `u64::MAX` before it. Otherwise memory ran out.
pub fn first_refused_job<R: Read + Device>(
    alloc: Global,
    n: u32,
    reader: &mut R,
) -> Result<Option<RefusalRow>, Fault>
    requires { n ≤ MAX_DIM }
    ensures found { FindsJob n (R.remaining reader.old) result }
    ensures failed { IfErr result (λ fault.
        fault ≡ attribute FaultKind.Read (R.failures reader.old) (R.failures reader.new)) }
{
    first_refused(alloc, &Jobs { n }, reader)
}

/// Returns the row of the first refused command of a file, as `first_refused_job` does for jobs.
pub fn first_refused_command<R: Read + Device>(
    alloc: Global,
    n: u32,
    reader: &mut R,
) -> Result<Option<RefusalRow>, Fault>
    ensures found { FindsCommand n (R.remaining reader.old) result }
    ensures failed { IfErr result (λ fault.
        fault ≡ attribute FaultKind.Read (R.failures reader.old) (R.failures reader.new)) }
{
    first_refused(alloc, &Commands { n }, reader)
}

/// Returns the row of the first refused line of a schedule, as `first_refused_job` does for jobs.
pub fn first_refused_line<R: Read + Device>(
    alloc: Global,
    reader: &mut R,
) -> Result<Option<RefusalRow>, Fault>
    ensures found { FindsLine (R.remaining reader.old) result }
    ensures failed { IfErr result (λ fault.
        fault ≡ attribute FaultKind.Read (R.failures reader.old) (R.failures reader.new)) }
{
    first_refused(alloc, &Schedule, reader)
}
