// Listing the refused records of a file.
ghost use Rattle.std.specs.Prelude.{◌≡◌, ◌⊎◌, ◌∷◌, [], ◌+◌, ◌++◌, ◌≤◌, ℕ, List, None, Option, Ok, IfErr, IfOk, IfSome, OnOk, false, length, map, take, true};
ghost use Rattle.csv.specs.Reading.{default_config, records, strip_bom};
ghost use Rattle.std.specs.Io.KnownBytes.{Appends};
ghost use Rattle.csv.specs.Records.{fields_of};
ghost use Rattle.jobs_csv.specs.BadFields.{bad_command_field, bad_job_column, bad_job_field, bad_line_field, bad_of_three};
ghost use Rattle.jobs_csv.specs.Fault.{attribute};
ghost use Rattle.jobs_csv.specs.Files.{Record, numbered_row};
ghost use Rattle.jobs_csv.specs.Inner.Input.{AreAll, HasGiven, IsPlain};
ghost use Rattle.jobs_csv.specs.Inner.Refused.{rows_in};
ghost use Rattle.jobs_csv.specs.Refusals.{AreRefusals, ListsCommands, ListsJobs, ListsLines, ListsRefusals, refusal_in, refusal_lines, refusals_from, refusals_text, refused_by};
ghost use Rattle.jobs_csv.specs.declared.bad_field.Column.TheVariants as column;
ghost use Rattle.jobs_csv.specs.declared.bad_field.Column.{Column as TheColumn};
ghost use Rattle.jobs_csv.specs.declared.refusal_rows.RefusalRow.{RefusalRow as TheRow};

use crate::bad_field::{self, Column};
use crate::end_seen::{EndSeen, SeesEnd};
use crate::fault::{Fault, FaultKind, WriteError};
use crate::format::Format;
use crate::input::{self, MAX_RECORDS};
use crate::jobs::Jobs;
use crate::line_buffer::LineBuffer;
use crate::line_number::RecordEnd;
use crate::place::Commands;
use crate::refusal_rows::{RefusalRow, refusal_row};
use crate::schedule::Schedule;
use crate::{line_number, wanted};
use csv::{ByteRecord, Reader};
use cube_shape::MAX_DIM;
use devices::Device;
use std::alloc::{AllocError, Global};
use std::io::{Read, Write};

/// A format whose refused records are listed.
pub(crate) trait Checked: Format {
    // The column whose text is wrong in a header.
    ghost bad_column: { Record → Option TheColumn };

    // The field at fault in a record.
    ghost bad_field: { Record → Option TheColumn };

    /// Returns the column whose text is wrong in a header that is refused for a text.
    fn bad_column(&self, row: &ByteRecord) -> Option<Column>
        ensures { result ≡ bad_column (fields_of row.now) };

    /// Returns the field at fault in a record that is refused for a field.
    fn bad_field(&self, row: &ByteRecord) -> Option<Column>
        ensures { result ≡ bad_field (fields_of row.now) };

    /// Returns the text of the header.
    fn header_text(&self) -> &'static str;
}

impl Checked for Jobs {
    ghost bad_column = { bad_job_column };

    ghost bad_field = { bad_job_field };

    fn bad_column(&self, row: &ByteRecord) -> Option<Column> {
        bad_field::bad_job_column(row)
    }

    fn bad_field(&self, row: &ByteRecord) -> Option<Column> {
        bad_field::bad_job_field(row)
    }

    fn header_text(&self) -> &'static str {
        "5 fields: lane,kind,op,root,items"
    }
}

impl Checked for Commands {
    ghost bad_column = { bad_of_three column.Command column.Name column.Dim };

    ghost bad_field = { bad_command_field };

    fn bad_column(&self, row: &ByteRecord) -> Option<Column> {
        bad_field::bad_of_three(row, Column::Command, Column::Name, Column::Dim)
    }

    fn bad_field(&self, row: &ByteRecord) -> Option<Column> {
        bad_field::bad_command_field(row)
    }

    fn header_text(&self) -> &'static str {
        "3 fields: command,name,dim"
    }
}

impl Checked for Schedule {
    ghost bad_column = { bad_of_three column.Station column.Call column.Arg };

    ghost bad_field = { bad_line_field };

    fn bad_column(&self, row: &ByteRecord) -> Option<Column> {
        bad_field::bad_of_three(row, Column::Station, Column::Call, Column::Arg)
    }

    fn bad_field(&self, row: &ByteRecord) -> Option<Column> {
        bad_field::bad_line_field(row)
    }

    fn header_text(&self) -> &'static str {
        "3 fields: station,call,arg"
    }
}

// Why a file is not listed to its end.
#[derive(Clone, Copy, Debug, PartialEq, Eq)]
pub(crate) enum CheckError {
    // A read failed, or memory ran out.
    Input,
    // A write failed, or memory ran out.
    Output,
}

impl From<AllocError> for CheckError {
    fn from(_error: AllocError) -> CheckError {
        CheckError::Output
    }
}

impl From<WriteError> for CheckError {
    fn from(_error: WriteError) -> CheckError {
        CheckError::Output
    }
}

// Reads the next record. If that fails, writes out the lines of the refusals so far.
fn next_or_finish<R: Read, W: Write>(
    reader: &mut Reader<R>,
    record: &mut ByteRecord,
    lines: LineBuffer,
    writer: &mut W,
) -> Result<(bool, LineBuffer), CheckError>
    requires { IsPlain reader.old }
    ensures plain { OnOk result (IsPlain reader.new) }
    ensures more { IfOk result (λ next. next.0 ≡ true
        → (bytes : Option (List ℕ)) (rows : List Record)
        → HasGiven R.remaining bytes rows reader.old
        → HasGiven R.remaining bytes (rows ++ fields_of «record».new ∷ []) reader.new) }
    ensures end { IfOk result (λ next. next.0 ≡ false
        → (bytes : Option (List ℕ)) (rows : List Record)
        → HasGiven R.remaining bytes rows reader.old → AreAll bytes rows) }
    ensures lines { IfOk result (λ next. next.1 ≡ lines) }
    ensures unwritten { OnOk result (writer.new ≡ writer.old) }
{
    if let Ok(found) = input::next_record(reader, record) {
        return Ok((found, lines));
    }
    lines.finish(writer)?;
    Err(CheckError::Input)
}

// Returns the end of the record that was read last. `feeds` says whether line feeds end the lines.
pub(crate) fn end_of_record<R: Read + SeesEnd>(reader: &Reader<R>, feeds: bool) -> RecordEnd {
    RecordEnd {
        line: reader.position().line(),
        is_feed: feeds && !reader.get_ref().has_ended(),
    }
}

// Returns the row of a record, which has this end, if it is refused.
pub(crate) fn refusal_at<F: Checked>(
    alloc: Global,
    format: &F,
    number: u64,
    record: &ByteRecord,
    end: RecordEnd,
) -> Result<Option<RefusalRow>, AllocError>
    ensures { IfOk result (λ found. refused_by (fields_of «record».now)
        (F.bad_field (fields_of «record».now))
        (numbered_row (F.row_of format.now) number (fields_of «record».now))
        ≡ map refusal_in (rows_in found)) }
{
    let what = if number > MAX_RECORDS {
        FaultKind::TooMany
    } else {
        match format.row(alloc, record) {
            Ok(_row) => return Ok(None),
            Err(FaultKind::OutOfMemory) => return Err(AllocError),
            Err(what) => what,
        }
    };
    let column = format.bad_field(record);
    let wanted = wanted::of_record(what, column, format.header_text());
    let line = line_number::begins_on(record, end);
    let fault = Fault { row: number, what };
    let row = refusal_row(alloc, record, line, fault, column, wanted)?;
    Ok(Some(row))
}

// Buffers the line of a refusal, and writes the buffer out if it is full.
fn push_row<W: Write>(
    alloc: Global,
    lines: LineBuffer,
    row: &RefusalRow,
    writer: &mut W,
) -> Result<LineBuffer, WriteError>
    ensures { IfOk result (λ more. (out : List ℕ)
        × Appends (W.contents writer.old) (W.contents writer.new) out
        × (out ++ more ≡ lines ++ refusal_lines (row.now ∷ []))) }
{
    let fields = row.fields(alloc)?;
    let lines = lines.push_record(fields.as_byte_record())?;
    lines.flush_if_full(writer)
}

// Buffers the line of a refusal, if there is one, as `push_row` does. Returns the number of lines.
fn push_found<W: Write>(
    alloc: Global,
    lines: LineBuffer,
    found: Option<RefusalRow>,
    writer: &mut W,
) -> Result<(LineBuffer, u64), WriteError>
    ensures pushed { IfOk result (λ pushed. (out : List ℕ)
        × Appends (W.contents writer.old) (W.contents writer.new) out
        × (out ++ pushed.0 ≡ lines ++ refusal_lines (rows_in found))
        × (length (rows_in found) ≡ pushed.1)) }
    ensures one { IfOk result (λ pushed. pushed.1 ≤ 1) }
{
    match found {
        Some(row) => {
            let more = push_row(alloc, lines, &row, writer)?;
            Ok((more, 1))
        }
        None => Ok((lines, 0)),
    }
}

// Lists the refusals of the records after a good header, after the lines that are buffered. Returns
// how many there are.
fn list_rows<F: Checked, R: Read + SeesEnd, W: Write>(
    alloc: Global,
    format: &F,
    reader: &mut Reader<R>,
    record: &mut ByteRecord,
    lines: LineBuffer,
    writer: &mut W,
) -> Result<u64, CheckError>
    requires { IsPlain reader.old }
    ensures { IfOk result (λ count. (rows : List TheRow) × (length rows ≡ count)
        × Appends (W.contents writer.old) (W.contents writer.new)
        (lines ++ refusal_lines rows)
        × ((text : Option (List ℕ)) (header : Record)
        → HasGiven R.remaining text (header ∷ []) reader.old
        → IfSome text (λ bytes. (front : List Record)
        × (records default_config (strip_bom bytes) ≡ header ∷ front)
        × (map refusal_in rows ≡ refusals_from (F.row_of format.now) F.bad_field 1
        (take (MAX_RECORDS + 1) front))))) }
{
    let feeds = line_number::ends_with_feed(record, reader.position().line());
    let mut lines = lines;
    let mut count = 0;
    for number in 1..MAX_RECORDS + 2 {
        let (found, rest) = next_or_finish(reader, record, lines, writer)?;
        lines = rest;
        if !found {
            lines.finish(writer)?;
            return Ok(count);
        }
        let end = end_of_record(reader, feeds);
        let refusal = refusal_at(alloc, format, number, record, end)?;
        let (more, refused) = push_found(alloc, lines, refusal, writer)?;
        lines = more;
        count += refused;
    }
    lines.finish(writer)?;
    Ok(count)
}

// Returns the row of the header, if it is refused or there is none. Otherwise the record is the
// header, which is good.
pub(crate) fn header_refusal<F: Checked, R: Read>(
    alloc: Global,
    format: &F,
    reader: &mut Reader<R>,
    record: &mut ByteRecord,
) -> Result<Option<RefusalRow>, CheckError>
    requires { IsPlain reader.old }
    ensures plain { OnOk result (IsPlain reader.new) }
    ensures good { IfOk result (λ found. found ≡ None
        → (F.header_of (fields_of «record».new) ≡ Ok tt)
        × ((text : Option (List ℕ)) → HasGiven R.remaining text [] reader.old
        → HasGiven R.remaining text (fields_of «record».new ∷ []) reader.new)) }
    ensures refused { IfOk result (λ found. IfSome found (λ row. (text : Option (List ℕ))
        → HasGiven R.remaining text [] reader.old → IfSome text (λ bytes.
        AreRefusals F.header_of F.bad_column (F.row_of format.now) F.bad_field bytes
        (row ∷ [])))) }
{
    let Ok(found) = input::next_record(reader, record) else {
        return Err(CheckError::Input);
    };
    if !found {
        let what = FaultKind::Fields;
        let fault = Fault { row: 0, what };
        record.clear();
        let row = refusal_row(alloc, record, 1, fault, None, format.header_text())?;
        return Ok(Some(row));
    }
    let Err(what) = format.header(record) else {
        return Ok(None);
    };
    if !what.is_refusal() {
        return Err(CheckError::Input);
    }
    let wanted = wanted::of_header(record, format.header_text());
    let fault = Fault { row: 0, what };
    let line = reader.position().line();
    let is_feed = line_number::ends_with_feed(record, line);
    let line = line_number::begins_on(record, RecordEnd { line, is_feed });
    let row = refusal_row(
        alloc,
        record,
        line,
        fault,
        format.bad_column(record),
        wanted,
    )?;
    Ok(Some(row))
}

// Lists the refusals of a file, and returns how many there are.
fn list_file<F: Checked, R: Read + SeesEnd + Drop, W: Write>(
    alloc: Global,
    format: &F,
    text: R,
    writer: &mut W,
) -> Result<u64, CheckError>
    ensures { IfOk result (λ count. IfSome (R.remaining text) (λ bytes.
        (rows : List TheRow)
        × AreRefusals F.header_of F.bad_column (F.row_of format.now) F.bad_field bytes rows
        × (length rows ≡ count)
        × Appends (W.contents writer.old) (W.contents writer.new) (refusals_text rows))) }
{
    let mut reader = input::open_reader(alloc, text);
    let mut record = ByteRecord::new(alloc);
    let columns = RefusalRow::columns(alloc)?;
    let lines = LineBuffer::new(alloc)?.push_record(columns.as_byte_record())?;
    match header_refusal(alloc, format, &mut reader, &mut record)? {
        Some(row) => {
            let lines = push_row(alloc, lines, &row, writer)?;
            lines.finish(writer)?;
            Ok(1)
        }
        None => list_rows(alloc, format, &mut reader, &mut record, lines, writer),
    }
}

// Lists the refusals of a file from a borrowed reader.
fn check_file<F: Checked, R: Read + Device, W: Write + Device>(
    alloc: Global,
    format: &F,
    reader: &mut R,
    writer: &mut W,
) -> Result<u64, Fault>
    ensures listed { ListsRefusals F.header_of F.bad_column (F.row_of format.now) F.bad_field
        (R.remaining reader.old) (W.contents writer.old) (W.contents writer.new) result }
    ensures failed { IfErr result (λ fault.
        (fault ≡ attribute FaultKind.Read (R.failures reader.old) (R.failures reader.new))
        ⊎ (fault ≡ attribute FaultKind.Write (W.failures writer.old) (W.failures writer.new))) }
{
    let (reads, writes) = (reader.failures(), writer.failures());
    match list_file(alloc, format, EndSeen::new(&mut *reader), writer) {
        Ok(count) => Ok(count),
        Err(CheckError::Input) => Err(Fault::attribute(FaultKind::Read, reads, reader.failures())),
        Err(CheckError::Output) => Err(Fault::attribute(
            FaultKind::Write,
            writes,
            writer.failures(),
        )),
    }
}

/// Lists the refused records of a file of jobs, for a machine of dimension `n`. Writes a row for
/// each, and returns how many there are.
///
/// A record is refused if and only if `read_jobs` would refuse it, if it were the first one. Its
/// row has the fault that `read_jobs` would return. The field at fault is the first that is not
/// what its column asks for.
///
/// # Errors
///
/// The fault is `Read` or `Write` only if that device's count of failed calls rose in this call, or
/// was `u64::MAX` before it. Any other failure is `OutOfMemory`. The first rows may have been
/// written.
pub fn check_jobs<R: Read + Device, W: Write + Device>(
    alloc: Global,
    n: u32,
    reader: &mut R,
    writer: &mut W,
) -> Result<u64, Fault>
    requires { n ≤ MAX_DIM }
    ensures listed { ListsJobs n (R.remaining reader.old)
        (W.contents writer.old) (W.contents writer.new) result }
    ensures failed { IfErr result (λ fault.
        (fault ≡ attribute FaultKind.Read (R.failures reader.old) (R.failures reader.new))
        ⊎ (fault ≡ attribute FaultKind.Write (W.failures writer.old) (W.failures writer.new))) }
{
    check_file(alloc, &Jobs { n }, reader, writer)
}

/// Lists the refused records of a file of commands, as `check_jobs` does for jobs.
pub fn check_place<R: Read + Device, W: Write + Device>(
    alloc: Global,
    n: u32,
    reader: &mut R,
    writer: &mut W,
) -> Result<u64, Fault>
    ensures listed { ListsCommands n (R.remaining reader.old)
        (W.contents writer.old) (W.contents writer.new) result }
    ensures failed { IfErr result (λ fault.
        (fault ≡ attribute FaultKind.Read (R.failures reader.old) (R.failures reader.new))
        ⊎ (fault ≡ attribute FaultKind.Write (W.failures writer.old) (W.failures writer.new))) }
{
    check_file(alloc, &Commands { n }, reader, writer)
}

/// Lists the refused lines of a schedule, as `check_jobs` does for jobs.
pub fn check_schedule<R: Read + Device, W: Write + Device>(
    alloc: Global,
    reader: &mut R,
    writer: &mut W,
) -> Result<u64, Fault>
    ensures listed { ListsLines (R.remaining reader.old)
        (W.contents writer.old) (W.contents writer.new) result }
    ensures failed { IfErr result (λ fault.
        (fault ≡ attribute FaultKind.Read (R.failures reader.old) (R.failures reader.new))
        ⊎ (fault ≡ attribute FaultKind.Write (W.failures writer.old) (W.failures writer.new))) }
{
    check_file(alloc, &Schedule, reader, writer)
}
