// The rows of the values of replies, one for each place that holds a value.
ghost use Rattle.std.specs.Prelude.{◌≡◌, ◌++◌, ℕ, List, IfErr, IfOk, OnOk};
ghost use Rattle.std.specs.Io.KnownBytes.{Appends};
ghost use Rattle.jobs_csv.specs.Fault.{attribute};
ghost use Rattle.jobs_csv.specs.Inner.ValueRows.{value_in, value_lines};
ghost use Rattle.jobs_csv.specs.ValueRows.{values_of, values_text};

use crate::fault::{Fault, FaultKind, WriteError};
use crate::line_buffer::LineBuffer;
use crate::row::{Row, RowFields};
use devices::Device;
use job_types::{JobId, Reply};
use std::alloc::{AllocError, Global};
use std::io::Write;

/// The row of a value: what a place of a reply holds at the end.
#[derive(Clone, Copy, Debug, PartialEq, Eq)]
pub struct ValueRow {
    /// The id of the job.
    pub id: JobId,
    /// The number of the item, from 0 on, at whose place the value is.
    pub place: u64,
    /// The value.
    pub value: u64,
}

impl Row for ValueRow {
    ghost use Rattle.jobs_csv.specs.ValueRows.{value_columns, value_fields};

    ghost columns = { value_columns };

    ghost fields = { value_fields };

    #[tactic(auto, using(crate::proofs::PlainLemmas::plain_text))]
    fn push_columns(line: &mut RowFields) -> Result<(), AllocError> {
        line.push_text(b"lane".as_slice())?;
        line.push_text(b"seq".as_slice())?;
        line.push_text(b"place".as_slice())?;
        line.push_text(b"value".as_slice())
    }

    fn push_fields(&self, _alloc: Global, line: &mut RowFields) -> Result<(), AllocError> {
        line.push_number(u64::from(self.id.lane))?;
        line.push_number(self.id.seq)?;
        line.push_number(self.place)?;
        line.push_number(self.value)
    }
}

// Buffers the line of a value, if there is one, and writes the buffer out if it is full.
fn push_value<W: Write>(
    lines: LineBuffer,
    id: JobId,
    place: u64,
    value: Option<u64>,
    writer: &mut W,
) -> Result<LineBuffer, WriteError>
    ensures { IfOk result (λ more. (out : List ℕ)
        × Appends (W.contents writer.old) (W.contents writer.new) out
        × (out ++ more ≡ lines ++ value_lines (value_in id place value))) }
{
    match value {
        Some(value) => lines.write_row(&ValueRow { id, place, value }, writer),
        None => Ok(lines),
    }
}

// Buffers the lines of a reply, and writes the buffer out whenever it is full.
fn push_values<W: Write>(
    lines: LineBuffer,
    reply: &Reply,
    writer: &mut W,
) -> Result<LineBuffer, WriteError>
    ensures { IfOk result (λ more. (out : List ℕ)
        × Appends (W.contents writer.old) (W.contents writer.new) out
        × (out ++ more ≡ lines ++ value_lines (values_of reply.now))) }
{
    let id = reply.id();
    let places = reply.job().items().len() as u64;
    let mut lines = lines;
    for place in 0..places {
        lines = push_value(lines, id, place, reply.at(place), writer)?;
    }
    Ok(lines)
}

// Writes the lines of the values of these replies under their header.
fn write_all_values<W: Write>(
    alloc: Global,
    replies: &[Reply],
    writer: &mut W,
) -> Result<(), WriteError>
    ensures { OnOk result (Appends (W.contents writer.old) (W.contents writer.new)
        (values_text replies.now)) }
{
    let mut lines = LineBuffer::new(alloc)?.push_header::<ValueRow>()?;
    for reply in replies {
        lines = push_values(lines, reply, writer)?;
    }
    lines.finish(writer)
}

/// Writes a line for each value of these replies under their header.
///
/// A reply has a value for each item, in the order of the items. A reduction has one value alone,
/// at the place of the root. The lines are written in pieces of about 64 KiB.
///
/// # Errors
///
/// Returns `Write` exactly if the writer's count of failed calls rose in this call, or was
/// `u64::MAX` before it. Otherwise memory ran out. The first lines may have been written.
pub fn write_values<W: Write + Device>(
    alloc: Global,
    replies: &[Reply],
    writer: &mut W,
) -> Result<(), Fault>
    ensures written { OnOk result (Appends (W.contents writer.old) (W.contents writer.new)
        (values_text replies.now)) }
    ensures failed { IfErr result (λ fault.
        fault ≡ attribute FaultKind.Write (W.failures writer.old) (W.failures writer.new)) }
{
    let failures_before = writer.failures();
    match write_all_values(alloc, replies, writer) {
        Ok(()) => Ok(()),
        Err(WriteError) => Err(Fault::attribute(
            FaultKind::Write,
            failures_before,
            writer.failures(),
        )),
    }
}
