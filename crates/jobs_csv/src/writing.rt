// Writing the lines of a list of rows.
ghost use Rattle.std.specs.Prelude.{◌≡◌, IfErr, OnOk};
ghost use Rattle.std.specs.Io.KnownBytes.{Appends};
ghost use Rattle.jobs_csv.specs.Fault.{attribute};
ghost use Rattle.jobs_csv.specs.Text.{file_text};

use crate::fault::{Fault, FaultKind, WriteError};
use crate::line_buffer::LineBuffer;
use crate::row::Row;
use devices::Device;
use std::alloc::Global;
use std::io::Write;

// Writes the lines of these rows under their header.
fn write_all_rows<R: Row, W: Write>(
    alloc: Global,
    rows: &[R],
    writer: &mut W,
) -> Result<(), WriteError>
    ensures { OnOk result (Appends (W.contents writer.old) (W.contents writer.new)
        (file_text R.columns R.fields rows.now)) }
{
    let mut lines = LineBuffer::new(alloc)?.push_header::<R>()?;
    for row in rows {
        lines = lines.write_row(row, writer)?;
    }
    lines.finish(writer)
}

/// Writes the lines of these rows under their header.
///
/// The lines are written in pieces of about 64 KiB.
///
/// # Errors
///
/// Returns `Write` exactly if the writer's count of failed calls rose in this call, or was
/// `u64::MAX` before it. Otherwise memory ran out. The first lines may have been written.
pub fn write_rows<R: Row, W: Write + Device>(
    alloc: Global,
    rows: &[R],
    writer: &mut W,
) -> Result<(), Fault>
    ensures written { OnOk result (Appends (W.contents writer.old) (W.contents writer.new)
        (file_text R.columns R.fields rows.now)) }
    ensures failed { IfErr result (λ fault.
        fault ≡ attribute FaultKind.Write (W.failures writer.old) (W.failures writer.new)) }
{
    let failures_before = writer.failures();
    match write_all_rows(alloc, rows, writer) {
        Ok(()) => Ok(()),
        Err(WriteError) => Err(Fault::attribute(
            FaultKind::Write,
            failures_before,
            writer.failures(),
        )),
    }
}
