// The rows of all messages of a collective, and their file.
ghost use Rattle.std.specs.Prelude.{◌≡◌, ◌≤◌, ◌↔◌, IsTrue, IfErr, IfOk, OnOk, List};
ghost use Rattle.std.specs.Io.KnownBytes.{Appends};
ghost use Rattle.jobs_csv.specs.Fault.{attribute};
ghost use Rattle.jobs_csv.specs.Text.{file_text};
ghost use Rattle.cli_tools.specs.MessageRows.{message_columns, message_fields};
ghost use Rattle.cli_tools.specs.Listing.{AreMessages, IsRoot};
ghost use Rattle.cli_tools.specs.declared.rows.MessageRow.{MessageRow as Row};

use crate::rows::MessageRow;
use collectives::{Shape, message_at};
use cube_shape::MAX_DIM;
use jobs_csv::{Device, Fault, FaultKind};
use std::alloc::{AllocError, Global};
use std::io::Write;

/// Returns whether a collective of this shape on `2^k` places may have this root.
///
/// The root of a broadcast or of a reduction is below `2^k`. An all-reduce and both scans have no
/// root, and theirs is 0.
pub fn is_root(shape: Shape, k: u32, root: u64) -> bool
    requires { k ≤ MAX_DIM }
    ensures { IsTrue result ↔ IsRoot shape k root }
{
    match shape {
        Shape::Broadcast | Shape::Reduce => root < 1 << k,
        Shape::AllReduce | Shape::Scan => root == 0,
    }
}

// Returns a row for each message.
fn message_rows(
    alloc: Global,
    shape: Shape,
    k: u32,
    root: u64,
) -> Result<Vec<MessageRow>, AllocError>
    requires dim { k ≤ MAX_DIM }
    requires root { IsRoot shape k root }
    ensures { IfOk result (λ rows. AreMessages shape k root rows.items) }
{
    let mut rows = Vec::new(alloc);
    for number in 0..shape.tally(k).messages {
        let message = message_at(shape, k, root, number);
        rows.push(MessageRow { message })?;
    }
    Ok(rows)
}

/// Writes a row for each message of a collective on `2^k` places, in the order of their numbers.
///
/// # Errors
///
/// Returns `Write` exactly if the writer's count of failed calls rose in this call, or was
/// `u64::MAX` before it. Otherwise memory ran out. The first rows may have been written.
pub fn write_messages<W: Write + Device>(
    alloc: Global,
    shape: Shape,
    k: u32,
    root: u64,
    writer: &mut W,
) -> Result<(), Fault>
    requires dim { k ≤ MAX_DIM }
    requires root { IsRoot shape k root }
    ensures written { OnOk result ((rows : List Row) × AreMessages shape k root rows
        × Appends (W.contents writer.old) (W.contents writer.new)
        (file_text message_columns message_fields rows)) }
    ensures failed { IfErr result (λ fault.
        fault ≡ attribute FaultKind.Write (W.failures writer.old) (W.failures writer.new)) }
{
    let failures = writer.failures();
    let Ok(rows) = message_rows(alloc, shape, k, root) else {
        return Err(Fault::attribute(FaultKind::Write, failures, failures));
    };
    jobs_csv::write_rows(alloc, &rows, writer)
}
