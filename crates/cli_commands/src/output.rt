// What a command writes of a finished run.
ghost use Rattle.std.specs.Prelude.{◌≡◌, ℕ, ◌≤◌, List, IfErr, IfOk, OnOk, length};
ghost use Rattle.std.specs.Io.KnownBytes.{Appends};
ghost use Rattle.cube_shape.specs.declared.limits.TheConstants.{MAX_LANES};
ghost use Rattle.floors.specs.Floor.{IsWhollyFree};
ghost use Rattle.job_types.specs.Job.{JobData};
ghost use Rattle.jobs_csv.specs.Fault.{attribute};
ghost use Rattle.jobs_csv.specs.Replies.{reply_columns, reply_fields};
ghost use Rattle.jobs_csv.specs.ReportRows.{report_columns, report_fields};
ghost use Rattle.jobs_csv.specs.Text.{file_text};
ghost use Rattle.jobs_csv.specs.ValueRows.{values_text};
ghost use Rattle.cli_commands.specs.Replies.{AnswersJobs, AreReplies};

use crate::report::report_rows;
use cube_shape::MAX_DIM;
use dispatcher::{Finished, sorted_replies};
use floors::Floor;
use job_types::Reply;
use jobs_csv::{Device, Fault, FaultKind, ReportRow, write_rows, write_values};
use std::alloc::{AllocError, Global};
use std::io::Write;

/// The output of a command once all jobs of a file have run: rows made of the finished run.
pub trait Output {
    /// A row, which is written as lines of its own.
    type Row: Send + Drop;

    // The rows are those of these jobs, on a machine of dimension `n`.
    ghost are_rows: { ℕ → List JobData → List Self.Row → Type 0 };

    // The file of these rows.
    ghost text: { List Self.Row → List ℕ };

    /// Makes the rows of a finished run on a machine of dimension `n`.
    ///
    /// # Errors
    ///
    /// Memory ran out.
    fn rows<F: Floor>(
        alloc: Global,
        n: u32,
        finished: Finished<F::Machine>,
    ) -> Result<Vec<Self::Row>, AllocError>
    where
        F::Machine: Drop,
        requires limit { n ≤ MAX_DIM }
        requires lanes { length finished.accepted.items ≤ MAX_LANES }
        requires free { IsWhollyFree n (F.machine_words finished.machine) }
        ensures { IfOk result (λ rows. (jobs : List JobData) →
            AnswersJobs n jobs finished → are_rows n jobs rows.items) };

    /// Writes the file of these rows.
    ///
    /// # Errors
    ///
    /// Returns `Write` exactly if the writer's count of failed calls rose in this call, or was
    /// `u64::MAX` before it. Otherwise memory ran out. The first lines may have been written.
    fn write<W: Write + Device>(
        alloc: Global,
        rows: &[Self::Row],
        writer: &mut W,
    ) -> Result<(), Fault>
        ensures written { OnOk result (Appends (W.contents writer.old) (W.contents writer.new)
            (text rows.now)) }
        ensures failed { IfErr result (λ fault.
            fault ≡ attribute FaultKind.Write (W.failures writer.old) (W.failures writer.new)) };
}

// Returns all replies of a finished dispatcher, sorted by id.
fn replies_of<M: Drop>(alloc: Global, finished: Finished<M>) -> Result<Vec<Reply>, AllocError>
    ensures { IfOk result (λ replies. (n : ℕ) (jobs : List JobData) →
        AnswersJobs n jobs finished → AreReplies n jobs replies.items) }
{
    match sorted_replies(alloc, finished) {
        Ok(replies) => Ok(replies),
        Err(_) => Err(AllocError),
    }
}

/// A line for each reply, sorted by id.
pub struct Replies;

impl Output for Replies {
    ghost use Rattle.cli_commands.specs.Replies.{AreReplies};

    type Row = Reply;

    ghost are_rows = { AreReplies };

    ghost text = { file_text reply_columns reply_fields };

    fn rows<F: Floor>(
        alloc: Global,
        _n: u32,
        finished: Finished<F::Machine>,
    ) -> Result<Vec<Reply>, AllocError>
    where
        F::Machine: Drop,
    {
        replies_of(alloc, finished)
    }

    fn write<W: Write + Device>(alloc: Global, rows: &[Reply], writer: &mut W) -> Result<(), Fault>
        ensures written { OnOk result (Appends (W.contents writer.old) (W.contents writer.new)
            (file_text reply_columns reply_fields rows.now)) }
        ensures failed { IfErr result (λ fault.
            fault ≡ attribute FaultKind.Write (W.failures writer.old) (W.failures writer.new)) }
    {
        write_rows(alloc, rows, writer)
    }
}

/// A line for each value of a reply. The replies are sorted by id.
pub struct Values;

impl Output for Values {
    ghost use Rattle.cli_commands.specs.Replies.{AreReplies};

    type Row = Reply;

    ghost are_rows = { AreReplies };

    ghost text = { values_text };

    fn rows<F: Floor>(
        alloc: Global,
        _n: u32,
        finished: Finished<F::Machine>,
    ) -> Result<Vec<Reply>, AllocError>
    where
        F::Machine: Drop,
    {
        replies_of(alloc, finished)
    }

    fn write<W: Write + Device>(alloc: Global, rows: &[Reply], writer: &mut W) -> Result<(), Fault>
        ensures written { OnOk result (Appends (W.contents writer.old) (W.contents writer.new)
            (values_text rows.now)) }
        ensures failed { IfErr result (λ fault.
            fault ≡ attribute FaultKind.Write (W.failures writer.old) (W.failures writer.new)) }
    {
        write_values(alloc, rows, writer)
    }
}

/// The totals of all jobs, by lane, by dimension and in all, and the free blocks of the machine.
pub struct Report;

impl Output for Report {
    ghost use Rattle.cli_commands.specs.Report.{AreReportRows};

    type Row = ReportRow;

    ghost are_rows = { AreReportRows };

    ghost text = { file_text report_columns report_fields };

    fn rows<F: Floor>(
        alloc: Global,
        n: u32,
        finished: Finished<F::Machine>,
    ) -> Result<Vec<ReportRow>, AllocError>
    where
        F::Machine: Drop,
    {
        report_rows::<F>(alloc, n, &finished)
    }

    fn write<W: Write + Device>(
        alloc: Global,
        rows: &[ReportRow],
        writer: &mut W,
    ) -> Result<(), Fault>
        ensures written { OnOk result (Appends (W.contents writer.old) (W.contents writer.new)
            (file_text report_columns report_fields rows.now)) }
        ensures failed { IfErr result (λ fault.
            fault ≡ attribute FaultKind.Write (W.failures writer.old) (W.failures writer.new)) }
    {
        write_rows(alloc, rows, writer)
    }
}
