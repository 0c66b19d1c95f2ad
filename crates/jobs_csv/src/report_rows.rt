// The rows of a report.
ghost use Rattle.std.specs.Prelude.{◌≡◌, ◌∷◌, [], ◌++◌, IfOk, OnOk, string_bytes};
ghost use Rattle.std.specs.Fmt.{decimal};
ghost use Rattle.jobs_csv.specs.Inner.ReportRows.{count_in, group_text, idle_in, key_in, processors_in};
ghost use Rattle.jobs_csv.specs.Text.{IsPlainField};

use crate::row::{Row, RowFields};
use std::alloc::{AllocError, Global};

/// A row of a report.
#[derive(Clone, Copy, Debug, PartialEq, Eq)]
pub enum ReportRow {
    /// The jobs of a lane, the processors of all their blocks, and how many of these had no item of
    /// their job.
    Lane {
        lane: u32,
        jobs: u64,
        processors: u128,
        idle: u128,
    },
    /// The jobs that ran on a block of this dimension, the processors of all these blocks, and how
    /// many of these had no item.
    Dim {
        dim: u32,
        jobs: u64,
        processors: u128,
        idle: u128,
    },
    /// The free blocks of this dimension, and the processors that they have together.
    Free {
        dim: u32,
        regions: u64,
        processors: u128,
    },
    /// All jobs, the processors of all their blocks, and how many of these had no item of their
    /// job.
    Total {
        jobs: u64,
        processors: u128,
        idle: u128,
    },
}

// Returns a number of processors in decimal digits.
fn digits(alloc: Global, processors: u128) -> Result<String, AllocError>
    ensures text { IfOk result (λ text. string_bytes text ≡ decimal processors) }
    ensures plain { IsPlainField (decimal processors) }
{
    format!(in alloc; "{processors}")
}

impl ReportRow {
    // Returns the keyword of what is counted.
    #[tactic(auto, using(crate::proofs::ReportLemmas::plain_group))]
    fn group(&self) -> &'static str
        ensures text { result.now ≡ group_text self.now }
        ensures plain { IsPlainField (group_text self.now) }
    {
        match self {
            ReportRow::Lane { .. } => "lane",
            ReportRow::Dim { .. } => "dim",
            ReportRow::Free { .. } => "free",
            ReportRow::Total { .. } => "total",
        }
    }

    // Returns the number of the lane or the dimension, if the row has one.
    fn key(&self) -> Option<u64>
        ensures { result ≡ key_in self.now }
    {
        match *self {
            ReportRow::Lane { lane, .. } => Some(u64::from(lane)),
            ReportRow::Dim { dim, .. } | ReportRow::Free { dim, .. } => Some(u64::from(dim)),
            ReportRow::Total { .. } => None,
        }
    }

    // Returns the number of jobs or blocks.
    fn count(&self) -> u64
        ensures { result ≡ count_in self.now }
    {
        match *self {
            ReportRow::Lane { jobs, .. }
            | ReportRow::Dim { jobs, .. }
            | ReportRow::Total { jobs, .. } => jobs,
            ReportRow::Free { regions, .. } => regions,
        }
    }

    // Returns the number of processors.
    fn processors(&self) -> u128
        ensures { result ≡ processors_in self.now }
    {
        match *self {
            ReportRow::Lane { processors, .. }
            | ReportRow::Dim { processors, .. }
            | ReportRow::Free { processors, .. }
            | ReportRow::Total { processors, .. } => processors,
        }
    }

    // Returns how many processors were idle: none of free blocks, which no job had.
    fn idle(&self) -> u128
        ensures { result ≡ idle_in self.now }
    {
        match *self {
            ReportRow::Lane { idle, .. }
            | ReportRow::Dim { idle, .. }
            | ReportRow::Total { idle, .. } => idle,
            ReportRow::Free { .. } => 0,
        }
    }
}

impl Row for ReportRow {
    ghost use Rattle.jobs_csv.specs.ReportRows.{report_columns, report_fields};

    ghost columns = { report_columns };

    ghost fields = { report_fields };

    #[tactic(auto, using(crate::proofs::PlainLemmas::plain_text))]
    fn push_columns(line: &mut RowFields) -> Result<(), AllocError> {
        line.push_text(b"group".as_slice())?;
        line.push_text(b"key".as_slice())?;
        line.push_text(b"count".as_slice())?;
        line.push_text(b"processors".as_slice())?;
        line.push_text(b"idle".as_slice())
    }

    fn push_fields(&self, alloc: Global, line: &mut RowFields) -> Result<(), AllocError> {
        let processors = digits(alloc, self.processors())?;
        let idle = digits(alloc, self.idle())?;
        line.push_text(self.group().as_bytes())?;
        line.push_number_or_dash(self.key())?;
        line.push_number(self.count())?;
        line.push_text(processors.as_bytes())?;
        line.push_text(idle.as_bytes())
    }
}
