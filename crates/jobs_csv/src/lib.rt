//! Parsers of CSV files of jobs, commands and schedules, and writers of the rows that answer them.
//!
//! `read_jobs`, `read_place` and `read_schedule` read a whole file and return its rows or its first
//! fault. `read_lanes` returns the jobs lane by lane. One loop reads every format: a format checks
//! a header and reads a record. One buffer writes every row: a `Row` has columns and fields, and
//! `LineBuffer` writes their lines to a borrowed writer.
//!
//! A reader or writer is a `Device` of the crate `devices`, which counts its failed calls. A fault
//! is the device's exactly if that count rose, or had reached its end.
#![tactic(auto)]

mod bad_field;
mod check;
mod columns;
mod end_seen;
mod fault;
mod fields;
mod first_refusal;
mod format;
mod input;
mod job_fields;
mod jobs;
mod lanes;
mod line_buffer;
mod line_number;
mod name;
mod observer;
mod place;
mod place_rows;
mod refusal_rows;
mod replay_rows;
mod replies;
mod report_rows;
mod row;
mod schedule;
mod value_rows;
mod wanted;
mod writing;

pub use bad_field::Column;
pub use check::{check_jobs, check_place, check_schedule};
pub use cube_core::{Event, Refused};
pub use devices::{Counted, Device};
pub use fault::{Fault, FaultKind, WriteError};
pub use first_refusal::{first_refused_command, first_refused_job, first_refused_line};
pub use input::MAX_RECORDS;
pub use job_types::{Job, JobRefused, Reply};
pub use jobs::{read_jobs, read_lanes, read_lanes_with};
pub use line_buffer::LineBuffer;
pub use name::Name;
pub use observer::{Observer, RecordCount};
pub use place::{Command, read_place};
pub use place_rows::PlaceRow;
pub use refusal_rows::{MAX_SHOWN, RefusalRow};
pub use replay_rows::ReplayRow;
pub use report_rows::ReportRow;
pub use row::{Row, RowFields};
pub use schedule::{Line, MAX_STEPS, read_schedule};
pub use value_rows::{ValueRow, write_values};
pub use writing::write_rows;
