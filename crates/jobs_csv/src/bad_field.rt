// Which field of a record is at fault.
ghost use Rattle.std.specs.Prelude.{◌≡◌, ◌∷◌, [], ℕ, List, Some};
ghost use Rattle.csv.specs.Records.{fields_of};
ghost use Rattle.jobs_csv.specs.BadFields.{bad_command_field, bad_job_column, bad_job_field, bad_line_field, bad_of_three, column_index, column_text, is_any_number, is_call, is_join, is_kind, is_lane, is_op};

use crate::name::Name;
use crate::{columns, fields};
use csv::ByteRecord;
use cube_shape::MAX_LANES;

/// A column of a file that a command reads.
#[derive(Clone, Copy, Debug, PartialEq, Eq)]
pub enum Column {
    /// The lane of a job.
    Lane,
    /// The collective of a job.
    Kind,
    /// The operation of a job.
    Op,
    /// The root of a job.
    Root,
    /// The items of a job.
    Items,
    /// The keyword of a command of `place`.
    Command,
    /// The name of a command of `place`.
    Name,
    /// The dimension of a command of `place`.
    Dim,
    /// The station of a call of a schedule.
    Station,
    /// The keyword of a call of a schedule.
    Call,
    /// The last field of a call of a schedule.
    Arg,
}

impl Column {
    /// Returns the name of the column, as the header has it.
    pub fn name(self) -> &'static str
        ensures { result.now ≡ column_text self }
    {
        match self {
            Column::Lane => "lane",
            Column::Kind => "kind",
            Column::Op => "op",
            Column::Root => "root",
            Column::Items => "items",
            Column::Command => "command",
            Column::Name => "name",
            Column::Dim => "dim",
            Column::Station => "station",
            Column::Call => "call",
            Column::Arg => "arg",
        }
    }

    /// Returns the place of the column in its record, from 0 on.
    pub fn index(self) -> usize
        ensures { result ≡ column_index self }
    {
        match self {
            Column::Lane | Column::Command | Column::Station => 0,
            Column::Kind | Column::Name | Column::Call => 1,
            Column::Op | Column::Dim | Column::Arg => 2,
            Column::Root => 3,
            Column::Items => 4,
        }
    }
}

// Returns whether a field is a number.
fn is_number(field: &[u8]) -> bool
    ensures { result ≡ is_any_number field.now }
{
    fields::number(field).is_some()
}

// Returns whether a field is the number of a lane.
fn is_lane(field: &[u8]) -> bool
    ensures { result ≡ is_lane field.now }
{
    match fields::number(field) {
        Some(lane) => lane < u64::from(MAX_LANES),
        None => false,
    }
}

// Returns whether a field is the keyword of a collective.
fn is_kind(field: &[u8]) -> bool
    ensures { result ≡ is_kind field.now }
{
    field == b"broadcast".as_slice()
        || field == b"reduce".as_slice()
        || field == b"allreduce".as_slice()
        || field == b"scan".as_slice()
        || field == b"exscan".as_slice()
}

// Returns whether a field is the keyword of an operation.
fn is_join(field: &[u8]) -> bool
    ensures { result ≡ is_join field.now }
{
    field == b"add".as_slice()
        || field == b"min".as_slice()
        || field == b"max".as_slice()
        || field == b"xor".as_slice()
        || field == b"and".as_slice()
        || field == b"or".as_slice()
}

// Returns whether a field is the operation of a collective of this kind.
fn is_op(kind: &[u8], field: &[u8]) -> bool
    ensures { result ≡ is_op kind.now field.now }
{
    if kind == b"broadcast".as_slice() {
        field == b"-".as_slice()
    } else {
        is_join(field)
    }
}

// Returns the field at fault of a job's five, of which the last one does not matter.
fn bad_of_job(lane: &[u8], kind: &[u8], op: &[u8], root: &[u8]) -> Column
    ensures { (items : List ℕ) → Some result
        ≡ bad_job_field (lane.now ∷ kind.now ∷ op.now ∷ root.now ∷ items ∷ []) }
{
    if !is_lane(lane) {
        Column::Lane
    } else if !is_kind(kind) {
        Column::Kind
    } else if !is_op(kind, op) {
        Column::Op
    } else if !is_number(root) {
        Column::Root
    } else {
        Column::Items
    }
}

/// Returns the field at fault in a job's record, if the record has five fields.
pub(crate) fn bad_job_field(row: &ByteRecord) -> Option<Column>
    ensures { result ≡ bad_job_field (fields_of row.now) }
{
    if row.len() != 5 {
        return None;
    }
    let lane = columns::field(row, 0);
    let kind = columns::field(row, 1);
    let op = columns::field(row, 2);
    let root = columns::field(row, 3);
    let _items = columns::field(row, 4);
    Some(bad_of_job(lane, kind, op, root))
}

// Returns the column whose text is wrong of a job's five, of which the last one does not matter.
fn bad_of_job_header(lane: &[u8], kind: &[u8], op: &[u8], root: &[u8]) -> Column
    ensures { (items : List ℕ) → Some result
        ≡ bad_job_column (lane.now ∷ kind.now ∷ op.now ∷ root.now ∷ items ∷ []) }
{
    if lane != b"lane".as_slice() {
        Column::Lane
    } else if kind != b"kind".as_slice() {
        Column::Kind
    } else if op != b"op".as_slice() {
        Column::Op
    } else if root != b"root".as_slice() {
        Column::Root
    } else {
        Column::Items
    }
}

/// Returns the column whose text is wrong in a header of jobs, if the header has five fields.
pub(crate) fn bad_job_column(row: &ByteRecord) -> Option<Column>
    ensures { result ≡ bad_job_column (fields_of row.now) }
{
    if row.len() != 5 {
        return None;
    }
    let lane = columns::field(row, 0);
    let kind = columns::field(row, 1);
    let op = columns::field(row, 2);
    let root = columns::field(row, 3);
    let _items = columns::field(row, 4);
    Some(bad_of_job_header(lane, kind, op, root))
}

/// Returns the field at fault in a command's record, if the record has three fields.
pub(crate) fn bad_command_field(row: &ByteRecord) -> Option<Column>
    ensures { result ≡ bad_command_field (fields_of row.now) }
{
    let fields = columns::three_fields(row)?;
    if fields.first != b"take".as_slice() && fields.first != b"free".as_slice() {
        Some(Column::Command)
    } else if Name::new(fields.second).is_none() {
        Some(Column::Name)
    } else {
        Some(Column::Dim)
    }
}

// Returns whether a field is the keyword of a call.
fn is_call(field: &[u8]) -> bool
    ensures { result ≡ is_call field.now }
{
    field == b"take".as_slice()
        || field == b"release".as_slice()
        || field == b"step".as_slice()
        || field == b"run".as_slice()
        || field == b"retire".as_slice()
}

/// Returns the field at fault in a line of a schedule, if the record has three fields.
pub(crate) fn bad_line_field(row: &ByteRecord) -> Option<Column>
    ensures { result ≡ bad_line_field (fields_of row.now) }
{
    let fields = columns::three_fields(row)?;
    if !is_number(fields.first) {
        Some(Column::Station)
    } else if !is_call(fields.second) {
        Some(Column::Call)
    } else {
        Some(Column::Arg)
    }
}

/// Returns the column of these three whose text is wrong in a header, if it has three fields.
pub(crate) fn bad_of_three(
    row: &ByteRecord,
    first: Column,
    second: Column,
    third: Column,
) -> Option<Column>
    ensures { result ≡ bad_of_three first second third (fields_of row.now) }
{
    let fields = columns::three_fields(row)?;
    if fields.first != first.name().as_bytes() {
        Some(first)
    } else if fields.second != second.name().as_bytes() {
        Some(second)
    } else {
        Some(third)
    }
}
