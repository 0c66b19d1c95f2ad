// The rows that list refused records.
ghost use Rattle.std.specs.Prelude.{◌≡◌, ◌++◌, ◌∷◌, [], IfOk, OnOk, take};
ghost use Rattle.csv.specs.Records.{fields_of};
ghost use Rattle.jobs_csv.specs.BadFields.{column_index};
ghost use Rattle.jobs_csv.specs.Refusals.{column_if, column_name, field_in, refusal_columns, refusal_fields, refusal_in, refused, shown};
ghost use Rattle.std.specs.Prelude.{option_map, string_bytes};

use crate::bad_field::Column;
use crate::fault::{Fault, FaultKind};
use csv::{ByteRecord, StringRecord};
use itoa::Buffer;
use std::alloc::{AllocError, Global};

/// The most bytes of a field that a row shows.
pub const MAX_SHOWN: usize = 40;

/// The row of a refused record.
#[derive(Debug, Drop)]
pub struct RefusalRow {
    /// The number of the record, and its fault.
    pub fault: Fault,
    /// The line of the file on which the record begins, from 1 on.
    pub line: u64,
    /// The column of the field at fault, or `None` for a fault of the whole record.
    pub column: Option<Column>,
    /// The first bytes of that field as UTF-8, at most `MAX_SHOWN` of them.
    pub text: String,
    /// What the field may be.
    pub wanted: &'static str,
}

// Returns the column at fault, if the fault is one of a field.
fn column_if(what: FaultKind, column: Option<Column>) -> Option<Column>
    ensures { result ≡ column_if what column }
{
    match what {
        FaultKind::Number | FaultKind::Word => column,
        _ => None,
    }
}

// Returns the field of a column in a record, if there is one.
fn field_in(record: &ByteRecord, column: Option<Column>) -> Option<&[u8]>
    ensures { option_map (λ field. field.now) result
        ≡ field_in (fields_of «record».now) column }
{
    record.get(column?.index())
}

// Returns what is shown of a field.
fn shown(alloc: Global, field: Option<&[u8]>) -> Result<String, AllocError>
    ensures { IfOk result (λ text. string_bytes text
        ≡ shown (option_map (λ field. field.now) field.entry)) }
{
    let Some(field) = field else {
        return Ok(String::new(alloc));
    };
    let length = MAX_SHOWN.min(field.len());
    String::from_utf8_lossy(alloc, &field[..length])
}

/// Returns the row of a record that begins on this line and is refused for this fault. This column
/// would be at fault.
pub(crate) fn refusal_row(
    alloc: Global,
    record: &ByteRecord,
    line: u64,
    fault: Fault,
    column: Option<Column>,
    wanted: &'static str,
) -> Result<RefusalRow, AllocError>
    ensures { IfOk result (λ row.
        refusal_in row ≡ refused (fields_of «record».now) fault column) }
{
    let column = column_if(fault.what, column);
    let text = shown(alloc, field_in(record, column))?;
    Ok(RefusalRow {
        fault,
        line,
        column,
        text,
        wanted,
    })
}

// Returns the name of a column, or no text.
fn column_name(column: Option<Column>) -> &'static str
    ensures { result.now ≡ column_name column }
{
    match column {
        Some(column) => column.name(),
        None => "",
    }
}

impl RefusalRow {
    /// Returns the fields of the header.
    pub(crate) fn columns(alloc: Global) -> Result<StringRecord, AllocError>
        ensures { IfOk result (λ columns. fields_of columns ≡ refusal_columns) }
    {
        let mut columns = StringRecord::new(alloc);
        columns.push_field("record")?;
        columns.push_field("line")?;
        columns.push_field("field")?;
        columns.push_field("text")?;
        columns.push_field("fault")?;
        columns.push_field("wanted")?;
        Ok(columns)
    }

    /// Returns the fields of the row.
    pub(crate) fn fields(&self, alloc: Global) -> Result<StringRecord, AllocError>
        ensures { IfOk result (λ fields. fields_of fields ≡ refusal_fields self.now) }
    {
        let mut fields = StringRecord::new(alloc);
        let mut digits = Buffer::new();
        fields.push_field(digits.format(self.fault.row))?;
        fields.push_field(digits.format(self.line))?;
        fields.push_field(column_name(self.column))?;
        fields.push_field(&self.text)?;
        fields.push_field(self.fault.what.text())?;
        fields.push_field(self.wanted)?;
        Ok(fields)
    }
}
