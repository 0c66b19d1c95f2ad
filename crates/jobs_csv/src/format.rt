// Reading a file of any format: the loop over its records, and its first fault.
ghost use Rattle.std.specs.Prelude.{◌≡◌, ◌∷◌, [], ◌++◌, ℕ, List, Option, Result, Ok, Err, All, IfOk, IfErr, IfSome, OnOk};
ghost use Rattle.csv.specs.Records.{fields_of};
ghost use Rattle.jobs_csv.specs.Fault.{IsInputFault};
ghost use Rattle.jobs_csv.specs.Files.{Record, parse_file};
ghost use Rattle.jobs_csv.specs.Inner.Input.{HasGiven, IsPlain};
ghost use Rattle.jobs_csv.specs.Inner.Parse.{ReturnsParse};
ghost use Rattle.jobs_csv.specs.Outcome.{ReturnsFile, ReturnsRows};
ghost use Rattle.jobs_csv.specs.declared.fault.FaultKind.{FaultKind};

use crate::fault::{Fault, FaultKind};
use crate::input::{self, MAX_RECORDS};
use csv::{ByteRecord, Reader};
use devices::Device;
use std::alloc::{AllocError, Global};
use std::io::Read;

/// A format of files: its header, and the rows of the records after it.
pub(crate) trait Format {
    /// The row of a record.
    type Row: Drop;

    // The parse of a header.
    ghost header_of: { Record → Result (Unit {0}) FaultKind };

    // The parse of a record: its row, or its first fault.
    ghost row_of: { Self → Record → Result Self.Row FaultKind };

    // What is true of each row of a file.
    ghost is_row: { Self → Self.Row → Type 0 };

    /// Checks the header: the number of its fields, and then their texts.
    fn header(&self, row: &ByteRecord) -> Result<(), FaultKind>
        ensures { ReturnsParse (λ good. good) (header_of (fields_of row.now)) result };

    /// Reads a record: checks the number of its fields, and then reads the fields from left to
    /// right.
    fn row(&self, alloc: Global, row: &ByteRecord) -> Result<Self::Row, FaultKind>
        ensures parse { ReturnsParse (λ row. row) (row_of self.now (fields_of row.now)) result }
        ensures good { IfOk result (λ row. is_row self.now row) };
}

/// A collection that rows are pushed into.
pub(crate) trait RowSink<Row>: Drop {
    // It holds these rows, in this order.
    ghost contents: { Self → List Row → Type 0 };

    fn push(&mut self, row: Row) -> Result<(), AllocError>
        requires { (rows : List Row) × contents self.old rows }
        ensures { (rows : List Row) → contents self.old rows
            → OnOk result (contents self.new (rows ++ row ∷ [])) };
}

impl<Row: Drop> RowSink<Row> for Vec<Row> {
    ghost contents = { λ list rows. rows ≡ list.items };

    fn push(&mut self, row: Row) -> Result<(), AllocError> {
        self.push(row)?;
        Ok(())
    }
}

// Reads the header into `record`, and checks it.
fn read_header<F: Format, R: Read>(
    format: &F,
    reader: &mut Reader<R>,
    record: &mut ByteRecord,
) -> Result<(), Fault>
    requires { IsPlain reader.old }
    ensures plain { OnOk result (IsPlain reader.new) }
    ensures good { IfOk result (λ header. F.header_of (fields_of record.new) ≡ Ok tt
        × ((text : Option (List ℕ)) → HasGiven R.remaining text [] reader.old
        → HasGiven R.remaining text (fields_of record.new ∷ []) reader.new)) }
    ensures refused { IfErr result (λ fault. (text : Option (List ℕ))
        → HasGiven R.remaining text [] reader.old → IfSome text (λ bytes.
        ReturnsFile (parse_file F.header_of (F.row_of format.now) bytes) (Err fault))) }
{
    if !input::next_record(reader, record)? {
        let what = FaultKind::Fields;
        return Err(Fault { row: 0, what });
    }
    if let Err(what) = format.header(record) {
        return Err(Fault { row: 0, what });
    }
    Ok(())
}

// Reads the records after a good header and pushes their rows into `rows`, which must be empty.
// Each record is read into `record`.
fn read_rows<F: Format, G: RowSink<F::Row>, R: Read>(
    alloc: Global,
    format: &F,
    rows: G,
    reader: &mut Reader<R>,
    record: &mut ByteRecord,
) -> Result<G, Fault>
    requires plain { IsPlain reader.old }
    requires empty { G.contents rows [] }
    ensures parse { (text : Option (List ℕ)) → (header : Record)
        → HasGiven R.remaining text (header ∷ []) reader.old → F.header_of header ≡ Ok tt
        → IfSome text (λ bytes. ReturnsRows G.contents
        (parse_file F.header_of (F.row_of format.now) bytes) result) }
    ensures good { IfOk result (λ gathered. (list : List F.Row)
        × G.contents gathered list
        × All (λ row. F.is_row format.now row) list) }
{
    let mut rows = rows;
    for number in 1..MAX_RECORDS + 1 {
        if !input::next_record(reader, record)? {
            return Ok(rows);
        }
        let row = match format.row(alloc, record) {
            Ok(row) => row,
            Err(what) => return Err(input::fault_at(number, what)),
        };
        if rows.push(row).is_err() {
            return Err(input::fault_at(number, FaultKind::OutOfMemory));
        }
    }
    if input::next_record(reader, record)? {
        let row = MAX_RECORDS + 1;
        let what = FaultKind::TooMany;
        return Err(Fault { row, what });
    }
    Ok(rows)
}

/// Reads a whole file and pushes its rows into `rows`, which must be empty.
///
/// A refusal is the first fault of the file. A failure is `Read` exactly if the reader's count of
/// failed calls rose in this call, or was `u64::MAX` before it. Otherwise memory ran out.
pub(crate) fn read_file<F: Format, G: RowSink<F::Row>, R: Read + Device>(
    alloc: Global,
    format: &F,
    rows: G,
    reader: &mut R,
) -> Result<G, Fault>
    requires { G.contents rows [] }
    ensures parse { IfSome (R.remaining reader.old) (λ bytes.
        ReturnsRows G.contents (parse_file F.header_of (F.row_of format.now) bytes) result) }
    ensures good { IfOk result (λ gathered. (list : List F.Row)
        × G.contents gathered list
        × All (λ row. F.is_row format.now row) list) }
    ensures failed { IfErr result (IsInputFault (R.failures reader.old) (R.failures reader.new)) }
{
    let failures_before = reader.failures();
    let mut records = input::open_reader(alloc, &mut *reader);
    let mut record = ByteRecord::new(alloc);
    let gathered = match read_header(format, &mut records, &mut record) {
        Ok(()) => read_rows(alloc, format, rows, &mut records, &mut record),
        Err(fault) => Err(fault),
    };
    drop(records);
    let fault = match gathered {
        Ok(rows) => return Ok(rows),
        Err(fault) => fault,
    };
    if fault.what.is_refusal() {
        return Err(fault);
    }
    Err(Fault::attribute(FaultKind::Read, failures_before, reader.failures()))
}

/// Reads the rows of a whole file as a list, as `read_file` does.
pub(crate) fn read_list<F: Format, R: Read + Device>(
    alloc: Global,
    format: &F,
    reader: &mut R,
) -> Result<Vec<F::Row>, Fault>
    ensures parse { IfSome (R.remaining reader.old) (λ bytes.
        ReturnsFile (parse_file F.header_of (F.row_of format.now) bytes) result) }
    ensures good { IfOk result (λ rows. All (λ row. F.is_row format.now row) rows.items) }
    ensures failed { IfErr result (IsInputFault (R.failures reader.old) (R.failures reader.new)) }
{
    read_file(alloc, format, Vec::new(alloc), reader)
}
