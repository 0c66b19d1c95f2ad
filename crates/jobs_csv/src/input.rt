// Reading the records of a text.
ghost use Rattle.std.specs.Prelude.{◌≡◌, ◌∷◌, [], ◌++◌, ℕ, List, Option, true, false, IfOk, IfErr, OnOk, if◌then◌else◌};
ghost use Rattle.csv.specs.Reading.{error_kind, is_io, stops_reader};
ghost use Rattle.csv.specs.Records.{fields_of};
ghost use Rattle.jobs_csv.specs.Fault.{is_refusal};
ghost use Rattle.jobs_csv.specs.Files.{Record};
ghost use Rattle.jobs_csv.specs.Inner.Input.{AreAll, HasGiven, IsPlain};

use crate::fault::{Fault, FaultKind};
use csv::{ByteRecord, ErrorKind, Reader, ReaderBuilder};
use std::alloc::Global;
use std::io::Read;

/// The most records that a file may have after its header.
pub const MAX_RECORDS: u64 = 1_000_000;

/// Returns a fault, with the record's number if the input is refused, and else with 0.
pub(crate) fn fault_at(row: u64, what: FaultKind) -> Fault
    ensures { result ≡ record { row = (if is_refusal what then row else 0); what = what } }
{
    let row = if what.is_refusal() { row } else { 0 };
    Fault { row, what }
}

// Returns why a reader of records has stopped: the reader below it failed, or memory ran out.
fn stopped_for(error: &csv::Error) -> FaultKind
    requires { stops_reader (error_kind error.now) ≡ true }
    ensures { result
        ≡ (if is_io (error_kind error.now) then FaultKind.Read else FaultKind.OutOfMemory) }
{
    match error.kind() {
        ErrorKind::Io(_) => FaultKind::Read,
        _ => FaultKind::OutOfMemory,
    }
}

/// Returns a reader of the records of a text. It has read none of it.
pub(crate) fn open_reader<R: Read>(alloc: Global, text: R) -> Reader<R>
    ensures plain { IsPlain result }
    ensures none { HasGiven R.remaining (R.remaining text) [] result }
{
    ReaderBuilder::new()
        .has_headers(false)
        .flexible(true)
        .from_reader(alloc, text)
}

/// Reads the next record into `row`, and returns whether there was one.
pub(crate) fn next_record<R: Read>(
    reader: &mut Reader<R>,
    row: &mut ByteRecord,
) -> Result<bool, Fault>
    requires { IsPlain reader.old }
    ensures plain { OnOk result (IsPlain reader.new) }
    ensures more { IfOk result (λ found. found ≡ true
        → (bytes : Option (List ℕ)) (rows : List Record)
        → HasGiven R.remaining bytes rows reader.old
        → HasGiven R.remaining bytes (rows ++ fields_of row.new ∷ []) reader.new) }
    ensures end { IfOk result (λ found. found ≡ false
        → (bytes : Option (List ℕ)) (rows : List Record)
        → HasGiven R.remaining bytes rows reader.old → AreAll bytes rows) }
    ensures failed { IfErr result (λ fault. is_refusal fault.what ≡ false) }
{
    let found = match reader.read_byte_record(row) {
        Ok(found) => found,
        Err(error) => return Err(fault_at(0, stopped_for(&error))),
    };
    Ok(found)
}
