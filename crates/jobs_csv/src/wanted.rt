// What a refused record or field should be, in words.
use crate::bad_field::Column;
use crate::fault::FaultKind;
use crate::format::Format;
use crate::jobs::Jobs;
use crate::place::Commands;
use crate::schedule::Schedule;
use csv::ByteRecord;
use job_types::JobRefused;

// Returns what a field of this column may be.
fn of_field(column: Column) -> &'static str {
    match column {
        Column::Lane => "a number below 16, with no sign and no leading zero",
        Column::Kind => "broadcast, reduce, allreduce, scan or exscan",
        Column::Op => "add, min, max, xor, and, or; for a broadcast -",
        Column::Root => "a number below 2^64, with no sign and no leading zero",
        Column::Items => {
            "numbers below 2^64 with one space between each two, no sign and no leading zero"
        }
        Column::Command => "take or free",
        Column::Name => "1 to 16 bytes, each of them a to z or a digit",
        Column::Dim => "for take a number from 0 to N, for free -",
        Column::Station => "a number below 2^64, with no sign and no leading zero",
        Column::Call => "take, release, step, run or retire",
        Column::Arg => "for take a node, for step a number from 1 to 100, for any other -",
    }
}

/// Returns what a record that is refused for this fault should be, or its field of this column.
/// The text of the header says which fields a record has.
pub(crate) fn of_record(
    what: FaultKind,
    column: Option<Column>,
    header_text: &'static str,
) -> &'static str {
    match what {
        FaultKind::Job(JobRefused::Empty) => "one item at least",
        FaultKind::Job(JobRefused::TooLarge) => "no more items than the machine has processors",
        FaultKind::Job(JobRefused::BadRoot) => {
            "the rank of an item as root; for allreduce, scan and exscan 0"
        }
        FaultKind::TooMany => "no record after the last that a file may have",
        FaultKind::Number | FaultKind::Word => match column {
            Some(column) => of_field(column),
            None => header_text,
        },
        _ => header_text,
    }
}

/// Returns what a refused header should be. If it is that of another command, names that command.
/// The text is that of the right header.
pub(crate) fn of_header(row: &ByteRecord, header_text: &'static str) -> &'static str {
    if (Jobs { n: 0 }).header(row).is_ok() {
        "another file: this is the input of run"
    } else if (Commands { n: 0 }).header(row).is_ok() {
        "another file: this is the input of place"
    } else if Schedule.header(row).is_ok() {
        "another file: this is the input of replay"
    } else {
        header_text
    }
}
