//! The texts of faults, names, and which device a fault names.

use crate::tests::facts::{expect_all, expect_true};
use crate::tests::failing_devices::{FailsAt, says};
use job_types::JobRefused;
use jobs_csv::{Counted, Device, Fault, FaultKind, Name};
use std::alloc::Global;
use std::io::Write;
use std::process::Abort;

// Returns whether a fault has this status and this line.
fn is_told(rt: &(impl AllocGlobal + Abort), fault: Fault, status: u8, line: &str) -> bool {
    (fault.status() == status) & (fault.what.is_refusal() == (status == 1)) & says(rt, &fault, line)
}

// Expects that each of these faults, of a record, has this status and this line.
fn expect_lines(rt: &(impl AllocGlobal + Abort), rows: &[(u64, FaultKind, u8, &str)]) {
    for (row, what, status, line) in rows {
        let (row, what) = (*row, *what);
        expect_true(rt, is_told(rt, Fault { row, what }, *status, line));
    }
}

// Faults, with the status and the line of each.
static LINES: [(u64, FaultKind, u8, &str); 11] = [
    (0, FaultKind::Fields, 1, "refused: record 0: Fields"),
    (7, FaultKind::Number, 1, "refused: record 7: Number"),
    (1, FaultKind::Word, 1, "refused: record 1: Word"),
    (
        1,
        FaultKind::Job(JobRefused::Empty),
        1,
        "refused: record 1: Job Empty",
    ),
    (
        3,
        FaultKind::Job(JobRefused::TooLarge),
        1,
        "refused: record 3: Job TooLarge",
    ),
    (
        4,
        FaultKind::Job(JobRefused::BadRoot),
        1,
        "refused: record 4: Job BadRoot",
    ),
    (
        1_000_001,
        FaultKind::TooMany,
        1,
        "refused: record 1000001: TooMany",
    ),
    (0, FaultKind::Read, 3, "failed: record 0: Read"),
    (0, FaultKind::Write, 3, "failed: record 0: Write"),
    (
        0,
        FaultKind::OutOfMemory,
        3,
        "failed: record 0: OutOfMemory",
    ),
    (0, FaultKind::Spent, 3, "failed: record 0: Spent"),
];

#[test]
fn prints_faults(rt: HostRuntime) {
    expect_lines(&rt, &LINES);
}

#[test]
fn blames_devices(rt: HostRuntime) {
    let row = 0;
    let what = FaultKind::Read;
    expect_all(
        &rt,
        &[
            Fault::attribute(what, 3, 4) == Fault { row, what },
            Fault::attribute(what, 3, 3) == Fault::no_memory(),
            Fault::attribute(what, u64::MAX, u64::MAX) == Fault { row, what },
        ],
    );
}

// Makes a writer that fails at this call, with a count.
fn failing(alloc: Global, calls: u64, gives_zero: bool) -> Counted<FailsAt<Vec<u8>>> {
    Counted::new(FailsAt {
        device: Vec::new(alloc),
        calls,
        gives_zero,
    })
}

// Returns whether a write of these bytes takes this number of them, and this number of calls have
// failed then.
fn takes(
    writer: &mut Counted<FailsAt<Vec<u8>>>,
    bytes: &[u8],
    taken: usize,
    failures: u64,
) -> bool {
    (writer.write(bytes).ok() == Some(taken)) & (writer.failures() == failures)
}

// Returns whether a flush is good, and one call has failed then.
fn flushes(writer: &mut Counted<FailsAt<Vec<u8>>>) -> bool {
    writer.flush().is_ok() & (writer.failures() == 1)
}

// Returns whether a flush that must fail does so, and is the one call that has failed then.
fn fails_to_flush(alloc: Global) -> bool {
    let mut writer = failing(alloc, 0, false);
    writer.flush().is_err() & (writer.failures() == 1)
}

#[test]
fn counts_failures(rt: HostRuntime) {
    let mut writer = failing(rt.alloc(), 1, true);
    expect_all(
        &rt,
        &[
            takes(&mut writer, b"abc", 3, 0),
            takes(&mut writer, b"d", 0, 1),
            takes(&mut writer, b"", 0, 1),
            flushes(&mut writer),
            writer.get_ref().device.as_slice() == b"abc".as_slice(),
            fails_to_flush(rt.alloc()),
        ],
    );
}

// Returns whether this text is a name, and the same one when it is made again.
fn is_name(text: &[u8]) -> bool {
    match Name::new(text) {
        Some(name) => (name.text() == text) & (Some(name) == Name::new(text)),
        None => false,
    }
}

// Returns whether this text is no name.
fn is_no_name(text: &[u8]) -> bool {
    Name::new(text) == None
}

#[test]
fn makes_names(rt: HostRuntime) {
    expect_all(
        &rt,
        &[
            is_name(b"a"),
            is_name(b"z09"),
            is_name(b"0"),
            is_name(b"abcdefghijklmnop"),
            is_no_name(b""),
            is_no_name(b"abcdefghijklmnopq"),
            is_no_name(b"A"),
            is_no_name(b"a b"),
            is_no_name(b"-"),
            is_no_name(b"a\xFF"),
            Name::new(b"a") != Name::new(b"a0"),
        ],
    );
}
