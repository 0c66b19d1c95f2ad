//! Rows that are written, and writers that fail.

use crate::tests::commands::tells;
use crate::tests::facts::{expect_all, expect_true};
use crate::tests::failing_devices::{FailsAt, push, replies_text};
use crate::tests::jobs::{replies_to, reply_to};
use crate::tests::readings::{name_of, writes};
use cube_core::{Event, Kind, Note, Refused};
use job_types::{JobId, Op, Reply};
use jobs_csv::{
    Counted, Device, FaultKind, LineBuffer, PlaceRow, ReplayRow, ReportRow, Row, ValueRow,
    WriteError, write_rows,
};
use std::io::Write;
use std::process::Abort;

// Adds a row after these lines, and writes them out if that is asked.
fn push_row<T: Row, W: Write>(
    rt: &impl Abort,
    lines: LineBuffer,
    row: &T,
    flushes: bool,
    writer: &mut W,
) -> LineBuffer {
    let lines = lines.push(row).expect(rt, "no memory");
    if flushes {
        lines.flush(writer).expect(rt, "lines are written")
    } else {
        lines
    }
}

// Writes these rows under their header. The buffer is written out once, or after each row too.
fn write_text<T: Row, W: Write>(
    rt: &impl Abort,
    lines: LineBuffer,
    rows: &[T],
    flushes: bool,
    writer: &mut W,
) -> Result<(), WriteError> {
    let mut lines = lines.push_header::<T>().expect(rt, "no memory");
    for row in rows {
        lines = push_row(rt, lines, row, flushes, writer);
    }
    lines.finish(writer)
}

// Expects that these rows are written under their header. The buffer is written out once, or after
// each row too.
fn expect_written<T: Row>(
    rt: &(impl AllocGlobal + Abort),
    rows: &[T],
    flushes: bool,
    wanted: &str,
) {
    let mut writer = Counted::new(Vec::new(rt.alloc()));
    let lines = LineBuffer::new(rt.alloc()).expect(rt, "no memory");
    let answer = write_text(rt, lines, rows, flushes, &mut writer);
    let is_written = writer.get_ref().as_slice() == wanted.as_bytes();
    expect_true(
        rt,
        (answer == Ok(())) & (writer.failures() == 0) & is_written,
    );
}

// Expects that these rows are written under their header, whether the buffer is written out once or
// after each.
fn expect_text<T: Row>(rt: &(impl AllocGlobal + Abort), rows: &[T], wanted: &str) {
    expect_written(rt, rows, false, wanted);
    expect_written(rt, rows, true, wanted);
}

#[test]
fn writes_outcomes(rt: HostRuntime) {
    let (name, long) = (name_of(&rt, b"a"), name_of(&rt, b"abcdefghijklmno9"));
    expect_text(
        &rt,
        &[
            PlaceRow::Given {
                name,
                dim: 0,
                base: 0,
            },
            PlaceRow::Given {
                name: long,
                dim: 3,
                base: 1016,
            },
            PlaceRow::Held { name, dim: 1 },
            PlaceRow::NoStation { name, dim: 10 },
            PlaceRow::NoSubcube { name, dim: 2 },
            PlaceRow::Freed {
                name,
                dim: 0,
                base: 7,
            },
            PlaceRow::NothingHeld { name },
        ],
        "command,name,dim,base,outcome\n\
         take,a,0,0,given\n\
         take,abcdefghijklmno9,3,1016,given\n\
         take,a,1,-,held\n\
         take,a,10,-,nostation\n\
         take,a,2,-,nosubcube\n\
         free,a,0,7,freed\n\
         free,a,-,-,nothingheld\n",
    );
    expect_text::<PlaceRow>(&rt, &[], "command,name,dim,base,outcome\n");
}

// Rows of a report, some with the greatest numbers.
static REPORTS: [ReportRow; 5] = [
    ReportRow::Lane {
        lane: 0,
        jobs: 1,
        processors: 4,
        idle: 1,
    },
    ReportRow::Lane {
        lane: 15,
        jobs: u64::MAX,
        processors: u128::MAX,
        idle: u128::MAX,
    },
    ReportRow::Dim {
        dim: 10,
        jobs: 0,
        processors: 0,
        idle: 0,
    },
    ReportRow::Free {
        dim: 1,
        regions: 4,
        processors: 8,
    },
    ReportRow::Total {
        jobs: 3,
        processors: 18446744073709551616,
        idle: 10,
    },
];

#[test]
fn writes_reports(rt: HostRuntime) {
    expect_text(
        &rt,
        &REPORTS,
        "group,key,count,processors,idle\n\
         lane,0,1,4,1\n\
         lane,15,18446744073709551615,340282366920938463463374607431768211455,\
         340282366920938463463374607431768211455\n\
         dim,10,0,0,0\n\
         free,1,4,8,0\n\
         total,-,3,18446744073709551616,10\n",
    );
}

// Returns the row of an event.
fn made_row(station: u64, kind: Kind, node: u64, word: u64, note: Note) -> ReplayRow {
    ReplayRow::Made {
        event: Event {
            station,
            kind,
            node,
            word,
            note,
        },
    }
}

// Returns the row of a refused call.
fn refused(station: u64, node: Option<u64>, why: Refused) -> ReplayRow {
    ReplayRow::Refused { station, node, why }
}

#[test]
fn writes_events(rt: HostRuntime) {
    expect_text(
        &rt,
        &[
            made_row(0, Kind::Look, 4, 0, Note::Free),
            made_row(0, Kind::Claim, 4, 7, Note::Climb),
            made_row(0, Kind::Sweep, 2, 0, Note::Ok),
            made_row(0, Kind::Raise, 1, 2, Note::Held),
            made_row(0, Kind::Raise, 2, 7, Note::Under),
            made_row(2, Kind::Zero, 5, 0, Note::Climb),
            made_row(1, Kind::Unmark, 2, 2, Note::Ok),
            made_row(1, Kind::Mark, 1, 1542, Note::Ok),
            made_row(1, Kind::Mark, 1, 519, Note::Stop),
            made_row(1, Kind::Child, 5, 7, Note::Used),
            made_row(0, Kind::Clear, 1, 2, Note::Keep),
            made_row(1, Kind::Clear, 2, 4, Note::Lost),
            made_row(2, Kind::Clear, 1, 0, Note::Done),
            made_row(3, Kind::Look, 1, 256, Note::InUse),
            made_row(47, Kind::Mark, 1, 36028797018963970, Note::Ok),
            made_row(47, Kind::Retire, 0, 140737488355328, Note::Retired),
        ],
        "station,event,node,word,note\n\
         0,look,4,-,free\n\
         0,claim,4,OLR,climb\n\
         0,sweep,2,-,ok\n\
         0,raise,1,L,held\n\
         0,raise,2,OLR,under\n\
         2,zero,5,-,climb\n\
         1,unmark,2,L,ok\n\
         1,mark,1,LR+1+2,ok\n\
         1,mark,1,OLR+1,stop\n\
         1,child,5,OLR,used\n\
         0,clear,1,L,keep\n\
         1,clear,2,R,lost\n\
         2,clear,1,-,done\n\
         3,look,1,-+0,inuse\n\
         47,mark,1,L+47,ok\n\
         47,retire,0,-,retired\n",
    );
}

// Refused calls, two words and the end.
static REFUSALS: [ReplayRow; 8] = [
    ReplayRow::Refused {
        station: 0,
        node: None,
        why: Refused::Resting,
    },
    ReplayRow::Refused {
        station: 0,
        node: None,
        why: Refused::NotHolding,
    },
    ReplayRow::Refused {
        station: 5,
        node: Some(1),
        why: Refused::NoStation,
    },
    ReplayRow::Refused {
        station: 0,
        node: Some(4),
        why: Refused::NotInCube,
    },
    ReplayRow::Refused {
        station: 0,
        node: Some(1),
        why: Refused::NotIdle,
    },
    ReplayRow::Word { node: 1, word: 7 },
    ReplayRow::Word { node: 3, word: 258 },
    ReplayRow::End { count: 2 },
];

#[test]
fn writes_refusals_and_words(rt: HostRuntime) {
    expect_text(
        &rt,
        &REFUSALS,
        "station,event,node,word,note\n\
         0,refused,-,-,resting\n\
         0,refused,-,-,notholding\n\
         5,refused,1,-,nostation\n\
         0,refused,4,-,notincube\n\
         0,refused,1,-,notidle\n\
         -,end,1,OLR,-\n\
         -,end,3,L+0,-\n\
         -,end,-,-,2\n",
    );
}

// The row of a value at this place of the first job of lane 0.
fn value_row(place: u64, value: u64) -> ValueRow {
    let id = JobId { lane: 0, seq: 0 };
    ValueRow { id, place, value }
}

// The least and the greatest numbers of one, two, three, 19 and 20 digits.
#[test]
fn writes_numbers_of_any_length(rt: HostRuntime) {
    expect_text(
        &rt,
        &[
            value_row(0, 9),
            value_row(10, 99),
            value_row(100, 999),
            value_row(1_000_000_000_000_000_000, 9_999_999_999_999_999_999),
            value_row(10_000_000_000_000_000_000, u64::MAX),
        ],
        "lane,seq,place,value\n\
         0,0,0,9\n\
         0,0,10,99\n\
         0,0,100,999\n\
         0,0,1000000000000000000,9999999999999999999\n\
         0,0,10000000000000000000,18446744073709551615\n",
    );
}

// Writes `count` lines of 30 bytes.
fn write_many<W: Write>(
    lines: LineBuffer,
    count: u64,
    writer: &mut W,
) -> Result<LineBuffer, WriteError> {
    let mut lines = lines;
    for _row in 0..count {
        let row = refused(0, Some(1_000_000), Refused::NotInCube);
        lines = lines.write_row(&row, writer)?;
    }
    Ok(lines)
}

// A buffer of 65,536 bytes is full: 180,000 bytes are written in two pieces, and the rest at the
// end. So two full buffers are written before the end, and no third one.
#[test]
fn writes_out_full_buffers(rt: HostRuntime) {
    let mut writer = Counted::new(Vec::new(rt.alloc()));
    let lines = LineBuffer::new(rt.alloc()).expect(&rt, "no memory");
    let lines = write_many(lines, 6_000, &mut writer).expect(&rt, "all lines");
    let written = writer.get_ref().len();
    expect_all(
        &rt,
        &[
            written >= 131_072,
            written < 150_000,
            lines.finish(&mut writer) == Ok(()),
            writer.get_ref().len() == 6_000 * 30,
        ],
    );
}

// Two replies.
static TWO: [(u32, u64, &[u64]); 2] = [(1, 0, &[5, 6]), (1, 1, &[5, 6])];

// Writes replies to a writer that fails at this call, with an error or by taking nothing. Returns
// whether the writer failed.
fn fails_to_write(rt: &(impl AllocGlobal + Abort), calls: u64, gives_zero: bool) -> bool {
    let device = FailsAt {
        device: Vec::new(rt.alloc()),
        calls,
        gives_zero,
    };
    let mut writer = Counted::new(device);
    let two = replies_to(rt, job_types::Kind::AllReduce { op: Op::Add }, &TWO);
    let answer = write_rows(rt.alloc(), &two, &mut writer);
    let failed = writer.failures() != 0;
    expect_true(rt, tells(answer, failed, FaultKind::Write));
    failed
}

// Expects that fourteen writes fail, each at its call, and then a flush if it may fail.
fn expect_failures(rt: &(impl AllocGlobal + Abort), gives_zero: bool) {
    for calls in 0..14 {
        expect_true(rt, fails_to_write(rt, calls, gives_zero));
    }
    let flushes = fails_to_write(rt, 14, gives_zero) != gives_zero;
    expect_true(rt, flushes & !fails_to_write(rt, 15, gives_zero));
}

// The header has 41 bytes and each line 26: fourteen writes of seven bytes at most, and a flush.
#[test]
fn reports_a_failed_write(rt: HostRuntime) {
    expect_failures(&rt, false);
    expect_failures(&rt, true);
}

// Returns this many replies of lane 1, each to a broadcast of its own number.
fn many_replies(rt: &(impl AllocGlobal + Abort), count: u64) -> Vec<Reply> {
    let mut replies = Vec::new(rt.alloc());
    for seq in 0..count {
        let kind = job_types::Kind::Broadcast { root: 0 };
        let id = JobId { lane: 1, seq };
        let reply = reply_to(rt, rt.alloc(), 0, id, kind, &[seq]);
        push(rt, &mut replies, reply);
    }
    replies
}

// Returns whether this many replies are written.
fn writes_many(rt: &(impl AllocGlobal + Abort), count: u64) -> bool {
    let wanted = replies_text(rt, "1", "broadcast", true, count);
    writes(rt, many_replies(rt, count), wanted.as_bytes())
}

// The lines of the last count fill the buffer of 65,536 bytes twice.
#[test]
fn writes_any_number_of_replies(rt: HostRuntime) {
    for count in [0, 1, 64, 65, 1_000, 6_000] {
        expect_true(&rt, writes_many(&rt, count));
    }
}
