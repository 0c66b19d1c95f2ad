//! Files that are read.

use crate::tests::facts::{expect_all, expect_true};
use crate::tests::failing_devices::{joined, push};
use crate::tests::jobs::{answered, expect_lane, is_job};
use job_types::{Job, JobId, Kind, Op, Reply};
use jobs_csv::{
    Command, Counted, Device, Fault, FaultKind, Line, Name, RecordCount, read_jobs, read_lanes,
    read_lanes_with, read_place, read_schedule, write_rows,
};
use std::alloc::Global;
use std::collections::VecDeque;
use std::process::Abort;

const JOBS: &[u8] = b"lane,kind,op,root,items\n";

const REPLIES: &[u8] = b"lane,seq,kind,dim,result,rounds,messages\n";

const COMMANDS: &[u8] = b"command,name,dim\n";

const CALLS: &[u8] = b"station,call,arg\n";

// Returns the jobs of a file.
fn jobs_of(rt: &(impl AllocGlobal + Abort), n: u32, input: &[u8]) -> Vec<Job> {
    expect_lane(rt, n, 0);
    let mut reader = Counted::new(input);
    let jobs = read_jobs(rt.alloc(), n, &mut reader).expect(rt, "jobs");
    expect_true(rt, reader.failures() == 0);
    jobs
}

const SECOND_XOR: Kind = Kind::Reduce {
    op: Op::Xor,
    root: 1,
};

#[test]
fn reads_jobs(rt: HostRuntime) {
    let input = joined(&rt, JOBS, b"15,reduce,xor,1,4 18446744073709551615\n");
    let jobs = jobs_of(&rt, 3, &input);
    let only = jobs.first().expect(&rt, "a job");
    expect_true(
        &rt,
        (jobs.len() == 1) & is_job(only, 3, 15, 1, SECOND_XOR, &[4, u64::MAX]),
    );
}

// Returns whether a job has one item, and that item is this.
fn is_of(job: &Job, item: Option<&u64>) -> bool {
    let items = job.items();
    (items.len() == 1) & (items.first() == item)
}

// Expects that the jobs of a lane have these items, one each.
fn expect_items(rt: &impl Abort, jobs: &VecDeque<Job>, wanted: &[u64]) {
    expect_true(rt, jobs.len() == wanted.len());
    for (place, job) in jobs.iter().enumerate() {
        expect_true(rt, is_of(job, wanted.get(place)));
    }
}

// Returns the jobs of a file for a machine of dimension 3, lane by lane.
fn lanes_of(alloc: Global, input: &[u8]) -> Result<Vec<VecDeque<Job>>, Fault> {
    read_lanes(alloc, 3, &mut Counted::new(input))
}

// Returns how many lanes a file for a machine of dimension 3 has, and how many jobs an observer
// saw.
fn lanes_and_jobs(alloc: Global, input: &[u8]) -> Result<(usize, u64), Fault> {
    let mut reader = Counted::new(input);
    let (lanes, count) = read_lanes_with(alloc, 3, RecordCount::new(), &mut reader)?;
    Ok((lanes.len(), count.seen))
}

// Returns the items of the jobs of a lane in the file of five jobs, one each.
fn items_of_lane(lane: usize) -> &'static [u64] {
    match lane {
        0 => &[6],
        3 => &[5, 7, 5],
        15 => &[8],
        _ => &[],
    }
}

// Expects that there are 16 lanes, of these jobs.
fn expect_lanes(rt: &impl Abort, lanes: &[VecDeque<Job>]) {
    expect_true(rt, lanes.len() == 16);
    for (lane, jobs) in lanes.iter().enumerate() {
        expect_items(rt, jobs, items_of_lane(lane));
    }
}

#[test]
fn reads_lanes(rt: HostRuntime) {
    let records =
        b"3,scan,add,0,5\n0,scan,add,0,6\n3,scan,add,0,7\n15,scan,add,0,8\n3,scan,add,0,5\n";
    let input = joined(&rt, JOBS, records);
    expect_lanes(&rt, &lanes_of(rt.alloc(), &input).expect(&rt, "lanes"));
    let (row, what) = (0, FaultKind::Fields);
    expect_all(
        &rt,
        &[
            lanes_and_jobs(rt.alloc(), &input) == Ok((16, 5)),
            lanes_of(rt.alloc(), b"lane,kind\n").err() == Some(Fault { row, what }),
        ],
    );
}

// Returns the reply to a job of a file, the first of its lane.
fn first_answered(job: Job) -> Reply {
    let lane = job.lane();
    answered(job, JobId { lane, seq: 0 })
}

// Returns whether the file of these replies is this.
pub(crate) fn writes(rt: &(impl AllocGlobal + Abort), replies: Vec<Reply>, wanted: &[u8]) -> bool {
    let mut writer = Counted::new(Vec::new(rt.alloc()));
    let answer = write_rows(rt.alloc(), &replies, &mut writer);
    (answer == Ok(())) & (writer.failures() == 0) & (writer.get_ref().as_slice() == wanted)
}

// Returns the replies to the jobs of a file.
fn replies_to(rt: &(impl AllocGlobal + Abort), n: u32, input: &[u8]) -> Vec<Reply> {
    let mut replies = Vec::new(rt.alloc());
    for job in jobs_of(rt, n, input) {
        push(rt, &mut replies, first_answered(job));
    }
    replies
}

// Expects that these records of jobs, for a machine of dimension `n`, have replies with these
// records.
fn expect_answer(rt: &(impl AllocGlobal + Abort), n: u32, records: &str, wanted: &str) {
    let replies = replies_to(rt, n, &joined(rt, JOBS, records.as_bytes()));
    let wanted = joined(rt, REPLIES, wanted.as_bytes());
    expect_true(rt, writes(rt, replies, &wanted));
}

// Expects what each row says. A row is the dimension of a machine, records of jobs for it and the
// records of their replies. The records are of as many lanes as there are records.
fn expect_replies(rt: &(impl AllocGlobal + Abort), rows: &[(u32, &str, &str)]) {
    for (n, records, wanted) in rows {
        expect_answer(rt, *n, records, wanted);
    }
}

// Jobs of each kind. The rows are those of `expect_replies`.
static ANSWERS: [(u32, &str, &str); 9] = [
    (3, "", ""),
    (
        3,
        "0,allreduce,add,0,1 2 3 4\n",
        "0,0,allreduce,2,10 10 10 10,2,8\n",
    ),
    (
        1,
        "0,allreduce,add,0,18446744073709551615 1\n",
        "0,0,allreduce,1,0 0,1,2\n",
    ),
    (
        3,
        "0,scan,add,0,1 2 3 4 5 6 7 8\n",
        "0,0,scan,3,1 3 6 10 15 21 28 36,3,24\n",
    ),
    (
        2,
        "0,reduce,min,2,5 3 9 4\n1,broadcast,-,1,4 9\n",
        "0,0,reduce,2,- - 3 -,2,3\n1,0,broadcast,1,9 9,1,1\n",
    ),
    (0, "0,scan,add,0,7\n", "0,0,scan,0,7,0,0\n"),
    (
        3,
        "0,exscan,add,0,1 2 3 4 5 6 7 8\n1,exscan,min,0,9 4 7\n",
        "0,0,exscan,3,0 1 3 6 10 15 21 28,3,24\n1,0,exscan,2,18446744073709551615 9 4,2,8\n",
    ),
    (0, "0,exscan,add,0,7\n", "0,0,exscan,0,0,0,0\n"),
    (
        3,
        "1,allreduce,xor,0,5 6\n0,scan,max,0,2 9 4 7\n1,reduce,or,1,8 1\n",
        "1,0,allreduce,1,3 3,1,2\n0,0,scan,2,2 9 9 9,2,8\n1,0,reduce,1,- 9,1,1\n",
    ),
];

#[test]
fn answers_jobs(rt: HostRuntime) {
    expect_replies(&rt, &ANSWERS);
}

// Jobs of each operation. The rows are those of `expect_replies`.
static OPERATIONS: [(u32, &str, &str); 11] = [
    (2, "0,scan,add,0,5 3 9 4\n", "0,0,scan,2,5 8 17 21,2,8\n"),
    (2, "0,scan,min,0,5 3 9 4\n", "0,0,scan,2,5 3 3 3,2,8\n"),
    (2, "0,scan,max,0,5 3 9 4\n", "0,0,scan,2,5 5 9 9,2,8\n"),
    (2, "0,scan,xor,0,5 3 9 4\n", "0,0,scan,2,5 6 15 11,2,8\n"),
    (2, "0,scan,and,0,5 3 9 4\n", "0,0,scan,2,5 1 1 0,2,8\n"),
    (2, "0,scan,or,0,5 3 9 4\n", "0,0,scan,2,5 7 15 15,2,8\n"),
    (2, "0,exscan,add,0,5 3 9 4\n", "0,0,exscan,2,0 5 8 17,2,8\n"),
    (2, "0,exscan,max,0,5 3 9 4\n", "0,0,exscan,2,0 5 5 9,2,8\n"),
    (2, "0,exscan,xor,0,5 3 9 4\n", "0,0,exscan,2,0 5 6 15,2,8\n"),
    (2, "0,exscan,or,0,5 3 9 4\n", "0,0,exscan,2,0 5 7 15,2,8\n"),
    (
        2,
        "0,exscan,min,0,5 3 9 4\n1,exscan,and,0,5 3 9 4\n",
        "0,0,exscan,2,18446744073709551615 5 3 3,2,8\n\
                1,0,exscan,2,18446744073709551615 5 1 1,2,8\n",
    ),
];

#[test]
fn answers_all_operations(rt: HostRuntime) {
    expect_replies(&rt, &OPERATIONS);
}

const REPLY: &str = "0,0,allreduce,1,3 3,1,2\n";

// One job, spelt in several ways. The rows are those of `expect_replies`.
static SPELLINGS: [(u32, &str, &str); 5] = [
    (3, "\"0\",allreduce,add,0,\"1 2\"\n", REPLY),
    (3, "0,allreduce,add,0,1 2", REPLY),
    (3, "0,allreduce,add,0,\"1 2", REPLY),
    (3, "0,allreduce,add,0,1 2\r\n", REPLY),
    (3, "\n\n0,allreduce,add,0,1 2\n\n", REPLY),
];

#[test]
fn reads_what_csv_reads(rt: HostRuntime) {
    expect_replies(&rt, &SPELLINGS);
    let marked = b"\xEF\xBB\xBF\r\nlane,\"kind\",op,root,items\r\n0,allreduce,add,0,1 2\r\n";
    expect_true(&rt, jobs_of(&rt, 3, marked).len() == 1);
}

// Returns whether a file, for a machine of dimension 3, has these commands.
fn has_commands(alloc: Global, input: &[u8], wanted: &[Command]) -> bool {
    let mut reader = Counted::new(input);
    match read_place(alloc, 3, &mut reader) {
        Ok(commands) => (reader.failures() == 0) & (commands.as_slice() == wanted),
        Err(_) => false,
    }
}

// Expects that each of these texts of records is that of these commands.
fn expect_commands(rt: &(impl AllocGlobal + Abort), texts: &[&[u8]], wanted: &[Command]) {
    for records in texts {
        let input = joined(rt, COMMANDS, records);
        expect_true(rt, has_commands(rt.alloc(), &input, wanted));
    }
}

// Returns the name that has this text.
pub(crate) fn name_of(rt: &impl Abort, text: &[u8]) -> Name {
    Name::new(text).expect(rt, "a name")
}

#[test]
fn reads_commands(rt: HostRuntime) {
    expect_commands(&rt, &[b""], &[]);
    let (a, long) = (name_of(&rt, b"a"), name_of(&rt, b"abcdefghijklmno9"));
    expect_commands(
        &rt,
        &[
            b"take,a,3\ntake,abcdefghijklmno9,0\nfree,a,-\n",
            b"\r\n\"take\",a,\"3\"\r\n\ntake,abcdefghijklmno9,0\n\nfree,\"a\",-",
        ],
        &[
            Command::Take { name: a, dim: 3 },
            Command::Take { name: long, dim: 0 },
            Command::Free { name: a },
        ],
    );
}

// Returns whether a file has these calls.
fn has_calls(alloc: Global, input: &[u8], wanted: &[Line]) -> bool {
    let mut reader = Counted::new(input);
    match read_schedule(alloc, &mut reader) {
        Ok(lines) => (reader.failures() == 0) & (lines.as_slice() == wanted),
        Err(_) => false,
    }
}

// Expects that a file of these records has these calls.
fn expect_calls(rt: &(impl AllocGlobal + Abort), records: &[u8], wanted: &[Line]) {
    expect_true(
        rt,
        has_calls(rt.alloc(), &joined(rt, CALLS, records), wanted),
    );
}

// The calls of a file of each kind of call.
static CALLED: [Line; 7] = [
    Line::Take {
        station: 0,
        node: 4,
    },
    Line::Run { station: 0 },
    Line::Release { station: 0 },
    Line::Step {
        station: 0,
        times: 1,
    },
    Line::Step {
        station: 47,
        times: 100,
    },
    Line::Take {
        station: 5,
        node: 0,
    },
    Line::Retire { station: u64::MAX },
];

#[test]
fn reads_schedules(rt: HostRuntime) {
    expect_calls(
        &rt,
        b"0,take,4\n0,run,-\n0,release,-\n0,step,1\n47,step,100\n5,take,0\n18446744073709551615,retire,-",
        &CALLED,
    );
}
