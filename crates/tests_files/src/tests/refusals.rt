//! Files that are refused, in each of the three formats.

use crate::tests::facts::expect_true;
use crate::tests::failing_devices::{FailsAt, add, joined};
use cube_shape::MAX_DIM;
use job_types::JobRefused;
use jobs_csv::{Counted, Device, Fault, FaultKind, read_jobs, read_place, read_schedule};
use std::alloc::Global;
use std::process::Abort;

const JOBS: &[u8] = b"lane,kind,op,root,items\n";

const COMMANDS: &[u8] = b"command,name,dim\n";

const CALLS: &[u8] = b"station,call,arg\n";

// The format of a file.
#[derive(Clone, Copy)]
enum Format {
    Jobs,
    Commands,
    Calls,
}

// Returns the fault of a file, for a machine of dimension 3, if it has one.
fn fault_of(alloc: Global, format: Format, input: &[u8]) -> Option<Fault> {
    let mut reader = Counted::new(input);
    match format {
        Format::Jobs => read_jobs(alloc, 3, &mut reader).err(),
        Format::Commands => read_place(alloc, 3, &mut reader).err(),
        Format::Calls => read_schedule(alloc, &mut reader).err(),
    }
}

// Returns whether a file of this format has this fault.
fn has_fault(alloc: Global, format: Format, input: &[u8], row: u64, what: FaultKind) -> bool {
    fault_of(alloc, format, input) == Some(Fault { row, what })
}

// Expects that a file that begins with this head and ends with any of these texts has this fault at
// this record.
fn expect_faults(
    rt: &(impl AllocGlobal + Abort),
    format: Format,
    head: &[u8],
    row: u64,
    rows: &[(&[u8], FaultKind)],
) {
    for (text, what) in rows {
        let input = joined(rt, head, text);
        expect_true(rt, has_fault(rt.alloc(), format, &input, row, *what));
    }
}

// Bad headers of a file of jobs.
static JOB_HEADERS: [(&[u8], FaultKind); 8] = [
    (b"", FaultKind::Fields),
    (b"\n\n", FaultKind::Fields),
    (b"lane,kind,op,root\n", FaultKind::Fields),
    (b"lane,kind,op,root,items,more\n", FaultKind::Fields),
    (b"lane,kind,op,root,item\n", FaultKind::Word),
    (b"Lane,kind,op,root,items\n", FaultKind::Word),
    (b"lane,kind,op,root, items\n", FaultKind::Word),
    (
        b"\xEF\xBB\xBF\xEF\xBB\xBFlane,kind,op,root,items\n",
        FaultKind::Word,
    ),
];

// Bad headers of a file of commands.
static COMMAND_HEADERS: [(&[u8], FaultKind); 8] = [
    (b"", FaultKind::Fields),
    (b"\n\n", FaultKind::Fields),
    (b"command,name\n", FaultKind::Fields),
    (b"command,name,dim,base\n", FaultKind::Fields),
    (b"command,name,dims\n", FaultKind::Word),
    (b"Command,name,dim\ntake,A,1\n", FaultKind::Word),
    (b"command, name,dim\n", FaultKind::Word),
    (b"station,call,arg\n", FaultKind::Word),
];

// Bad headers of a file of calls.
static CALL_HEADERS: [(&[u8], FaultKind); 5] = [
    (b"", FaultKind::Fields),
    (b"station,call\n", FaultKind::Fields),
    (b"station,call,args\n", FaultKind::Word),
    (b"station,Call,arg\nx,run,-\n", FaultKind::Word),
    (b"command,name,dim\n", FaultKind::Word),
];

#[test]
fn refuses_headers(rt: HostRuntime) {
    expect_faults(&rt, Format::Jobs, b"", 0, &JOB_HEADERS);
    expect_faults(&rt, Format::Commands, b"", 0, &COMMAND_HEADERS);
    expect_faults(&rt, Format::Calls, b"", 0, &CALL_HEADERS);
}

// Records of jobs for a machine of dimension 3, and why each is refused.
static REFUSED_JOBS: [(&[u8], FaultKind); 62] = [
    (b"0,allreduce,add,0\n", FaultKind::Fields),
    (b"0,allreduce,add,0,1,2\n", FaultKind::Fields),
    (b" \n", FaultKind::Fields),
    (b"\"\"\n", FaultKind::Fields),
    (b"16,allreduce,add,0,4\n", FaultKind::Number),
    (b"4294967296,allreduce,add,0,4\n", FaultKind::Number),
    (b",allreduce,add,0,4\n", FaultKind::Number),
    (b"00,allreduce,add,0,4\n", FaultKind::Number),
    (b"+1,allreduce,add,0,4\n", FaultKind::Number),
    (b" 1,allreduce,add,0,4\n", FaultKind::Number),
    (b"0x1,allreduce,add,0,4\n", FaultKind::Number),
    (b"16,scan,add,0,4\n", FaultKind::Number),
    (b"0,gather,add,0,4\n", FaultKind::Word),
    (b"0,Scan,add,0,4\n", FaultKind::Word),
    (b"0,scan,plus,0,4\n", FaultKind::Word),
    (b"0,scan,-,0,4\n", FaultKind::Word),
    (b"0,exscan,-,0,4\n", FaultKind::Word),
    (b"0,exscan,plus,0,4\n", FaultKind::Word),
    (b"0,Exscan,add,0,4\n", FaultKind::Word),
    (b"0,exscans,add,0,4\n", FaultKind::Word),
    (b"0,exscan,add,x,4\n", FaultKind::Number),
    (b"0,allreduce,plus,0,4\n", FaultKind::Word),
    (b"0,reduce,-,0,1\n", FaultKind::Word),
    (b"0,reduce,,0,4\n", FaultKind::Word),
    (b"0,broadcast,add,0,1\n", FaultKind::Word),
    (b"0,broadcast,add,0,4\n", FaultKind::Word),
    (b"0,broadcast,,0,4\n", FaultKind::Word),
    (b"0,broadcast,-,-,4\n", FaultKind::Number),
    (b"0,,add,0,4\n", FaultKind::Word),
    (b"0,allreduce ,add,0,4\n", FaultKind::Word),
    (b"0,\xFF,add,0,4\n", FaultKind::Word),
    (b"0,allreduce,-,x,4\n", FaultKind::Word),
    (b"0,allreduce,add,00,1\n", FaultKind::Number),
    (b"0,allreduce,add,,1\n", FaultKind::Number),
    (b"0,allreduce,add,-1,1\n", FaultKind::Number),
    (b"0,allreduce,add,1,1 x\n", FaultKind::Number),
    (b"0,allreduce,add,0,1  2\n", FaultKind::Number),
    (b"0,allreduce,add,0, 1 2\n", FaultKind::Number),
    (b"0,allreduce,add,0, \n", FaultKind::Number),
    (b"0,allreduce,add,0,1 02\n", FaultKind::Number),
    (
        b"0,allreduce,add,0,18446744073709551616\n",
        FaultKind::Number,
    ),
    (b"0,broadcast,-,1,\n", FaultKind::Job(JobRefused::Empty)),
    (b"0,broadcast,-,9,\n", FaultKind::Job(JobRefused::Empty)),
    (b"0,allreduce,add,0,\n", FaultKind::Job(JobRefused::Empty)),
    (
        b"0,broadcast,-,3,1 2 3\n",
        FaultKind::Job(JobRefused::BadRoot),
    ),
    (
        b"0,broadcast,-,9,1 2 3\n",
        FaultKind::Job(JobRefused::BadRoot),
    ),
    (
        b"0,reduce,max,7,1 2 3 4 5\n",
        FaultKind::Job(JobRefused::BadRoot),
    ),
    (
        b"0,broadcast,-,9,1 1 1 1 1 1 1 1 1\n",
        FaultKind::Job(JobRefused::TooLarge),
    ),
    (
        b"0,broadcast,-,2,4 9\n",
        FaultKind::Job(JobRefused::BadRoot),
    ),
    (
        b"0,reduce,max,4,1 2 3 4\n",
        FaultKind::Job(JobRefused::BadRoot),
    ),
    (b"0,scan,add,1,4 9\n", FaultKind::Job(JobRefused::BadRoot)),
    (b"0,scan,add,1,1 2 3\n", FaultKind::Job(JobRefused::BadRoot)),
    (b"0,exscan,add,1,4 9\n", FaultKind::Job(JobRefused::BadRoot)),
    (b"0,exscan,add,1,\n", FaultKind::Job(JobRefused::Empty)),
    (
        b"0,exscan,add,1,1 1 1 1 1 1 1 1 1\n",
        FaultKind::Job(JobRefused::TooLarge),
    ),
    (
        b"0,reduce,add,99,1 1 1 1 1 1 1 1 1 1 1 1 1 1 1 1\n",
        FaultKind::Job(JobRefused::TooLarge),
    ),
    (b"0,scan,add,0,\n", FaultKind::Job(JobRefused::Empty)),
    (b"0,allreduce,add,1,\n", FaultKind::Job(JobRefused::Empty)),
    (
        b"0,allreduce,add,1,1 2 3\n",
        FaultKind::Job(JobRefused::BadRoot),
    ),
    (
        b"0,allreduce,add,1,1 1 1 1 1 1 1 1 1 1 1 1 1 1 1 1\n",
        FaultKind::Job(JobRefused::TooLarge),
    ),
    (
        b"0,allreduce,add,1,4 9\n",
        FaultKind::Job(JobRefused::BadRoot),
    ),
    (
        b"0,allreduce,add,18446744073709551615,4\n",
        FaultKind::Job(JobRefused::BadRoot),
    ),
];

#[test]
fn refuses_jobs(rt: HostRuntime) {
    expect_faults(&rt, Format::Jobs, JOBS, 1, &REFUSED_JOBS);
}

// Commands for a machine of dimension 3, and why each is refused.
static REFUSED_COMMANDS: [(&[u8], FaultKind); 22] = [
    (b"take,A,1\n", FaultKind::Word),
    (b"take,abcdefghijklmnopq,1\n", FaultKind::Word),
    (b"take,a,4\n", FaultKind::Number),
    (b"free,a,0\n", FaultKind::Word),
    (b"take,a\n", FaultKind::Fields),
    (b"take,a,1,2\n", FaultKind::Fields),
    (b" \n", FaultKind::Fields),
    (b"\"\"\n", FaultKind::Fields),
    (b"give,A,x\n", FaultKind::Word),
    (b"Take,a,1\n", FaultKind::Word),
    (b",a,1\n", FaultKind::Word),
    (b"\xFF,a,1\n", FaultKind::Word),
    (b"take,,x\n", FaultKind::Word),
    (b"take,a_b,1\n", FaultKind::Word),
    (b"free,a\xFF,-\n", FaultKind::Word),
    (b"take,a,-\n", FaultKind::Number),
    (b"take,a,\n", FaultKind::Number),
    (b"take,a,00\n", FaultKind::Number),
    (b"take,a,+1\n", FaultKind::Number),
    (b"take,a,18446744073709551616\n", FaultKind::Number),
    (b"free,a,\n", FaultKind::Word),
    (b"free,a,--\n", FaultKind::Word),
];

#[test]
fn refuses_commands(rt: HostRuntime) {
    expect_faults(&rt, Format::Commands, COMMANDS, 1, &REFUSED_COMMANDS);
}

// Calls, and why each is refused.
static REFUSED_CALLS: [(&[u8], FaultKind); 18] = [
    (b"0,step,101\n", FaultKind::Number),
    (b"0,run,1\n", FaultKind::Word),
    (b"0,step,0\n", FaultKind::Number),
    (b"0,step,-\n", FaultKind::Number),
    (b"0,step,01\n", FaultKind::Number),
    (b"0,take,-\n", FaultKind::Number),
    (b"0,take,\n", FaultKind::Number),
    (b"0,take,18446744073709551616\n", FaultKind::Number),
    (b"0,release,0\n", FaultKind::Word),
    (b"0,retire,\n", FaultKind::Word),
    (b"0,walk,-\n", FaultKind::Word),
    (b"0,Run,-\n", FaultKind::Word),
    (b"0,,-\n", FaultKind::Word),
    (b"00,walk,-\n", FaultKind::Number),
    (b",run,-\n", FaultKind::Number),
    (b"-,run,-\n", FaultKind::Number),
    (b"0,run\n", FaultKind::Fields),
    (b"0,run,-,-\n", FaultKind::Fields),
];

#[test]
fn refuses_calls(rt: HostRuntime) {
    let head = joined(&rt, CALLS, b"0,run,-\n");
    expect_faults(&rt, Format::Calls, &head, 2, &REFUSED_CALLS);
}

#[test]
fn reports_the_first_fault(rt: HostRuntime) {
    let head = joined(&rt, JOBS, b"0,allreduce,add,0,1 2\n");
    expect_faults(
        &rt,
        Format::Jobs,
        &head,
        2,
        &[
            (b"0,scan,add,0,1 2 ", FaultKind::Number),
            (b"0,allreduce,add\n16,x,x,x,x\n", FaultKind::Fields),
        ],
    );
    let head = joined(&rt, COMMANDS, b"take,a,1\n");
    let rows = &[(b"take,b,9\ntake,C,1\n".as_slice(), FaultKind::Number)];
    expect_faults(&rt, Format::Commands, &head, 2, rows);
}

// Returns a file of one command more than a file may have.
fn too_many(rt: &(impl AllocGlobal + Abort)) -> Vec<u8> {
    let mut text = Vec::new(rt.alloc());
    add(rt, &mut text, COMMANDS);
    for _ in 0..1_000_001 {
        add(rt, &mut text, b"free,a,-\n");
    }
    text
}

#[test]
fn refuses_too_many(rt: HostRuntime) {
    let text = too_many(&rt);
    let (row, what) = (1_000_001, FaultKind::TooMany);
    expect_true(
        &rt,
        has_fault(rt.alloc(), Format::Commands, &text, row, what),
    );
}

// Returns whether a fault says whether a reader has failed. It must be a failed read if one has,
// and there must be none otherwise.
fn tells(fault: Option<Fault>, has_failed: bool) -> bool {
    let (row, what) = (0, FaultKind::Read);
    ((fault == Some(Fault { row, what })) == has_failed) & ((fault == None) != has_failed)
}

// Returns whether a reader that fails at this call has failed.
fn fails_to_read(rt: &(impl AllocGlobal + Abort), calls: u64) -> bool {
    let text = b"command,name,dim\ntake,a,1\nfree,a,-\n".as_slice();
    let mut reader = Counted::new(FailsAt::new(text, calls));
    let fault = read_place(rt.alloc(), 3, &mut reader).err();
    let failed = reader.failures() != 0;
    expect_true(rt, tells(fault, failed));
    failed
}

// Returns how many reads there are, each of which is reported if it fails. Returns 0 if each of a
// thousand fails.
fn reads(rt: &(impl AllocGlobal + Abort)) -> u64 {
    for calls in 0..1000 {
        if !fails_to_read(rt, calls) {
            return calls;
        }
    }
    0
}

#[test]
fn reports_a_failed_read(rt: HostRuntime) {
    expect_true(&rt, reads(&rt) > 4);
}
