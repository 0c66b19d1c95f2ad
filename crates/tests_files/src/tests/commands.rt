//! The four commands over devices that fail, and over a large file.

ghost use Rattle.std.specs.Prelude.{◌≡◌};
ghost use Rattle.cli_args.specs.CommandLine.{AreShopSizes};

use crate::tests::facts::{expect_all, expect_true};
use crate::tests::failing_devices::{FailsAt, add, replies_text};
use cli_commands::{place_on, replay_on, report_on, run_on};
use cube_shape::{MAX_CAPACITY, MAX_DIM, MAX_DISPATCHERS};
use dispatcher::{Plain, Runner, ShopSizes};
use jobs_csv::{Counted, Device, Fault, FaultKind};
use std::alloc::Global;
use std::io::{Read, Write};
use std::process::Abort;
use std::sync::Wait;
use std::thread::Threads;

// A command of the program.
#[derive(Clone, Copy)]
enum Command {
    Run,
    Report,
    Place,
    Replay,
}

// Expects that these are the sizes of a dispatcher.
fn expect_shop(rt: &impl Abort, sizes: ShopSizes)
    ensures { AreShopSizes sizes }
{
    let ShopSizes {
        dim,
        dispatchers,
        capacity,
    } = sizes;
    assert!(rt; dim <= MAX_DIM && 1 <= capacity && capacity <= MAX_CAPACITY);
    assert!(rt; 1 <= dispatchers && dispatchers <= MAX_DISPATCHERS);
}

// Returns the sizes of a dispatcher.
pub(crate) fn sizes_of(dim: u32, dispatchers: u32, capacity: usize) -> ShopSizes
    ensures { result ≡ record { dim = dim; dispatchers = dispatchers; capacity = capacity } }
{
    ShopSizes {
        dim,
        dispatchers,
        capacity,
    }
}

// Runs `run` in a dispatcher of these sizes.
fn run_by<T: Runner + Sync, R: Read + Device, W: Write + Device>(
    rt: &(impl AllocGlobal + Abort + Threads + Wait + Clone + Send + Sync + 'static),
    sizes: ShopSizes,
    runner: &T,
    reader: &mut R,
    writer: &mut W,
) -> Result<(), Fault> {
    expect_shop(rt, sizes);
    let alloc = rt.alloc();
    let ShopSizes {
        dim,
        dispatchers,
        capacity,
    } = sizes;
    run_on(
        rt,
        alloc,
        dim,
        dispatchers,
        capacity,
        runner,
        reader,
        writer,
    )
}

// Runs `report` in a dispatcher of these sizes.
fn report_by<T: Runner + Sync, R: Read + Device, W: Write + Device>(
    rt: &(impl AllocGlobal + Abort + Threads + Wait + Clone + Send + Sync + 'static),
    sizes: ShopSizes,
    runner: &T,
    reader: &mut R,
    writer: &mut W,
) -> Result<(), Fault> {
    expect_shop(rt, sizes);
    let alloc = rt.alloc();
    let ShopSizes {
        dim,
        dispatchers,
        capacity,
    } = sizes;
    report_on(
        rt,
        alloc,
        dim,
        dispatchers,
        capacity,
        runner,
        reader,
        writer,
    )
}

// Carries out the commands of a file, on a machine of dimension 3.
fn places<R: Read + Device, W: Write + Device>(
    alloc: Global,
    reader: &mut R,
    writer: &mut W,
) -> Result<(), Fault> {
    place_on(alloc, 3, reader, writer)
}

// Plays the schedule of a file, by one station on a machine of dimension 3.
fn replays<R: Read + Device, W: Write + Device>(
    alloc: Global,
    reader: &mut R,
    writer: &mut W,
) -> Result<(), Fault> {
    replay_on(alloc, 3, 1, reader, writer)
}

// Carries out a command of the program on a machine of dimension 3.
fn answer<R: Read + Device, W: Write + Device>(
    rt: &(impl AllocGlobal + Abort + Threads + Wait + Clone + Send + Sync + 'static),
    command: Command,
    reader: &mut R,
    writer: &mut W,
) -> Result<(), Fault> {
    match command {
        Command::Run => run_by(rt, sizes_of(3, 2, 16), &Plain, reader, writer),
        Command::Report => report_by(rt, sizes_of(3, 2, 16), &Plain, reader, writer),
        Command::Place => places(rt.alloc(), reader, writer),
        Command::Replay => replays(rt.alloc(), reader, writer),
    }
}

// Returns a good file for a command.
fn good_file(command: Command) -> &'static [u8] {
    match command {
        Command::Run | Command::Report => {
            b"lane,kind,op,root,items\n1,allreduce,add,0,5 6\n0,allreduce,add,0,7\n"
        }
        Command::Place => b"command,name,dim\ntake,a,1\ntake,b,0\nfree,a,-\n",
        Command::Replay => b"station,call,arg\n0,take,1\n0,run,-\n",
    }
}

// Returns whether an answer says whether a device has failed. It must be this fault of no record if
// one has, and good if none has.
pub(crate) fn tells(answer: Result<(), Fault>, has_failed: bool, what: FaultKind) -> bool {
    let fault = Fault { row: 0, what };
    ((answer == Err(fault)) == has_failed) & ((answer == Ok(())) != has_failed)
}

// Returns the answer to the good file of a command.
fn good_answer(command: Command) -> &'static [u8] {
    match command {
        Command::Run => {
            b"lane,seq,kind,dim,result,rounds,messages\n0,0,allreduce,0,7,0,0\n1,0,allreduce,1,11 11,1,2\n"
        }
        Command::Report => {
            b"group,key,count,processors,idle\nlane,0,1,1,0\nlane,1,1,2,0\n\
              dim,0,1,1,0\ndim,1,1,2,0\ndim,2,0,0,0\ndim,3,0,0,0\n\
              free,0,8,8,0\nfree,1,4,8,0\nfree,2,2,8,0\nfree,3,1,8,0\ntotal,-,2,3,0\n"
        }
        Command::Place => {
            b"command,name,dim,base,outcome\ntake,a,1,0,given\ntake,b,0,2,given\nfree,a,1,0,freed\n"
        }
        Command::Replay => {
            b"station,event,node,word,note\n0,look,1,-,free\n0,claim,1,OLR,held\n\
              -,end,1,OLR,-\n-,end,-,-,1\n"
        }
    }
}

// Returns whether what was written in this number of calls is the beginning of what is wanted,
// seven bytes a call.
fn is_beginning(written: &[u8], wanted: &[u8], calls: u64) -> bool {
    let beginning = wanted.len().min(calls.saturating_mul(7) as usize);
    (written.len() == beginning) & wanted.starts_with(written)
}

// A call that no command makes.
const NEVER: u64 = u64::MAX;

// Returns the calls at which a reader and a writer fail, and the fault that says so. A read or a
// write must fail at this call.
fn failing(is_read: bool, calls: u64) -> (u64, u64, FaultKind) {
    if is_read {
        (calls, NEVER, FaultKind::Read)
    } else {
        (NEVER, calls, FaultKind::Write)
    }
}

// Returns whether a command fails whose reader or writer fails at this call, with an error or by
// taking nothing.
//
// The answer then says so, and is good otherwise. What was written is the beginning of the good
// answer, seven bytes a call. After a failed read it is nothing.
fn fails(
    rt: &(impl AllocGlobal + Abort + Threads + Wait + Clone + Send + Sync + 'static),
    command: Command,
    is_read: bool,
    calls: u64,
    gives_zero: bool,
) -> bool {
    let (reads, writes, what) = failing(is_read, calls);
    let mut reader = Counted::new(FailsAt::new(good_file(command), reads));
    let mut writer = Counted::new(FailsAt {
        device: Vec::new(rt.alloc()),
        calls: writes,
        gives_zero,
    });
    let answer = answer(rt, command, &mut reader, &mut writer);
    let failed = (reader.failures() | writer.failures()) != 0;
    let written = writer.get_ref().device.as_slice();
    let is_cut = is_read & failed;
    let is_silent = is_cut & written.is_empty();
    let is_so_far = !is_cut & is_beginning(written, good_answer(command), writes);
    expect_true(rt, (is_silent | is_so_far) & tells(answer, failed, what));
    failed
}

// Returns how many reads or writes a command makes, each of which is reported if it fails. Counts
// flushes too if they may fail. Returns 0 if each of a thousand calls fails.
fn calls_of(
    rt: &(impl AllocGlobal + Abort + Threads + Wait + Clone + Send + Sync + 'static),
    command: Command,
    is_read: bool,
    gives_zero: bool,
) -> u64 {
    for calls in 0..1000 {
        if !fails(rt, command, is_read, calls, gives_zero) {
            return calls;
        }
    }
    0
}

#[test]
fn reports_a_failed_read(rt: HostRuntime) {
    expect_all(
        &rt,
        &[
            calls_of(&rt, Command::Run, true, false) > 5,
            calls_of(&rt, Command::Report, true, false) > 5,
            calls_of(&rt, Command::Place, true, false) > 5,
            calls_of(&rt, Command::Replay, true, false) > 5,
        ],
    );
}

// Expects that each of these commands makes its number of writes, and then a flush.
fn expect_writes(
    rt: &(impl AllocGlobal + Abort + Threads + Wait + Clone + Send + Sync + 'static),
    rows: &[(Command, u64)],
) {
    for (command, writes) in rows {
        let found = calls_of(rt, *command, false, true);
        let with_flush = calls_of(rt, *command, false, false);
        expect_true(
            rt,
            (found == *writes) & (with_flush == writes.wrapping_add(1)),
        );
    }
}

// The answers have 89, 172, 81 and 90 bytes.
#[test]
fn reports_a_failed_write(rt: HostRuntime) {
    expect_writes(
        &rt,
        &[
            (Command::Run, 13),
            (Command::Report, 25),
            (Command::Place, 12),
            (Command::Replay, 13),
        ],
    );
}

// Returns a file of this number of jobs of one item.
fn long_input(rt: &(impl AllocGlobal + Abort), count: u64) -> Vec<u8> {
    let mut input = Vec::new(rt.alloc());
    add(rt, &mut input, b"lane,kind,op,root,items\n");
    for _ in 0..count {
        add(rt, &mut input, b"3,scan,add,0,1\n");
    }
    input
}

// Returns a file of this number of jobs of one item, and their replies.
pub(crate) fn long_file(rt: &(impl AllocGlobal + Abort), count: u64) -> (Vec<u8>, String) {
    (
        long_input(rt, count),
        replies_text(rt, "3", "scan", false, count),
    )
}

// Returns whether a run or a report of this file, in a dispatcher of these sizes, is good and
// writes all of this.
pub(crate) fn writes_all<T: Runner + Sync>(
    rt: &(impl AllocGlobal + Abort + Threads + Wait + Clone + Send + Sync + 'static),
    is_report: bool,
    sizes: ShopSizes,
    runner: &T,
    input: &[u8],
    wanted: &[u8],
) -> bool {
    let mut reader = Counted::new(input);
    let mut writer = Counted::new(Vec::new(rt.alloc()));
    let answer = if is_report {
        report_by(rt, sizes, runner, &mut reader, &mut writer)
    } else {
        run_by(rt, sizes, runner, &mut reader, &mut writer)
    };
    let failures = reader.failures().saturating_add(writer.failures());
    (answer == Ok(())) & (failures == 0) & (writer.get_ref().as_slice() == wanted)
}

// Returns whether this is a long beginning of the wanted bytes, of 20,000 calls of seven bytes at
// most.
fn is_long_beginning(written: &[u8], wanted: &[u8]) -> bool {
    (written.len() > 139_900) & (written.len() <= 140_000) & wanted.starts_with(written)
}

// Returns whether a run of this file, whose writer fails after 20,000 calls, wrote the beginning of
// the wanted bytes.
fn writes_beginning(
    rt: &(impl AllocGlobal + Abort + Threads + Wait + Clone + Send + Sync + 'static),
    input: &[u8],
    wanted: &[u8],
) -> bool {
    let mut reader = Counted::new(input);
    let mut writer = Counted::new(FailsAt::new(Vec::new(rt.alloc()), 20_000));
    let answer = run_by(rt, sizes_of(0, 2, 16), &Plain, &mut reader, &mut writer);
    let is_told = tells(answer, true, FaultKind::Write);
    is_told & is_long_beginning(&writer.get_ref().device, wanted)
}

// The replies are written in several pieces. What was written before a failed write is their
// beginning.
#[test]
fn writes_long_files(rt: HostRuntime) {
    let (input, wanted) = long_file(&rt, 8_000);
    let (input, wanted) = (input.as_slice(), wanted.as_bytes());
    expect_all(
        &rt,
        &[
            wanted.len() > 150_000,
            writes_all(&rt, false, sizes_of(0, 2, 16), &Plain, input, wanted),
            writes_beginning(&rt, input, wanted),
        ],
    );
}
