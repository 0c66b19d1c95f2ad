//! The events of a run, over devices that fail.

ghost use Rattle.std.specs.Prelude.{◌≡◌, true};
ghost use Rattle.cli_args.specs.CommandLine.{IsWithinLimits};

use crate::tests::commands::sizes_of;
use crate::tests::facts::{expect_all, expect_true};
use crate::tests::failing_devices::FailsAt;
use cli_args::{Invocation, ShopOptions};
use cli_commands::{EventSink, EventsFile, FileRun, NoEvents, Task, answer, run_file};
use dispatcher::Plain;
use floor_tree::TreeFloor;
use job_events::{JobEvent, Step};
use jobs_csv::{Counted, Device, Fault, FaultKind};
use line_ruled::RuledLine;
use std::io::Write;
use std::process::Abort;
use std::sync::Wait;
use std::thread::Threads;

// A job of four numbers, and all that is written of it on four processors.
const JOB: &[u8] = b"lane,kind,op,root,items\n0,allreduce,add,0,1 2 3 4\n";

const REPLY: &str = "lane,seq,kind,dim,result,rounds,messages\n0,0,allreduce,2,10 10 10 10,2,8\n";

const VALUES: &str = "lane,seq,place,value\n0,0,0,10\n0,0,1,10\n0,0,2,10\n0,0,3,10\n";

const TOTALS: &str = "group,key,count,processors,idle\nlane,0,1,4,0\ndim,0,0,0,0\ndim,1,0,0,0\n\
    dim,2,1,4,0\nfree,0,4,4,0\nfree,1,2,4,0\nfree,2,1,4,0\ntotal,-,1,4,0\n";

const EVENTS: &str = "command,name,dim,base,outcome\ntake,l0s0,2,0,given\nfree,l0s0,2,0,freed\n";

const NO_EVENTS: &str = "command,name,dim,base,outcome\n";

// A file whose second job is refused.
const REFUSED: &[u8] = b"lane,kind,op,root,items\n0,allreduce,add,0,1\n0,allreduce,add,0,x\n";

// Returns the options of a run by one dispatcher on four processors.
fn options() -> ShopOptions
    ensures { result ≡ record {
      sizes = record { dim = 2; dispatchers = 1; capacity = 1 };
      is_quiet = true;
    } }
{
    ShopOptions {
        sizes: sizes_of(2, 1, 1),
        is_quiet: true,
    }
}

// Records a command on this input, and writes the events to this device.
fn record_on<H, W, V>(
    rt: &H,
    invocation: Invocation,
    input: &[u8],
    writer: &mut W,
    file: V,
) -> (Result<(), Fault>, V)
where
    H: AllocGlobal + Abort + Threads + Wait + Clone + Send + Sync + 'static,
    W: Write + Device,
    V: Write + Device + Send,
    requires { IsWithinLimits invocation }
{
    let runner = &Plain;
    let task = Task {
        invocation,
        runner,
        is_last: false,
    };
    let mut reader = Counted::new(input);
    let alloc = rt.alloc();
    let mut events = EventsFile { alloc, file };
    let terminal = &mut None::<Vec<u8>>;
    let done = answer(rt, task, &mut reader, writer, terminal, &mut events);
    let EventsFile { alloc: _, file } = events;
    (done, file)
}

// Expects that a command on this input is done, and writes these rows and these events.
fn expect_recorded<H>(rt: &H, invocation: Invocation, input: &[u8], rows: &str, events: &str)
where
    H: AllocGlobal + Abort + Threads + Wait + Clone + Send + Sync + 'static,
    requires { IsWithinLimits invocation }
{
    let mut writer = Counted::new(Vec::new(rt.alloc()));
    let file = Counted::new(Vec::new(rt.alloc()));
    let (answer, file) = record_on(rt, invocation, input, &mut writer, file);
    expect_all(
        rt,
        &[
            answer == Ok(()),
            writer.get_ref().as_slice() == rows.as_bytes(),
            file.get_ref().as_slice() == events.as_bytes(),
        ],
    );
}

#[test]
fn commands_write_rows_and_events(rt: HostRuntime) {
    expect_recorded(&rt, Invocation::Run(options()), JOB, REPLY, EVENTS);
    expect_recorded(&rt, Invocation::RunLong(options()), JOB, VALUES, EVENTS);
    expect_recorded(&rt, Invocation::Report(options()), JOB, TOTALS, EVENTS);
}

#[test]
fn commands_that_run_no_jobs_have_no_events(rt: HostRuntime) {
    let commands = b"command,name,dim\ntake,a,0\n".as_slice();
    let rows = "command,name,dim,base,outcome\ntake,a,0,0,given\n";
    expect_recorded(&rt, Invocation::Place { n: 2 }, commands, rows, NO_EVENTS);
}

// The output is whole if only the file of the events fails, and the fault is that of writing.
#[test]
fn events_that_cannot_be_written_fail(rt: HostRuntime) {
    for call in 0..3 {
        let mut writer = Counted::new(Vec::new(rt.alloc()));
        let file = Counted::new(FailsAt::new(Vec::new(rt.alloc()), call));
        let (answer, file) = record_on(&rt, Invocation::Run(options()), JOB, &mut writer, file);
        expect_all(
            &rt,
            &[
                answer
                    == Err(Fault {
                        row: 0,
                        what: FaultKind::Write,
                    }),
                writer.get_ref().as_slice() == REPLY.as_bytes(),
                file.failures() == 1,
            ],
        );
    }
}

// The events are written if only the output fails.
#[test]
fn rows_that_cannot_be_written_fail(rt: HostRuntime) {
    let mut writer = Counted::new(FailsAt::new(Vec::new(rt.alloc()), 0));
    let file = Counted::new(Vec::new(rt.alloc()));
    let (answer, file) = record_on(&rt, Invocation::Run(options()), JOB, &mut writer, file);
    expect_all(
        &rt,
        &[
            answer
                == Err(Fault {
                    row: 0,
                    what: FaultKind::Write,
                }),
            file.get_ref().as_slice() == EVENTS.as_bytes(),
        ],
    );
}

#[test]
fn a_refused_file_writes_nothing(rt: HostRuntime) {
    let mut writer = Counted::new(Vec::new(rt.alloc()));
    let file = Counted::new(Vec::new(rt.alloc()));
    let (answer, file) = record_on(&rt, Invocation::Run(options()), REFUSED, &mut writer, file);
    expect_all(
        &rt,
        &[
            answer
                == Err(Fault {
                    row: 2,
                    what: FaultKind::Number,
                }),
            writer.get_ref().is_empty(),
            file.get_ref().is_empty(),
        ],
    );
}

// Returns the events of the job's run, whose sink is this one.
fn events_in<H, K>(rt: &H, sink: &K) -> Vec<JobEvent>
where
    H: AllocGlobal + Abort + Threads + Wait + Clone + Send + Sync + 'static,
    K: EventSink,
{
    let ran = run_file::<H, RuledLine, TreeFloor, Plain, _, Vec<u8>, K>(
        rt,
        options(),
        &Plain,
        &mut Counted::new(JOB),
        &mut None,
        sink,
    );
    let FileRun { end: _, events } = ran.ok().expect(rt, "the file is good");
    events
}

#[test]
fn a_run_whose_events_are_written_has_them(rt: HostRuntime) {
    let (alloc, file) = (rt.alloc(), Counted::new(Vec::new(rt.alloc())));
    let sink = EventsFile { alloc, file };
    let events = events_in(&rt, &sink);
    let EventsFile { alloc: _, file: _ } = sink;
    let is_a_pair = match events.as_slice() {
        [take, free] => take.step == Step::Take && free.step == Step::Free,
        _ => false,
    };
    expect_true(&rt, is_a_pair);
}

#[test]
fn a_run_whose_events_are_not_written_has_none(rt: HostRuntime) {
    let alloc = rt.alloc();
    let events = events_in(&rt, &NoEvents { alloc });
    expect_true(&rt, events.is_empty());
}
