//! The line of progress: the output is the same, and a terminal is as it was at the end.

use crate::tests::commands::{long_file, sizes_of};
use crate::tests::facts::expect_true;
use crate::tests::failing_devices::FailsAt;
use cli_args::{Invocation, ShopOptions};
use cli_commands::{NoEvents, Task, answer};
use dispatcher::Plain;
use jobs_csv::Counted;
use std::io::Write;
use std::process::Abort;
use std::sync::Wait;
use std::thread::Threads;

// The jobs of a long run, of which something may be shown.
const JOBS: u64 = 2_500;

// The bytes that wipe the line.
const WIPE: &str = "\r                               \r";

// Expects that a run of this file by two dispatchers writes all of this. It shows its progress on
// this terminal unless it is quiet.
fn expect_run<H, P>(rt: &H, is_quiet: bool, input: &[u8], wanted: &[u8], terminal: &mut Option<P>)
where
    H: AllocGlobal + Abort + Threads + Wait + Clone + Send + Sync + 'static,
    P: Write + Send + Drop + 'static,
{
    let mut reader = Counted::new(input);
    let mut writer = Counted::new(Vec::new(rt.alloc()));
    let options = ShopOptions {
        sizes: sizes_of(0, 2, 16),
        is_quiet,
    };
    let task = Task {
        invocation: Invocation::Run(options),
        runner: &Plain,
        is_last: true,
    };
    let mut sink = NoEvents { alloc: rt.alloc() };
    let answer = answer(rt, task, &mut reader, &mut writer, terminal, &mut sink);
    expect_true(
        rt,
        (answer == Ok(())) & (writer.get_ref().as_slice() == wanted),
    );
}

// Makes a long run, which shows its progress on this terminal unless it is quiet. It writes all
// replies, and the terminal is given back.
fn run_on_terminal<H, P>(rt: &H, is_quiet: bool, terminal: P) -> Option<P>
where
    H: AllocGlobal + Abort + Threads + Wait + Clone + Send + Sync + 'static,
    P: Write + Send + Drop + 'static,
{
    let (input, wanted) = long_file(rt, JOBS);
    let mut terminal = Some(terminal);
    expect_run(rt, is_quiet, &input, wanted.as_bytes(), &mut terminal);
    terminal
}

// Returns whether a terminal is there, and what it shows is nothing or ends with what wipes the
// line.
fn is_wiped(shown: Option<Vec<u8>>) -> bool {
    match shown {
        Some(text) => text.is_empty() | text.as_slice().ends_with(WIPE.as_bytes()),
        None => false,
    }
}

// Returns whether a terminal is there, and nothing is shown on it.
fn is_blank(shown: Option<Vec<u8>>) -> bool {
    match shown {
        Some(text) => text.is_empty(),
        None => false,
    }
}

#[test]
fn shows_progress(rt: HostRuntime) {
    let shown = run_on_terminal(&rt, false, Vec::new(rt.alloc()));
    let quiet = run_on_terminal(&rt, true, Vec::new(rt.alloc()));
    expect_true(&rt, is_wiped(shown) & is_blank(quiet));
    run_on_terminal(&rt, false, FailsAt::new(Vec::new(rt.alloc()), 0));
}
