//! What good command lines ask for. Bad ones and the helps are tested by running the program.

use crate::tests::commands::sizes_of;
use crate::tests::facts::expect_true;
use crate::tests::failing_devices::push;
use cli_args::{FileNames, Invocation, Request, ShopOptions, parse_args};
use cube_shape::MAX_STATIONS;
use dispatcher::ShopSizes;
use std::process::Abort;

// A machine of dimension 3.
const PLACE: Invocation = Invocation::Place { n: 3 };

// All stations of a machine of dimension 2.
const REPLAY: Invocation = Invocation::Replay {
    n: 2,
    stations: MAX_STATIONS,
};

// Returns a new text with these characters.
fn a_text(rt: &(impl AllocGlobal + Abort), text: &str) -> String {
    text.to_string(rt.alloc()).expect(rt, "no memory")
}

// Returns the words of a line, with a space between two of them.
fn words_of(rt: &(impl AllocGlobal + Abort), line: &str) -> Vec<String> {
    let mut words = Vec::new(rt.alloc());
    for word in line.split(' ') {
        push(rt, &mut words, a_text(rt, word));
    }
    words
}

// Returns what the words of a line ask for.
fn ask(rt: &(impl AllocGlobal + Abort), line: &str) -> Option<Request> {
    parse_args(rt.alloc(), &words_of(rt, line)).ok()
}

// Returns the name of a file, if there is one.
fn a_name(rt: &(impl AllocGlobal + Abort), name: &str) -> Option<String> {
    if name.is_empty() {
        return None;
    }
    Some(a_text(rt, name))
}

// Returns whether a line asks for this, with files of these names. The name of no file is empty.
fn asks_for(
    rt: &(impl AllocGlobal + Abort),
    line: &str,
    invocation: Invocation,
    input: &str,
    output: &str,
) -> bool {
    let files = FileNames {
        input: a_name(rt, input),
        output: a_name(rt, output),
        events: None,
    };
    ask(rt, line) == Some(Request { invocation, files })
}

// Returns the file for the events that a line asks for, if it asks for one.
fn events_in(rt: &(impl AllocGlobal + Abort), line: &str) -> Option<String> {
    let request = ask(rt, line)?;
    let files = request.files;
    files.events
}

// Expects that each of these lines asks for this, with files of these names.
fn expect_lines(rt: &(impl AllocGlobal + Abort), rows: &[(&str, Invocation, &str, &str)]) {
    for (line, wanted, input, output) in rows {
        expect_true(rt, asks_for(rt, line, *wanted, input, output));
    }
}

// A line of `run` or `report` with no file. The others are whether it is a report, the sizes of its
// dispatcher, and whether it is quiet.
type ShopLine = (&'static str, bool, u32, u32, usize, bool);

static SHOP_LINES: [ShopLine; 8] = [
    ("cubejobs run --dim 0", false, 0, 2, 16, false),
    ("cubejobs run --dim=12", false, 12, 2, 16, false),
    (
        "cubejobs run --dim 3 --dispatchers 1 --capacity=1",
        false,
        3,
        1,
        1,
        false,
    ),
    (
        "cubejobs run --capacity 1024 --dispatchers 16 --dim 3",
        false,
        3,
        16,
        1024,
        false,
    ),
    ("cubejobs report --quiet --dim 3", true, 3, 2, 16, true),
    ("cubejobs report --dim 3", true, 3, 2, 16, false),
    (
        "cubejobs report --dim=12 --dispatchers=16 --capacity=1024",
        true,
        12,
        16,
        1024,
        false,
    ),
    (
        "cubejobs report --capacity 1 --dispatchers 3 --dim 0",
        true,
        0,
        3,
        1,
        false,
    ),
];

// Expects that each of these lines asks for its command with its sizes.
fn expect_shops(rt: &(impl AllocGlobal + Abort), rows: &[ShopLine]) {
    for (line, is_report, dim, dispatchers, capacity, is_quiet) in rows {
        let options = ShopOptions {
            sizes: sizes_of(*dim, *dispatchers, *capacity),
            is_quiet: *is_quiet,
        };
        let wanted = if *is_report {
            Invocation::Report(options)
        } else {
            Invocation::Run(options)
        };
        expect_true(rt, asks_for(rt, line, wanted, "", ""));
    }
}

// A run at dimension 2 with the default sizes, which writes a line for each value.
const LONG: Invocation = Invocation::RunLong(ShopOptions {
    sizes: ShopSizes {
        dim: 2,
        dispatchers: 2,
        capacity: 16,
    },
    is_quiet: false,
});

// Lines of the other commands with no file.
static LINES: [(&str, Invocation, &str, &str); 4] = [
    ("cubejobs run --dim 2 --long", LONG, "", ""),
    ("cubejobs run --long --capacity=16 --dim=2", LONG, "", ""),
    ("cubejobs place --dim 3", PLACE, "", ""),
    ("cubejobs replay --dim 2 --stations 48", REPLAY, "", ""),
];

#[test]
fn reads_command_lines(rt: HostRuntime) {
    expect_shops(&rt, &SHOP_LINES);
    expect_lines(&rt, &LINES);
}

// Lines with files.
static FILES: [(&str, Invocation, &str, &str); 8] = [
    ("cubejobs place --dim 3 in.csv", PLACE, "in.csv", ""),
    ("cubejobs place in.csv --dim 3", PLACE, "in.csv", ""),
    (
        "cubejobs place --dim 3 --output out.csv",
        PLACE,
        "",
        "out.csv",
    ),
    (
        "cubejobs place --output=out.csv --dim 3 in.csv",
        PLACE,
        "in.csv",
        "out.csv",
    ),
    ("cubejobs place --dim 3 -- --dim", PLACE, "--dim", ""),
    ("cubejobs place --dim 3 -", PLACE, "", ""),
    (
        "cubejobs place --dim 3 in.csv --output -",
        PLACE,
        "in.csv",
        "",
    ),
    ("cubejobs place --dim 3 ./-", PLACE, "./-", ""),
];

#[test]
fn reads_names_of_files(rt: HostRuntime) {
    expect_lines(&rt, &FILES);
    let run = events_in(&rt, "cubejobs run --dim 3 --events e.csv");
    expect_true(&rt, run == a_name(&rt, "e.csv"));
    let report = events_in(&rt, "cubejobs report --events=e.csv --dim 3 --output o.csv");
    expect_true(&rt, report == a_name(&rt, "e.csv"));
    expect_true(
        &rt,
        ask(&rt, "cubejobs run --dim 3 --events o.csv --output o.csv").is_none(),
    );
    expect_true(&rt, ask(&rt, "cubejobs run --dim 3 --events -").is_none());
}
