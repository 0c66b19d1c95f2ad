// The parser of the command line, and the texts of its help.
ghost use Rattle.std.specs.Prelude.{◌≡◌, ◌⊎◌, ◌≤◌, false, true, IfOk, IfSome, List, Some, codes, map, option_map, string_bytes};
ghost use Rattle.clap.specs.Words.{FailsBy, Row, app_of, first_of, found_of, kind_of, rows_of, rule_of, subcommand_rows_of, with_rule};
ghost use Rattle.clap.specs.declared.builder.command.Command.TheViews.{out-Command};
ghost use Rattle.cli_args.specs.CommandLine.{AreShopSizes, AsksFor, HasFileNames, HasFlag, HasOptionValue, HasOptionValues, HasShopOptions, IsWithinLimits, capacity_rule, command_app, command_of, dim_rule, dispatchers_rule, file_named, file_rule, long_rule, output_rule, program_app, quiet_rule, run_app, shop_app, stations_rule, versioned_app, with_tools, are_apart, events_rule, faults_of};
ghost use Rattle.cli_args.specs.InnerCommands.{bare_app, shops_app};

use crate::invocation::{FileNames, Invocation, Request, ShopOptions};
use clap::error::ErrorKind;
use clap::{Arg, ArgAction, ArgMatches, Command, Error, value_parser};
use cube_shape::{Dim, MAX_CAPACITY, MAX_DIM, MAX_DISPATCHERS, MAX_STATIONS};
use dispatcher::ShopSizes;
use jobs_csv::MAX_RECORDS;
use release_version::VERSION;
use std::alloc::{AllocError, Global};

// The name of the program.
const PROGRAM: &str = "cubejobs";

// What is wrong with a command line whose events have no file of their own.
const NO_OWN_FILE: &str = "the file of '--events' must be neither the file of '--output' nor '-'";

const ABOUT: &str = "Dispatches jobs to the subcubes of a hypercube machine";

const ABOUT_RUN: &str = "Runs a file of jobs";

const LONG_ABOUT_RUN: &str =
    "Reads a file of jobs, runs each job on a subcube of the machine, and writes
the replies. It reads FILE or standard input, and writes the file of --output or
standard output.

The input is CSV with the header lane,kind,op,root,items.
  lane   the job's lane is below 16
  kind   broadcast, reduce, allreduce, scan or exscan
  op     add, min, max, xor, and, or; for a broadcast it is -
  root   the rank of one of the items, and 0 for allreduce, scan and exscan
  items  numbers below 2^64 with one space between each two; there are 1 to
         2^N of them

In a scan, each place receives the items up to and with its own, combined by
op. In an exscan, it receives those before its own.

A job runs on the smallest subcube that has a processor for each of its items.
The subcube has dimension dim. The first item is on its first processor, and so
on; processors after the last item are idle, and do not change the result.

The output is CSV with the header lane,seq,kind,dim,result,rounds,messages. It
has a line for each job, sorted by lane; the jobs of a lane keep the order of
the file. The result has a number for each item, or - for nothing. The rounds
and messages are those of all processors of the subcube.

With --long, the output is CSV with the header lane,seq,place,value. It has a
line for each number of a result: place is that of the item, from 0 on. The
lines are sorted by lane, seq and place. A place that holds nothing has no line,
so a reduction has one line, that of the root.

The dispatchers put the jobs of all lanes into one queue, take them from it, and
run them. The first dispatcher is the thread of the program. Each other one has
a thread of its own, and takes part only while the jobs are long. For large
jobs, use a dispatcher for each core of the computer. With --dispatchers 1 no
thread is started: this is the setting for small jobs. The output does not
depend on the number of dispatchers or the capacity of the queue.

If standard error is a terminal, one line of it shows the progress of a long
run, unless --quiet is given.

With --events FILE the command also writes when each job took its subcube, and
when it freed it. The rows are those of `cubejobs place`, in an order of time:
a take and a later free under the name l2s5 for job 5 of lane 2.

Example: cubejobs run --dim 3 jobs.csv";

const ABOUT_REPORT: &str = "Runs a file of jobs, and writes totals of them";

const LONG_ABOUT_REPORT: &str =
    "Reads a file of jobs, runs each job on a subcube of the machine, and writes
totals of the jobs and of the free subcubes. It reads FILE or standard input,
and writes the file of --output or standard output.

The input is a file of jobs as `cubejobs run` reads it, CSV with the header
lane,kind,op,root,items, and is refused for the same faults;
`cubejobs run --help` describes it. The jobs run in the same way,
with the same line of progress on a terminal and the same file of events. The
output does not depend on the number of dispatchers or the capacity of the
queue.

The output is CSV with the header group,key,count,processors,idle, and has
these lines:
  lane   one for each lane from 0 to the largest one of a job, with the number
         of its jobs, the sum of the processors of their subcubes, and how many
         of these were idle, with no item of their job
  dim    one for each dimension from 0 to N, with the same for the jobs of that
         dimension
  free   one for each dimension from 0 to N, with the number of aligned
         subcubes of it that are free once all jobs are done, the processors
         that these have together, and 0
  total  one with the key -, for all jobs

Example: cubejobs report --dim 3 jobs.csv --output totals.csv";

const ABOUT_PLACE: &str = "Takes and frees subcubes under names";

const LONG_ABOUT_PLACE: &str =
    "Reads commands, takes and frees subcubes of the machine under names, and writes
the outcome of each command. It reads FILE or standard input, and writes the
file of --output or standard output.

The input is CSV with the header command,name,dim. The command take asks for a
subcube of dimension dim, from 0 to N, to be held under the name. The command
free releases the name's subcube, and has the dim -. A name has 1 to 16 bytes,
each of them a to z or a digit.

The output is CSV with the header command,name,dim,base,outcome, and has a line
for each command in the order of the file. A take gets the first aligned subcube
that is free, whose processors are base and those after it; its outcome is
given. Otherwise the outcome is held, if the name holds a subcube already; or
nostation, if each station holds one; or nosubcube, if none of its dimension is
free. The outcome of a free is freed, or nothingheld if the name holds nothing.

Example: cubejobs place --dim 2 place.csv";

const ABOUT_REPLAY: &str = "Plays a schedule of stations, event by event";

const LONG_ABOUT_REPLAY: &str =
    "Reads a schedule, plays it on the tree on which stations take and release
subcubes without a lock, and writes each event. It reads FILE or standard input,
and writes the file of --output or standard output.

The input is CSV with the header station,call,arg. The call take has a node of
the tree as arg, where 1 is the whole machine and the halves of node v are 2v
and 2v+1; step has the number of steps, from 1 to 100; release, run and retire
have -. The calls take and release only begin; each step makes one atomic event,
and run makes steps until the station is at rest.

The output is CSV with the header station,event,node,word,note. An event shows
the word that it left at its node: O for occupied, L and R for a side in use,
and + with each station that has a mark there. A refused call has the event
refused and the reason as note. Lines with the event end follow: one for each
node whose word is not 0, and one with the number of these.

Example: cubejobs replay --dim 2 --stations 3 schedule.csv";

const ABOUT_CHECK: &str = "Lists all faults of an input";

const AFTER_CHECK: &str = "cubejobs check --help describes this command.";

const ABOUT_MESSAGES: &str = "Lists the messages of a collective";

const AFTER_MESSAGES: &str = "cubejobs messages --help describes this command.";

// How the records of a file are counted, at the end of each command's help.
const RECORDS: &str = "Records:
  The header is record 0, and the next one is record 1. A blank line is no
  record, and a line end within quotes does not end a record.

";

// The memory that `run` and `report` need, and the faults of a file of jobs.
const OF_JOBS: &str = "Memory:
  All jobs and replies are kept until the last job is done. A job of up to four
  items takes about 88 bytes, a larger one 95 and 8 for each item. A scan takes
  105 bytes, and 16 for each item. With --events a job takes another 84 bytes.

Events:
  The file of --events is written whole or not at all, as that of --output. It
  is put in place last, when the output is complete. It must be neither the file
  of --output nor -. If two different names lead to one file, it holds the
  events in the end. If the memory for all events is refused, no job runs.

Faults of the input:
  Fields         a record has too few or too many fields, or there is no header
  Number         a field is not the number, or the numbers, that it should be
  Word           a field is none of its keywords, or the header is another one
  Job Empty      a job has no items
  Job TooLarge   a job has more items than the machine has processors
  Job BadRoot    a job's root is not the rank of an item, or not 0 as it must be
";

// The memory that `place` needs, and the faults of a file of commands.
const OF_PLACE: &str = "Memory:
  All commands are read before the first one is done: about 24 bytes each.

Faults of the input:
  Fields         a record has too few or too many fields, or there is no header
  Number         the dim of a take is no number, or one past N
  Word           a field is no keyword, no name or no -, or the header is
                 another one
";

// The memory that `replay` needs, and the faults of a schedule.
const OF_REPLAY: &str = "Memory:
  All calls are read before the first one is played: about 24 bytes each.

Faults of the input:
  Fields         a record has too few or too many fields, or there is no header
  Number         a station, a node or a number of steps is not what it must be
  Word           a field is no call or no -, or the header is another one
";

// The last fault of an input, up to the most records that a file may have.
const TOO_MANY: &str = "  TooMany        there are more records after the header than ";

// The other faults of a command that runs jobs.
const SHOP_FAILURES: &str = "
Other faults:
  Read, Write    the input or the output failed
  OutOfMemory    a request for memory was refused
  Spent          a lane has no number left for a job

Exit status:
  0  done
  1  the input is refused, and nothing is written; standard error names the
     record and the fault
  2  bad command line
  3  the input or output failed, a file could not be used, memory was refused,
     or a lane has no number left
";

// The other faults of a command that runs no jobs.
const FAILURES: &str = "
Other faults:
  Read, Write    the input or the output failed
  OutOfMemory    a request for memory was refused

Exit status:
  0  done
  1  the input is refused, and nothing is written; standard error names the
     record and the fault
  2  bad command line
  3  the input or output failed, a file could not be used, or memory was refused
";

// What is read and written instead of the standard streams, and why that may fail.
const NAMED_FILES: &str = "
Files:
  FILE is read instead of standard input, and the file of --output is written
  instead of standard output; - is the standard one. An output is written whole
  or not at all: it replaces the file once all of it is on the disk. If the
  command fails, the file is as it was. It may be the file that is read.

  A replaced file keeps its owner, its group and its permissions, as far as the
  system allows it. If the group cannot be kept, its permissions are dropped.

  Rows are written to a temporary file .cubejobs-PROCESS-NUMBER.part in the
  folder of the output. The first row creates it. A signal that ends the command
  while it writes rows, as Ctrl-C does, can leave this file. Remove it then.

Faults of a file, as in `failed: output: Missing: results/new.csv`:
  Missing        there is no such file, or no such folder
  Folder         it is a folder
  Denied         it may not be read, or may not be written
  Special        the output is there, and cannot be replaced: it is a device, a
                 pipe, or a file that is itself mounted
  OutOfMemory    a request for memory was refused
  Other          the system gives another reason
";

// The end of each command's help.
const STREAMS: &str = "
If standard input is read and is a terminal, one line of standard error says
what the command waits for; Ctrl-D ends the input. If standard error is a
terminal and the input is a file that is refused, a second line says on which
line of the file, in which field, and what is wanted there. If the reader of
standard output closes it early, standard error says `failed: record 0: Write`,
and the status is 3.";

// Returns the end of a command's help: how records are counted, the memory it needs, the faults.
fn end_of_help(alloc: Global, of_input: &str, of_others: &str) -> Result<String, AllocError> {
    format!(in alloc;
        "{RECORDS}{of_input}{TOO_MANY}{MAX_RECORDS}\n{of_others}{NAMED_FILES}{STREAMS}"
    )
}

// The texts of the help that name a limit of the program.
#[derive(Drop)]
struct Limits {
    dim: String,
    dispatchers: String,
    capacity: String,
    stations: String,
    after_jobs: String,
    after_place: String,
    after_replay: String,
}

impl Limits {
    // Makes the texts.
    fn new(alloc: Global) -> Result<Self, AllocError> {
        Ok(Limits {
            dim: format!(in alloc; "Dimension of the machine, of 2^N processors: 0 to {MAX_DIM}")?,
            dispatchers: format!(in alloc; "Dispatchers that run jobs: 1 to {MAX_DISPATCHERS}")?,
            capacity: format!(in alloc; "Jobs that may wait: 1 to {MAX_CAPACITY}")?,
            stations: format!(in alloc;
                "Number of stations, the first being 0: 1 to {MAX_STATIONS}"
            )?,
            after_jobs: end_of_help(alloc, OF_JOBS, SHOP_FAILURES)?,
            after_place: end_of_help(alloc, OF_PLACE, FAILURES)?,
            after_replay: end_of_help(alloc, OF_REPLAY, FAILURES)?,
        })
    }
}

// Returns the option for the dimension of the machine.
fn dim_option<'a>(alloc: Global, limits: &'a Limits) -> Arg<'a>
    ensures rule { rule_of result ≡ dim_rule }
    ensures local { result.global ≡ false }
{
    Arg::new(alloc, "dim")
        .short('n')
        .long("dim")
        .value_name("N")
        .help(&limits.dim)
        .required(true)
        .value_parser(value_parser!(u32).range(0..=i64::from(MAX_DIM)))
}

// Returns the operand for the file to read.
fn file_argument<'a>(alloc: Global) -> Arg<'a>
    ensures rule { rule_of result ≡ file_rule }
    ensures local { result.global ≡ false }
{
    Arg::new(alloc, "file").value_name("FILE").help(
        "File to read instead of standard input; - is standard input",
    )
}

// Returns the option for the file to write.
fn output_option<'a>(alloc: Global) -> Arg<'a>
    ensures rule { rule_of result ≡ output_rule }
    ensures local { result.global ≡ false }
{
    Arg::new(alloc, "output")
        .short('o')
        .long("output")
        .value_name("FILE")
        .help("File to write, whole or not at all")
}

// Returns the option for the number of workers.
fn dispatchers_option<'a>(alloc: Global, limits: &'a Limits) -> Arg<'a>
    ensures rule { rule_of result ≡ dispatchers_rule }
    ensures local { result.global ≡ false }
{
    Arg::new(alloc, "dispatchers")
        .long("dispatchers")
        .value_name("D")
        .help(&limits.dispatchers)
        .default_value("2")
        .value_parser(value_parser!(u32).range(1..=i64::from(MAX_DISPATCHERS)))
}

// Returns the option for the capacity of the queue.
fn capacity_option<'a>(alloc: Global, limits: &'a Limits) -> Arg<'a>
    ensures rule { rule_of result ≡ capacity_rule }
    ensures local { result.global ≡ false }
{
    Arg::new(alloc, "capacity")
        .long("capacity")
        .value_name("C")
        .help(&limits.capacity)
        .default_value("16")
        .value_parser(value_parser!(u32).range(1..=MAX_CAPACITY as i64))
}

// Returns the flag that turns off the line of progress.
fn quiet_option<'a>(alloc: Global) -> Arg<'a>
    ensures rule { rule_of result ≡ quiet_rule }
    ensures local { result.global ≡ false }
{
    Arg::new(alloc, "quiet")
        .short('q')
        .long("quiet")
        .help("Shows no line of progress")
        .action(ArgAction::SetTrue)
}

// Returns the flag that asks for a line for each value.
fn long_option<'a>(alloc: Global) -> Arg<'a>
    ensures rule { rule_of result ≡ long_rule }
    ensures local { result.global ≡ false }
{
    Arg::new(alloc, "long")
        .long("long")
        .help("Writes a line for each number of a result")
        .action(ArgAction::SetTrue)
}

// Returns the option for the file of the events.
fn events_option<'a>(alloc: Global) -> Arg<'a>
    ensures rule { rule_of result ≡ events_rule }
    ensures local { result.global ≡ false }
{
    Arg::new(alloc, "events")
        .long("events")
        .value_name("FILE")
        .help("File for the events of the run, whole or not at all")
}

// Returns the option for the number of stations.
fn stations_option<'a>(alloc: Global, limits: &'a Limits) -> Arg<'a>
    ensures rule { rule_of result ≡ stations_rule }
    ensures local { result.global ≡ false }
{
    Arg::new(alloc, "stations")
        .long("stations")
        .value_name("S")
        .help(&limits.stations)
        .required(true)
        .value_parser(value_parser!(u32).range(1..=i64::from(MAX_STATIONS)))
}

// Returns a command that shows the version of the program, under the program's name.
fn versioned<'a>(alloc: Global, name: &'a str) -> Result<Command<'a>, AllocError>
    ensures app { IfOk result (λ command. app_of command ≡ versioned_app name.entry.now) }
    ensures local { IfOk result (λ command. (out-Command command).has_globals ≡ false) }
{
    Command::new(alloc, name)
        .version(VERSION)
        .display_name(PROGRAM)
}

// Returns a command on a machine of some dimension.
fn command<'a>(
    alloc: Global,
    name: &'a str,
    about: &'a str,
    long_about: &'a str,
    after_help: &'a str,
    limits: &'a Limits,
) -> Result<Command<'a>, AllocError>
    ensures app { IfOk result (λ command. app_of command ≡ command_app name.entry.now) }
    ensures local { IfOk result (λ command. (out-Command command).has_globals ≡ false) }
{
    versioned(alloc, name)?
        .about(about)
        .long_about(long_about)
        .after_help(after_help)
        .arg(dim_option(alloc, limits))?
        .arg(file_argument(alloc))?
        .arg(output_option(alloc))
}

// Returns a command that runs jobs. It also has the options of workers, of the queue and of events.
fn shop_command<'a>(
    alloc: Global,
    name: &'a str,
    about: &'a str,
    long_about: &'a str,
    limits: &'a Limits,
) -> Result<Command<'a>, AllocError>
    ensures app { IfOk result (λ command. app_of command ≡ shop_app name.entry.now) }
    ensures local { IfOk result (λ command. (out-Command command).has_globals ≡ false) }
{
    let shop = command(alloc, name, about, long_about, &limits.after_jobs, limits)?;
    shop.arg(dispatchers_option(alloc, limits))?
        .arg(capacity_option(alloc, limits))?
        .arg(quiet_option(alloc))?
        .arg(events_option(alloc))
}

// Returns the command `run`, which also has the flag for a line for each value.
fn run_command<'a>(alloc: Global, limits: &'a Limits) -> Result<Command<'a>, AllocError>
    ensures app { IfOk result (λ command. app_of command ≡ run_app) }
    ensures local { IfOk result (λ command. (out-Command command).has_globals ≡ false) }
{
    let run = shop_command(alloc, "run", ABOUT_RUN, LONG_ABOUT_RUN, limits)?;
    run.arg(long_option(alloc))
}

// Returns the command `replay`, which also has stations.
fn replay_command<'a>(alloc: Global, limits: &'a Limits) -> Result<Command<'a>, AllocError>
    ensures app { IfOk result (λ command.
        app_of command ≡ with_rule (command_app (codes "replay")) stations_rule) }
    ensures local { IfOk result (λ command. (out-Command command).has_globals ≡ false) }
{
    let replay = command(
        alloc,
        "replay",
        ABOUT_REPLAY,
        LONG_ABOUT_REPLAY,
        &limits.after_replay,
        limits,
    )?;
    replay.arg(stations_option(alloc, limits))
}

// Returns the program with no command.
fn bare_program<'a>(alloc: Global) -> Command<'a>
    ensures { app_of result ≡ bare_app }
{
    Command::new(alloc, "cubejobs")
        .about(ABOUT)
        .version(VERSION)
        .subcommand_required(true)
}

// Returns the program with the commands that run jobs.
fn with_shops<'a>(alloc: Global, limits: &'a Limits) -> Result<Command<'a>, AllocError>
    ensures { IfOk result (λ program. app_of program ≡ shops_app) }
{
    let run = run_command(alloc, limits)?;
    let program = bare_program(alloc).subcommand(run)?;
    let report = shop_command(alloc, "report", ABOUT_REPORT, LONG_ABOUT_REPORT, limits)?;
    program.subcommand(report)
}

// Returns a command that has its own command line, under its name alone.
fn tool<'a>(
    alloc: Global,
    name: &'a str,
    about: &'a str,
    after_help: &'a str,
) -> Result<Command<'a>, AllocError>
    ensures app { IfOk result (λ command. app_of command ≡ versioned_app name.entry.now) }
    ensures local { IfOk result (λ command. (out-Command command).has_globals ≡ false) }
{
    let tool = versioned(alloc, name)?;
    Ok(tool.about(about).after_help(after_help))
}

// Returns the program with the names of `check` and `messages`, which have their own command lines.
fn with_tools<'a>(alloc: Global, program: Command<'a>) -> Result<Command<'a>, AllocError>
    ensures { IfOk result (λ all. app_of all ≡ with_tools (app_of program.entry)) }
{
    let check = tool(alloc, "check", ABOUT_CHECK, AFTER_CHECK)?;
    let with_check = program.subcommand(check)?;
    let messages = tool(alloc, "messages", ABOUT_MESSAGES, AFTER_MESSAGES)?;
    with_check.subcommand(messages)
}

// Returns the program with all its commands.
fn program<'a>(alloc: Global, limits: &'a Limits) -> Result<Command<'a>, AllocError>
    ensures { IfOk result (λ program. app_of program ≡ program_app) }
{
    let shops = with_shops(alloc, limits)?;
    let place = command(
        alloc,
        "place",
        ABOUT_PLACE,
        LONG_ABOUT_PLACE,
        &limits.after_place,
        limits,
    )?;
    let program = shops.subcommand(place)?;
    let replay = replay_command(alloc, limits)?;
    let files = program.subcommand(replay)?;
    with_tools(alloc, files)
}

// Returns the dimension that a command was given.
fn dim_in(matches: &ArgMatches<'_>) -> Option<u32>
    ensures limit { IfSome result (λ n. n ≤ MAX_DIM) }
    ensures value { IfSome result (λ n.
        HasOptionValue (rows_of (found_of matches.now)) (codes "dim") n) }
{
    let n = matches.get_one::<u32>("dim")?;
    if Dim(n).fits(MAX_DIM) { Some(n) } else { None }
}

// Returns the number of workers that a command was given, or the default.
fn dispatchers_in(matches: &ArgMatches<'_>) -> Option<u32>
    ensures limits { IfSome result (λ dispatchers.
        (1 ≤ dispatchers) × (dispatchers ≤ MAX_DISPATCHERS)) }
    ensures value { IfSome result (λ dispatchers.
        HasOptionValue (rows_of (found_of matches.now)) (codes "dispatchers") dispatchers) }
{
    let dispatchers = matches.get_one::<u32>("dispatchers")?;
    if dispatchers >= 1 && dispatchers <= MAX_DISPATCHERS {
        Some(dispatchers)
    } else {
        None
    }
}

// Returns the capacity that a command was given, or the default.
fn capacity_in(matches: &ArgMatches<'_>) -> Option<usize>
    ensures limits { IfSome result (λ capacity. (1 ≤ capacity) × (capacity ≤ MAX_CAPACITY)) }
    ensures value { IfSome result (λ capacity.
        HasOptionValue (rows_of (found_of matches.now)) (codes "capacity") capacity) }
{
    let capacity = matches.get_one::<usize>("capacity")?;
    if capacity >= 1 && capacity <= MAX_CAPACITY {
        Some(capacity)
    } else {
        None
    }
}

// Returns the number of stations that a command was given.
fn stations_in(matches: &ArgMatches<'_>) -> Option<u32>
    ensures limits { IfSome result (λ stations. (1 ≤ stations) × (stations ≤ MAX_STATIONS)) }
    ensures value { IfSome result (λ stations.
        HasOptionValue (rows_of (found_of matches.now)) (codes "stations") stations) }
{
    let stations = matches.get_one::<u32>("stations")?;
    if stations >= 1 && stations <= MAX_STATIONS {
        Some(stations)
    } else {
        None
    }
}

// Returns whether the line of progress is turned off.
fn is_quiet_in(matches: &ArgMatches<'_>) -> Option<bool>
    ensures { IfSome result (λ is_quiet.
        HasFlag (rows_of (found_of matches.now)) (codes "quiet") is_quiet) }
{
    matches.get_one::<bool>("quiet")
}

// Returns whether a line for each value is asked for.
fn is_long_in(matches: &ArgMatches<'_>) -> Option<bool>
    ensures { IfSome result (λ is_long.
        HasFlag (rows_of (found_of matches.now)) (codes "long") is_long) }
{
    matches.get_one::<bool>("long")
}

// Returns the options that a command that runs jobs was given, or their defaults.
fn shop_in(matches: &ArgMatches<'_>) -> Option<ShopOptions>
    ensures limits { IfSome result (λ shop. AreShopSizes shop.sizes) }
    ensures options { IfSome result (λ shop.
        HasShopOptions (rows_of (found_of matches.now)) shop) }
{
    let sizes = ShopSizes {
        dim: dim_in(matches)?,
        dispatchers: dispatchers_in(matches)?,
        capacity: capacity_in(matches)?,
    };
    let is_quiet = is_quiet_in(matches)?;
    Some(ShopOptions { sizes, is_quiet })
}

// Returns what the command `run` is asked for.
fn run_in(matches: &ArgMatches<'_>) -> Option<Invocation>
    ensures limits { IfSome result IsWithinLimits }
    ensures command { IfSome result (λ invocation. command_of invocation ≡ codes "run") }
    ensures options { IfSome result (HasOptionValues (rows_of (found_of matches.now))) }
{
    let shop = shop_in(matches)?;
    if is_long_in(matches)? {
        Some(Invocation::RunLong(shop))
    } else {
        Some(Invocation::Run(shop))
    }
}

// Returns the name of the file that a command was given by this argument, if it was given one.
fn file_in(
    alloc: Global,
    matches: &ArgMatches<'_>,
    argument: &str,
) -> Result<Option<String>, AllocError>
    ensures { IfOk result (λ file. option_map string_bytes file
        ≡ file_named (first_of argument.now (rows_of (found_of matches.now)))) }
{
    let Some(text) = matches.get_str(argument) else {
        return Ok(None);
    };
    if text == "-" {
        return Ok(None);
    }
    let name = String::from_str(alloc, text)?;
    Ok(Some(name))
}

// Returns the name of the file of the events that a command was given, if it was given one.
fn events_in(alloc: Global, matches: &ArgMatches<'_>) -> Result<Option<String>, AllocError>
    ensures { IfOk result (λ events. option_map string_bytes events
        ≡ first_of (codes "events") (rows_of (found_of matches.now))) }
{
    let Some(text) = matches.get_str("events") else {
        return Ok(None);
    };
    let name = String::from_str(alloc, text)?;
    Ok(Some(name))
}

// Returns the names of the files that a command was given.
fn files_in(alloc: Global, matches: &ArgMatches<'_>) -> Option<FileNames>
    ensures { IfSome result (λ files. HasFileNames (rows_of (found_of matches.now)) files) }
{
    let Ok(input) = file_in(alloc, matches, "file") else {
        return None;
    };
    let Ok(output) = file_in(alloc, matches, "output") else {
        return None;
    };
    let Ok(events) = events_in(alloc, matches) else {
        return None;
    };
    Some(FileNames {
        input,
        output,
        events,
    })
}

// Returns the request of a parsed command line, if there is memory for it.
fn request_in(alloc: Global, matches: &ArgMatches<'_>) -> Option<Request>
    ensures limits { IfSome result (λ request. IsWithinLimits request.invocation) }
    ensures asked { IfSome result (λ request. (options : List Row)
        × (subcommand_rows_of matches.now ≡ Some (command_of request.invocation, options))
        × HasOptionValues options request.invocation
        × HasFileNames options request.files) }
{
    if let Some(run) = matches.subcommand_matches("run") {
        let invocation = run_in(run)?;
        let files = files_in(alloc, run)?;
        return Some(Request { invocation, files });
    }
    if let Some(report) = matches.subcommand_matches("report") {
        let shop = shop_in(report)?;
        let files = files_in(alloc, report)?;
        let invocation = Invocation::Report(shop);
        return Some(Request { invocation, files });
    }
    if let Some(place) = matches.subcommand_matches("place") {
        let n = dim_in(place)?;
        let files = files_in(alloc, place)?;
        let invocation = Invocation::Place { n };
        return Some(Request { invocation, files });
    }
    let replay = matches.subcommand_matches("replay")?;
    let n = dim_in(replay)?;
    let stations = stations_in(replay)?;
    let files = files_in(alloc, replay)?;
    let invocation = Invocation::Replay { n, stations };
    Some(Request { invocation, files })
}

// Returns whether the events, if there are any, have a file of their own.
fn are_apart(files: &FileNames) -> bool
    ensures { result ≡ are_apart (option_map string_bytes files.now.output)
        (option_map string_bytes files.now.events) }
{
    let Some(events) = &files.events else {
        return true;
    };
    if events.as_str() == "-" {
        return false;
    }
    let Some(output) = &files.output else {
        return true;
    };
    if output == events {
        return false;
    }
    true
}

// Returns the error of a command line whose events have no file of their own.
fn no_own_file(alloc: Global, limits: &Limits) -> Error
    ensures { (kind_of result ≡ ErrorKind.ArgumentConflict)
        ⊎ (kind_of result ≡ ErrorKind.OutOfMemory) }
{
    let Ok(program) = program(alloc, limits) else {
        return Error::from(AllocError);
    };
    let mut program = program;
    match program.error(ErrorKind::ArgumentConflict, NO_OWN_FILE) {
        Ok(error) => error,
        Err(error) => Error::from(error),
    }
}

/// Returns the request of a command line, whose first word is the program's name.
///
/// # Errors
///
/// The help or the version was asked for, the command line is bad, or memory ran out.
pub fn parse_args(alloc: Global, words: &[String]) -> Result<Request, Error>
    ensures limits { IfOk result (λ request. IsWithinLimits request.invocation) }
    ensures apart { IfOk result (λ request. are_apart
        (option_map string_bytes request.files.output)
        (option_map string_bytes request.files.events) ≡ true) }
    ensures asked { IfOk result (λ request. AsksFor (map string_bytes words.now) request) }
    ensures fails { FailsBy (faults_of (map string_bytes words.now)) result }
{
    let limits = Limits::new(alloc)?;
    let program = program(alloc, &limits)?;
    let matches = match program.try_get_matches_from(words) {
        Ok(matches) => matches,
        Err(error) => return Err(error),
    };
    // A good command line names one of the commands with all its options.
    let Some(request) = request_in(alloc, &matches) else {
        return Err(Error::from(AllocError));
    };
    if !are_apart(&request.files) {
        return Err(no_own_file(alloc, &limits));
    }
    Ok(request)
}
