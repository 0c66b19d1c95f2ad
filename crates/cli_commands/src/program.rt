//! The program, from the words of its command line to its exit status.
ghost use Rattle.std.specs.Prelude.{◌≡◌, ◌⊎◌, ◌++◌, ◌∷◌, [], Bool, false, true, IfErr, IfSome, None, OnOk, map, option_map, string_bytes};
ghost use Rattle.std.specs.Io.KnownBytes.{Appends};
ghost use Rattle.std.specs.Process.{exit_status as status_of_process};
ghost use Rattle.clap.specs.Words.{kind_of};
ghost use Rattle.clap.specs.declared.error.kind.ErrorKind.TheVariants.{DisplayHelp, DisplayVersion, OutOfMemory};
ghost use Rattle.jobs_csv.specs.Fault.{attribute, fault_text};
ghost use Rattle.jobs_csv.specs.declared.fault.Fault.{Fault as TheFault};
ghost use Rattle.cli_args.specs.CommandLine.{IsWithinLimits, are_apart};
ghost use Rattle.cli_commands.specs.Answer.{IsMetBeforeWriting};
ghost use Rattle.cli_commands.specs.Inner.Ending.{EndsOn, EndsWith, IsShown};
ghost use Rattle.cli_commands.specs.Events.{IsSunk};
ghost use Rattle.cli_commands.specs.Inner.Files.{IsOutcome, IsOutputAlone, IsWholeOutcome, StopsBeforeWriting, StopsForEvents};
ghost use Rattle.cli_commands.specs.Program.{AsksForInput, AsksForOutput, AsksForProgress, EndsBy, IsFaultIn, IsRefused, LeavesFiles, ReportsFault, ReportsFileFault, ShowsProgress, events_of, exit_status, file_line, input_of, name_of, output_of};
ghost use Rattle.atomic_file.specs.Store.{KeepsFiles, begun_by, held_by};
ghost use Rattle.atomic_file.specs.declared.file_fault.FileFault.{FileFault as TheFileFault};

use crate::answering::{Task, answer};
use crate::event_sink::{EventSink, EventsFile, NoEvents};
use crate::files::{CommandError, answered, begin_file, open_input, settle_events, settle_output};
use crate::refusal::show_refusal;
use atomic_file::{FileFault, FileSide, FileStore};
use clap::error::ErrorKind;
use cli_args::{FileNames, Invocation, Request, parse_args};
use dispatcher::Plain;
use jobs_csv::{Device, Fault, FaultKind};
use std::alloc::Global;
use std::io::{Read, Write};
use std::process::ExitCode;
use std::sync::Wait;
use std::thread::Threads;

/// The streams of the program.
#[derive(Drop)]
pub struct Console<R, W, E, P, Q> {
    /// Standard input. A request reads it if it names no file to read.
    pub reader: R,
    /// Standard output. A request writes its rows there if it names no file to write.
    pub writer: W,
    /// Standard error. Errors are reported there.
    pub errors: E,
    /// The terminal, if there is one. It shows the progress of a long run, and where the input
    /// is refused.
    pub terminal: Option<P>,
    /// Where the program says what it waits for, if the input is typed.
    pub prompt: Option<Q>,
}

/// How a call of the program ends.
#[derive(Clone, Copy, Debug, PartialEq, Eq)]
pub enum Ending {
    /// The command is done, or the help or the version is shown.
    Done,
    /// The command line is bad.
    Rejected,
    /// The command failed. `is_reported` says whether the error line was written.
    Failed { fault: Fault, is_reported: bool },
    /// A file of the command could not be opened or replaced. `is_reported` says whether the error
    /// line was written.
    FileFailed { fault: FileFault, is_reported: bool },
}

impl Ending {
    /// Returns the exit status.
    pub fn status(&self) -> u8
        ensures { result ≡ exit_status self.now }
    {
        match self {
            Ending::Done => 0,
            Ending::Rejected => 2,
            Ending::Failed { fault, .. } => fault.status(),
            Ending::FileFailed { .. } => 3,
        }
    }
}

/// Returns the exit status for the process.
pub fn exit_code(ending: Ending) -> ExitCode
    ensures { status_of_process result ≡ exit_status ending }
{
    ExitCode::from(ending.status())
}

// Reports a fault in one line.
fn report_fault<E: Write>(fault: Fault, errors: &mut E) -> Ending
    ensures failed { (is_reported : Bool) × (result ≡ Ending.Failed fault is_reported) }
    ensures line { result ≡ Ending.Failed fault true
        → Appends (E.contents errors.old) (E.contents errors.new) (fault_text fault ++ 10 ∷ []) }
{
    let is_reported = errors.writeln(fault).is_ok();
    Ending::Failed { fault, is_reported }
}

// Reports in one line that the file of this name could not be opened or replaced.
fn report_file<E: Write>(file: FileFault, name: &Option<String>, errors: &mut E) -> Ending
    ensures failed { (is_reported : Bool) × (result ≡ Ending.FileFailed file is_reported) }
    ensures line { result ≡ Ending.FileFailed file true → Appends
        (E.contents errors.old) (E.contents errors.new)
        (file_line (option_map string_bytes name.now) file) }
{
    let is_reported = match name {
        Some(name) => write!(errors, "{file}: {name}\n").is_ok(),
        None => errors.writeln(file).is_ok(),
    };
    Ending::FileFailed {
        fault: file,
        is_reported,
    }
}

// Reports in one line why a request failed, if it did.
fn report<E: Write>(answer: Result<(), CommandError>, files: &FileNames, errors: &mut E) -> Ending
    ensures ends { EndsWith answer result }
    ensures line { ReportsFault result (E.contents errors.old) (E.contents errors.new) }
    ensures file_line { (fault : TheFileFault) → result ≡ Ending.FileFailed fault true
        → Appends (E.contents errors.old) (E.contents errors.new)
        (file_line (name_of (option_map string_bytes files.now.input)
        (option_map string_bytes files.now.output)
        (option_map string_bytes files.now.events) fault.side) fault) }
    ensures quiet { result ≡ Ending.Done → errors.new ≡ errors.old }
{
    let error = match answer {
        Ok(()) => return Ending::Done,
        Err(error) => error,
    };
    match error {
        CommandError::Fault(fault) => return report_fault(fault, errors),
        CommandError::File(fault) => {
            let name = match fault.side {
                FileSide::Input => &files.input,
                FileSide::Output => &files.output,
                FileSide::Events => &files.events,
            };
            return report_file(fault, name, errors);
        }
    }
}

// Carries out the request from the file that it reads to the file that it writes. Uses a stream of
// the console if it names no file. The events go to the sink.
fn answer_request<H, S, R, W, E, P, Q, K>(
    rt: &H,
    request: &Request,
    store: &mut S,
    console: &mut Console<R, W, E, P, Q>,
    sink: &mut K,
) -> Result<(), CommandError>
where
    H: Threads + Wait + Clone + Send + Sync + 'static,
    S: FileStore,
    R: Read + Device,
    W: Write + Device,
    P: Write + Send + Drop + 'static,
    K: EventSink + Send,
    requires limits { IsWithinLimits request.now.invocation }
    requires sink { events_of request.now ≡ None → K.has_file ≡ false }
    ensures outcome { IsOutcome S.fresh (S.bytes store.old) (S.bytes store.new)
        (held_by (S.bytes store.old) (R.remaining console.old.reader) (input_of request.now))
        (W.contents console.old.writer) (W.contents console.new.writer)
        (R.failures console.old.reader) (R.failures console.new.reader)
        (W.failures console.old.writer) (W.failures console.new.writer)
        (input_of request.now) (output_of request.now) (events_of request.now)
        request.now.invocation result }
    ensures written { OnOk result (IfSome (held_by (S.bytes store.old)
        (R.remaining console.old.reader) (input_of request.now))
        (IsSunk K.has_file (K.writes sink.old sink.new) request.now.invocation)) }
    ensures untouched { IfErr result (λ error.
        StopsBeforeWriting error → console.new.writer ≡ console.old.writer) }
    ensures aside { (console.new.writer ≡ console.old.writer)
        ⊎ (request.now.files.output ≡ None) }
    ensures unread { (console.new.reader ≡ console.old.reader)
        ⊎ (request.now.files.input ≡ None) }
    ensures shown { (console.new.terminal ≡ console.old.terminal)
        ⊎ ShowsProgress request.now.invocation }
    ensures errors { console.new.errors ≡ console.old.errors }
    ensures prompt { console.new.prompt ≡ console.old.prompt }
{
    let invocation = request.invocation;
    let task = Task {
        invocation,
        runner: &Plain,
        is_last: true,
    };
    let terminal = &mut console.terminal;
    match (&request.files.input, &request.files.output) {
        (None, None) => {
            let (reader, writer) = (&mut console.reader, &mut console.writer);
            answered(answer(rt, task, reader, writer, terminal, sink))
        }
        (Some(input), None) => {
            let mut file = open_input(store, input)?;
            let writer = &mut console.writer;
            answered(answer(rt, task, &mut file, writer, terminal, sink))
        }
        (None, Some(output)) => {
            let mut temp_file = begin_file(store, FileSide::Output, output)?;
            let reader = &mut console.reader;
            let done = answer(rt, task, reader, &mut temp_file, terminal, sink);
            settle_output(store, temp_file, output, done)
        }
        (Some(input), Some(output)) => {
            let mut file = open_input(store, input)?;
            let mut temp_file = begin_file(store, FileSide::Output, output)?;
            let done = answer(rt, task, &mut file, &mut temp_file, terminal, sink);
            settle_output(store, temp_file, output, done)
        }
    }
}

// Carries out the request on the files that it names. The file of the events is put in place last,
// once all else is done.
fn carry_out<H, S, R, W, E, P, Q>(
    rt: &H,
    alloc: Global,
    request: &Request,
    store: &mut S,
    console: &mut Console<R, W, E, P, Q>,
) -> Result<(), CommandError>
where
    H: Threads + Wait + Clone + Send + Sync + 'static,
    S: FileStore,
    R: Read + Device,
    W: Write + Device,
    P: Write + Send + Drop + 'static,
    requires limits { IsWithinLimits request.now.invocation }
    requires apart { are_apart (output_of request.now) (events_of request.now) ≡ true }
    ensures outcome { IsWholeOutcome S.fresh (S.bytes store.old) (S.bytes store.new)
        (held_by (S.bytes store.old) (R.remaining console.old.reader) (input_of request.now))
        (W.contents console.old.writer) (W.contents console.new.writer)
        (R.failures console.old.reader) (R.failures console.new.reader)
        (W.failures console.old.writer) (W.failures console.new.writer)
        (input_of request.now) (output_of request.now) (events_of request.now)
        request.now.invocation result }
    ensures late { IfErr result (λ error. StopsForEvents error →
        KeepsFiles (S.bytes store.old) (S.bytes store.new)
        × (console.new.writer ≡ console.old.writer)
        ⊎ IsOutputAlone (S.bytes store.old) (S.bytes store.new)
        (held_by (S.bytes store.old) (R.remaining console.old.reader) (input_of request.now))
        (begun_by S.fresh (W.contents console.old.writer) (output_of request.now))
        (held_by (S.bytes store.new) (W.contents console.new.writer) (output_of request.now))
        (output_of request.now) request.now.invocation) }
    ensures untouched { IfErr result (λ error. StopsBeforeWriting error →
        (console.new.writer ≡ console.old.writer) ⊎ StopsForEvents error) }
    ensures aside { (console.new.writer ≡ console.old.writer)
        ⊎ (request.now.files.output ≡ None) }
    ensures unread { (console.new.reader ≡ console.old.reader)
        ⊎ (request.now.files.input ≡ None) }
    ensures shown { (console.new.terminal ≡ console.old.terminal)
        ⊎ ShowsProgress request.now.invocation }
    ensures errors { console.new.errors ≡ console.old.errors }
    ensures prompt { console.new.prompt ≡ console.old.prompt }
{
    let Some(name) = &request.files.events else {
        return answer_request(rt, request, store, console, &mut NoEvents { alloc });
    };
    let file = begin_file(store, FileSide::Events, name)?;
    let mut sink = EventsFile { alloc, file };
    let done = answer_request(rt, request, store, console, &mut sink);
    let EventsFile { alloc: _, file } = sink;
    settle_events(store, file, name, done)
}

// Returns the line that says what a request waits for if its input is typed.
fn awaited(invocation: Invocation) -> &'static str {
    match invocation {
        Invocation::Run(_) | Invocation::RunLong(_) | Invocation::Report(_) => {
            "waiting for jobs, CSV with the header lane,kind,op,root,items; Ctrl-D ends it"
        }
        Invocation::Place { .. } => {
            "waiting for commands, CSV with the header command,name,dim; Ctrl-D ends it"
        }
        Invocation::Replay { .. } => {
            "waiting for a schedule, CSV with the header station,call,arg; Ctrl-D ends it"
        }
    }
}

// Says what a request waits for, if it names no file to read and there is a prompt. Ignores a
// failed write.
fn announce<Q: Write>(request: &Request, prompt: &mut Option<Q>)
    ensures { (prompt.new ≡ prompt.old) ⊎ (request.now.files.input ≡ None) }
{
    if request.files.input.is_some() {
        return;
    }
    if let Some(prompt) = prompt {
        let _written = prompt.writeln(awaited(request.invocation));
    }
}

// Writes the help or the version, which was asked for.
fn show<W: Write + Device, E: Write>(error: &clap::Error, writer: &mut W, errors: &mut E) -> Ending
    ensures shown { (result ≡ Ending.Done) ⊎ ((is_reported : Bool) × (result ≡ Ending.Failed
        (attribute FaultKind.Write (W.failures writer.old) (W.failures writer.new)) is_reported)) }
    ensures line { ReportsFault result (E.contents errors.old) (E.contents errors.new) }
    ensures quiet { result ≡ Ending.Done → errors.new ≡ errors.old }
{
    let failures_before = writer.failures();
    if write!(writer, "{error}").is_ok() && writer.flush().is_ok() {
        return Ending::Done;
    }
    report_fault(
        Fault::attribute(FaultKind::Write, failures_before, writer.failures()),
        errors,
    )
}

// Shows the help or the version if it was asked for, or reports what is wrong with the words.
fn explain<W: Write + Device, E: Write>(
    error: &clap::Error,
    writer: &mut W,
    errors: &mut E,
) -> Ending
    ensures ends { EndsOn (kind_of error.now) result }
    ensures untouched { (fault : TheFault) (is_reported : Bool)
        → result ≡ Ending.Failed fault is_reported → IsMetBeforeWriting fault → writer.new ≡ writer.old }
    ensures aside { (writer.new ≡ writer.old) ⊎ IsShown (kind_of error.now) }
    ensures line { ReportsFault result (E.contents errors.old) (E.contents errors.new) }
    ensures quiet { result ≡ Ending.Done → errors.new ≡ errors.old }
    ensures rejected { result ≡ Ending.Rejected → writer.new ≡ writer.old }
{
    match error.kind() {
        ErrorKind::OutOfMemory => return report_fault(Fault::no_memory(), errors),
        ErrorKind::DisplayHelp | ErrorKind::DisplayVersion => return show(error, writer, errors),
        _ => {
            let _written = write!(errors, "{error}");
            return Ending::Rejected;
        }
    }
}

/// Carries out what the words of a command line ask for. The first word is the program's name.
///
/// Uses the console's reader and writer if the words name no file. An output file is a temporary
/// file until all of it is there, so it is whole or as it was before. So is the file of the events,
/// which is put in place last.
///
/// Each fault is reported in one line to the console's `errors`, which also gets what is wrong with
/// a command line. Jobs run on threads of the runtime. The terminal, if there is one, shows the
/// progress of a long run, unless the words ask for none. If the input is a file that is refused,
/// the terminal also shows where, and what is wanted there. The prompt, if there is one, says what
/// a command waits for that reads no file.
pub fn run<H, S, R, W, E, P, Q>(
    rt: &H,
    alloc: Global,
    words: &[String],
    store: &mut S,
    console: &mut Console<R, W, E, P, Q>,
) -> Ending
where
    H: Threads + Wait + Clone + Send + Sync + 'static,
    S: FileStore,
    R: Read + Device,
    W: Write + Device,
    E: Write,
    P: Write + Send + Drop + 'static,
    Q: Write,
    ensures ends { EndsBy (map string_bytes words.now)
        (held_by (S.bytes store.old) (R.remaining console.old.reader))
        (begun_by S.fresh (W.contents console.old.writer))
        (held_by (S.bytes store.new) (W.contents console.new.writer))
        (IsFaultIn (R.failures console.old.reader) (R.failures console.new.reader)
        (W.failures console.old.writer) (W.failures console.new.writer)) result }
    ensures line { ReportsFault result
        (E.contents console.old.errors) (E.contents console.new.errors) }
    ensures file_line { ReportsFileFault (map string_bytes words.now) result
        (E.contents console.old.errors) (E.contents console.new.errors) }
    ensures quiet { result ≡ Ending.Done → console.new.errors ≡ console.old.errors }
    ensures rejected { result ≡ Ending.Rejected → console.new.reader ≡ console.old.reader }
    ensures files { LeavesFiles (map string_bytes words.now)
        (held_by (S.bytes store.old) (R.remaining console.old.reader)) S.fresh
        (W.contents console.old.writer) (W.contents console.new.writer)
        (S.bytes store.old) (S.bytes store.new)
        (console.new.writer ≡ console.old.writer) result }
    ensures shown { (console.new.terminal ≡ console.old.terminal)
        ⊎ AsksForProgress (map string_bytes words.now)
        ⊎ IsRefused result }
    ensures prompted { (console.new.prompt ≡ console.old.prompt)
        ⊎ AsksForInput (map string_bytes words.now) }
    ensures aside { (console.new.writer ≡ console.old.writer)
        ⊎ AsksForOutput (map string_bytes words.now) }
    ensures unread { (console.new.reader ≡ console.old.reader)
        ⊎ AsksForInput (map string_bytes words.now) }
{
    let request = match parse_args(alloc, words) {
        Ok(request) => request,
        Err(error) => return explain(&error, &mut console.writer, &mut console.errors),
    };
    announce(&request, &mut console.prompt);
    let answer = carry_out(rt, alloc, &request, store, console);
    let ending = report(answer, &request.files, &mut console.errors);
    show_refusal(alloc, &request, ending, store, &mut console.terminal);
    ending
}
