// The command `check`: the refused records of an input.
ghost use Rattle.std.specs.Prelude.{◌≡◌, ◌⊎◌, IfErr, map, string_bytes};
ghost use Rattle.atomic_file.specs.Store.{held_by};
ghost use Rattle.jobs_csv.specs.Fault.{attribute};
ghost use Rattle.cli_args.specs.CheckLine.{IsWithin};
ghost use Rattle.cli_tools.specs.Check.{EndsCheck, IsListing};
ghost use Rattle.cli_tools.specs.Inner.{IsListingEnd};

use crate::ending::ToolEnding;
use crate::reports::{explain, report};
use atomic_file::{FileFault, FileSide, FileStore};
use cli_args::{CheckOptions, Checked, parse_check};
use jobs_csv::{Device, Fault, FaultKind, check_jobs, check_place, check_schedule};
use std::alloc::Global;
use std::io::{Read, Write};

// Lists the refused records of an input, and returns how many there are.
fn list<R: Read + Device, W: Write + Device>(
    alloc: Global,
    checked: Checked,
    reader: &mut R,
    writer: &mut W,
) -> Result<u64, Fault>
    requires { IsWithin checked }
    ensures listed { IsListing checked (R.remaining reader.old)
        (W.contents writer.old) (W.contents writer.new) result }
    ensures failed { IfErr result (λ fault.
        (fault ≡ attribute FaultKind.Read (R.failures reader.old) (R.failures reader.new))
        ⊎ (fault ≡ attribute FaultKind.Write (W.failures writer.old) (W.failures writer.new))) }
{
    match checked {
        Checked::Run { n } => check_jobs(alloc, n, reader, writer),
        Checked::Place { n } => check_place(alloc, n, reader, writer),
        Checked::Replay => check_schedule(alloc, reader, writer),
    }
}

// Lists the refused records of an input, and reports a fault in one line.
fn list_all<R: Read + Device, W: Write + Device, E: Write>(
    alloc: Global,
    checked: Checked,
    reader: &mut R,
    writer: &mut W,
    errors: &mut E,
) -> ToolEnding
    requires { IsWithin checked }
    ensures { IsListingEnd checked (R.remaining reader.old)
        (W.contents writer.old) (W.contents writer.new) result }
{
    match list(alloc, checked, reader, writer) {
        Ok(0) => ToolEnding::Done,
        Ok(_) => ToolEnding::Refused,
        Err(fault) => report(fault, errors),
    }
}

/// The streams of a call.
#[derive(Drop)]
pub struct ToolConsole<R, W, E, Q> {
    /// Standard input. It is read if the words name no file.
    pub reader: R,
    /// Standard output. The rows are written there.
    pub writer: W,
    /// Standard error. Faults are reported there.
    pub errors: E,
    /// Where a call says what it waits for, if the input is typed.
    pub prompt: Option<Q>,
}

// Returns the line that says what is waited for if the input is typed.
fn awaited(checked: Checked) -> &'static str {
    match checked {
        Checked::Run { .. } => {
            "waiting for jobs, CSV with the header lane,kind,op,root,items; Ctrl-D ends it"
        }
        Checked::Place { .. } => {
            "waiting for commands, CSV with the header command,name,dim; Ctrl-D ends it"
        }
        Checked::Replay => {
            "waiting for a schedule, CSV with the header station,call,arg; Ctrl-D ends it"
        }
    }
}

// Says what is waited for, if there is a prompt. Ignores a failed write.
fn announce<Q: Write>(checked: Checked, prompt: &mut Option<Q>) {
    if let Some(prompt) = prompt {
        let _written = prompt.writeln(awaited(checked));
    }
}

/// Carries out the command `check`, on the words from the command's name on.
///
/// Reads the file that the words name, or the console's reader. Writes a row for each refused
/// record to its writer, and reports each fault in one line to its `errors`.
pub fn check<S: FileStore, R: Read + Device, W: Write + Device, E: Write, Q: Write>(
    alloc: Global,
    words: &[String],
    store: &S,
    console: &mut ToolConsole<R, W, E, Q>,
) -> ToolEnding
    ensures ends { EndsCheck (map string_bytes words.now)
        (held_by (S.bytes store.now) (R.remaining console.old.reader))
        (W.contents console.old.writer) (W.contents console.new.writer) result }
    ensures rejected { result ≡ ToolEnding.Rejected
        → console.new.writer ≡ console.old.writer }
{
    let CheckOptions { checked, input } = match parse_check(alloc, words) {
        Ok(options) => options,
        Err(error) => return explain(&error, &mut console.writer, &mut console.errors),
    };
    let (writer, errors) = (&mut console.writer, &mut console.errors);
    let Some(name) = input else {
        announce(checked, &mut console.prompt);
        return list_all(alloc, checked, &mut console.reader, writer, errors);
    };
    match store.open(&name) {
        Ok(file) => {
            let mut file = file;
            list_all(alloc, checked, &mut file, writer, errors)
        }
        Err(reason) => {
            let side = FileSide::Input;
            let fault = FileFault { side, reason };
            let _written = write!(errors, "{fault}: {name}\n");
            ToolEnding::FileFailed(fault)
        }
    }
}
