// The line of a terminal that shows where an input is refused.
ghost use Rattle.std.specs.Prelude.{◌≡◌, ◌⊎◌, IfSome};
ghost use Rattle.cli_args.specs.CommandLine.{IsWithinLimits};
ghost use Rattle.cli_commands.specs.Program.{IsRefused};

use crate::program::Ending;
use atomic_file::FileStore;
use cli_args::{Invocation, Request};
use jobs_csv::{
    Device, Fault, RefusalRow, first_refused_command, first_refused_job, first_refused_line,
};
use std::alloc::Global;
use std::io::{Read, Write};

// The name of standard input, where the system has files.
const STANDARD_INPUT: &str = "/dev/stdin";

// Returns the row of the first refused record of an input, if one is found.
fn first_refused<R: Read + Device>(
    alloc: Global,
    invocation: Invocation,
    reader: &mut R,
) -> Option<RefusalRow>
    requires { IsWithinLimits invocation }
{
    let found = match invocation {
        Invocation::Run(options) | Invocation::RunLong(options) | Invocation::Report(options) => {
            first_refused_job(alloc, options.sizes.dim, reader)
        }
        Invocation::Place { n } => first_refused_command(alloc, n, reader),
        Invocation::Replay { .. } => first_refused_line(alloc, reader),
    };
    match found {
        Ok(row) => row,
        Err(_) => None,
    }
}

// Writes the line of a row. Escapes what a terminal would not print. Ignores a failed write.
fn write_refusal<P: Write>(row: &RefusalRow, terminal: &mut P) {
    let (line, text, wanted) = (row.line, &row.text, row.wanted);
    let _written = match row.column {
        Some(column) => {
            let name = column.name();
            write!(
                terminal,
                "  line {line}, field {name}: {text:?}; wanted: {wanted}\n"
            )
        }
        None => write!(terminal, "  line {line}; wanted: {wanted}\n"),
    };
}

// Returns the fault of a call that failed since its input is refused.
fn refusal_in(ending: Ending) -> Option<Fault>
    ensures { IfSome result (λ fault. IsRefused ending) }
{
    match ending {
        Ending::Failed { fault, .. } if fault.what.is_refusal() => Some(fault),
        _ => None,
    }
}

/// Shows on the terminal, if there is one, where the input is refused, and what is wanted there.
/// Reads the input again, which must be a file. Shows nothing if it now has another fault.
pub(crate) fn show_refusal<S: FileStore, P: Write>(
    alloc: Global,
    request: &Request,
    ending: Ending,
    store: &S,
    terminal: &mut Option<P>,
)
    requires { IsWithinLimits request.now.invocation }
    ensures { (terminal.new ≡ terminal.old) ⊎ IsRefused ending }
{
    let (Some(fault), Some(terminal)) = (refusal_in(ending), terminal) else {
        return;
    };
    let name = match &request.files.input {
        Some(name) => name.as_str(),
        None => STANDARD_INPUT,
    };
    let Some(mut file) = store.open_again(name) else {
        return;
    };
    let Some(row) = first_refused(alloc, request.invocation, &mut file) else {
        return;
    };
    if row.fault == fault {
        write_refusal(&row, terminal);
    }
}
